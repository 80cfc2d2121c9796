//! A line as its command.

ghost use Rattle.std.specs.Prelude.{◌≡◌, ◌==◌, ◌∷◌, [], not, length};
ghost use Rattle.text_lines.specs.Words.{words_of};
ghost use Rattle.patch_script.specs.{Language.{says, command_of}, Refusals.{command_in}};

use crate::command::PatchCommand;
use crate::keyword::{CommandKeyword, keyword_of};
use text_lines::{Line, Operands, Words, parse_number, read_operands};

/// The command that a keyword is by itself.
fn says_alone(keyword: CommandKeyword) -> Option<PatchCommand>
    ensures { result ≡ says keyword [] }
{
    match keyword {
        CommandKeyword::Patch => Some(PatchCommand::Patch),
        CommandKeyword::Unpatch => Some(PatchCommand::Unpatch),
        CommandKeyword::SetHandler => Some(PatchCommand::SetHandler),
        CommandKeyword::RemoveHandler => Some(PatchCommand::RemoveHandler),
        CommandKeyword::SetArgHandler => Some(PatchCommand::SetArgHandler),
        CommandKeyword::RemoveArgHandler => Some(PatchCommand::RemoveArgHandler),
        CommandKeyword::Init => Some(PatchCommand::Init),
        CommandKeyword::Finalize => Some(PatchCommand::Finalize),
        CommandKeyword::Go => Some(PatchCommand::Go),
        CommandKeyword::PatchFunction
        | CommandKeyword::UnpatchFunction
        | CommandKeyword::Hold
        | CommandKeyword::Release
        | CommandKeyword::Await => None,
    }
}

/// The command that a keyword is with one word.
fn says_one(keyword: CommandKeyword, word: &[u8]) -> Option<PatchCommand>
    ensures { result ≡ says keyword (word.now ∷ []) }
{
    match keyword {
        CommandKeyword::PatchFunction => {
            let id = parse_number(word)?;
            Some(PatchCommand::PatchFunction { id })
        }
        CommandKeyword::UnpatchFunction => {
            let id = parse_number(word)?;
            Some(PatchCommand::UnpatchFunction { id })
        }
        CommandKeyword::Release => {
            let thread = parse_number(word)?;
            Some(PatchCommand::Release { thread })
        }
        _ => None,
    }
}

/// The command that a keyword is with two words.
fn says_two(keyword: CommandKeyword, first: &[u8], second: &[u8]) -> Option<PatchCommand>
    ensures { result ≡ says keyword (first.now ∷ second.now ∷ []) }
{
    match keyword {
        CommandKeyword::Hold => {
            let thread = parse_number(first)?;
            let passing = parse_number(second)?;
            Some(PatchCommand::Hold { thread, passing })
        }
        CommandKeyword::Await => {
            let thread = parse_number(first)?;
            let count = parse_number(second)?;
            Some(PatchCommand::Await { thread, count })
        }
        _ => None,
    }
}

/// The command that a keyword is with the words after it.
fn says(keyword: CommandKeyword, words: Words) -> Option<PatchCommand>
    ensures { result ≡ says keyword words.entry }
{
    match read_operands(words) {
        Operands::Zero => says_alone(keyword),
        Operands::One(word) => says_one(keyword, word),
        Operands::Two(first, second) => says_two(keyword, first, second),
        Operands::Many => None,
    }
}

/// The command that these words are.
fn command_of(mut words: Words) -> Option<PatchCommand>
    ensures { result ≡ command_of words.entry }
{
    let first = words.next()?;
    let keyword = keyword_of(first)?;
    says(keyword, words)
}

/// Whether a line has no words.
pub(crate) fn is_blank(line: &Line) -> bool
    ensures { result ≡ (length (words_of line.now.bytes.now) == 0) }
{
    line.words().next().is_none()
}

/// The command that a line is, or `None` if it isn't one.
pub(crate) fn command_in(line: &Line) -> Option<PatchCommand>
    ensures { result ≡ command_in line.now.bytes.now }
{
    if !line.is_clean() {
        return None;
    }
    command_of(line.words())
}
