//! A line as what it says.

ghost use Rattle.std.specs.Prelude.{◌≡◌, ◌∷◌, [], option_map, option_and_then};
ghost use Rattle.asm_text.specs.{Names.{name_written}, Registers.{register64, before_comma}};
ghost use Rattle.asm_text.specs.{Statements.{Go, Does}, Language.{keyword_says, label_of}};
ghost use Rattle.asm_text.specs.private.Views.{statement_spoken, LineGives};

use crate::fault::AsmFault;
use crate::keyword::{Keyword, choice_of, keyword_of};
use crate::names::{before_end, name_of};
use crate::numbers::number_of;
use crate::registers::{RegisterWord, register32, register64};
use crate::statement::{Branch, Choice, RawOperation, RawStatement};
use text_lines::{Line, Operands, Words, read_operands};

/// The byte that ends a label.
const COLON: u8 = b':';

/// The byte that ends the first of two operands.
const COMMA: u8 = b',';

/// An instruction line that goes to a name.
fn branch_line<'a>(branch: Branch, word: &'a [u8]) -> Option<RawStatement<'a>>
    ensures { option_map statement_spoken result
        ≡ option_map (λ n. Does (Go branch n)) (name_written word.now) }
{
    let name = name_of(word)?;
    Some(RawStatement::Does(RawOperation::Go { branch, name }))
}

/// What a keyword says by itself.
fn says_alone<'a>(keyword: Keyword) -> Option<RawStatement<'a>>
    ensures { option_map statement_spoken result ≡ keyword_says keyword [] }
{
    match keyword {
        Keyword::Ret => Some(RawStatement::Does(RawOperation::Return)),
        _ => None,
    }
}

/// What a keyword says with one word.
fn says_one<'a>(keyword: Keyword, word: &'a [u8]) -> Option<RawStatement<'a>>
    ensures { option_map statement_spoken result ≡ keyword_says keyword (word.now ∷ []) }
{
    match keyword {
        Keyword::Base => Some(RawStatement::Base(number_of(word)?)),
        Keyword::Entry => Some(RawStatement::Entry(name_of(word)?)),
        Keyword::Function => Some(RawStatement::Function {
            name: name_of(word)?,
            choice: Choice::ByLength,
        }),
        Keyword::Push => Some(RawStatement::Does(RawOperation::Push {
            reg: register64(word)?,
        })),
        Keyword::Pop => Some(RawStatement::Does(RawOperation::Pop {
            reg: register64(word)?,
        })),
        Keyword::Call => branch_line(Branch::Call, word),
        Keyword::Jmp => branch_line(Branch::Jmp, word),
        Keyword::Jnz => branch_line(Branch::Jnz, word),
        Keyword::TailJump => Some(RawStatement::Does(RawOperation::TailJump {
            name: name_of(word)?,
        })),
        Keyword::Out => Some(RawStatement::Does(RawOperation::Out {
            port: number_of(word)?,
        })),
        Keyword::Mov | Keyword::Add | Keyword::Sub | Keyword::Ret => None,
    }
}

/// The two registers of an instruction, destination first.
fn two_registers(first: &[u8], second: &[u8]) -> Option<(RegisterWord, RegisterWord)>
    ensures { result
        ≡ option_and_then (λ dst. option_map (λ src. (dst, src)) (register64 second.now))
        (option_and_then register64 (before_comma first.now)) }
{
    let dst = register64(before_end(COMMA, first)?)?;
    let src = register64(second)?;
    Some((dst, src))
}

/// What a keyword says with two words.
fn says_two<'a>(keyword: Keyword, first: &'a [u8], second: &'a [u8]) -> Option<RawStatement<'a>>
    ensures { option_map statement_spoken result ≡ keyword_says keyword (first.now ∷ second.now ∷ []) }
{
    match keyword {
        Keyword::Function => Some(RawStatement::Function {
            name: name_of(first)?,
            choice: choice_of(second)?,
        }),
        Keyword::Mov => {
            let dst = register32(before_end(COMMA, first)?)?;
            let imm = number_of(second)?;
            Some(RawStatement::Does(RawOperation::Mov { dst, imm }))
        }
        Keyword::Add => {
            let (dst, src) = two_registers(first, second)?;
            Some(RawStatement::Does(RawOperation::Add { dst, src }))
        }
        Keyword::Sub => {
            let (dst, src) = two_registers(first, second)?;
            Some(RawStatement::Does(RawOperation::Sub { dst, src }))
        }
        _ => None,
    }
}

/// What a keyword says with the words after it.
fn says<'a>(keyword: Keyword, words: Words<'a>) -> Option<RawStatement<'a>>
    ensures { option_map statement_spoken result ≡ keyword_says keyword words.entry }
{
    match read_operands(words) {
        Operands::Zero => says_alone(keyword),
        Operands::One(word) => says_one(keyword, word),
        Operands::Two(first, second) => says_two(keyword, first, second),
        Operands::Many => None,
    }
}

/// The label that a line is. Its first word isn't a keyword.
fn label<'a>(word: &'a [u8], mut words: Words<'a>) -> Option<RawStatement<'a>>
    ensures { option_map statement_spoken result ≡ label_of word.now words.entry }
{
    if words.next().is_some() {
        return None;
    }
    let name = name_of(before_end(COLON, word)?)?;
    Some(RawStatement::Label(name))
}

/// What a line says, or nothing if it has no words. `Syntax` if it isn't a line of the language.
pub(crate) fn read_line<'a>(line: &Line<'a>) -> Result<Option<RawStatement<'a>>, AsmFault>
    ensures { LineGives line.now.number line.now.bytes.now result }
{
    if !line.is_clean() {
        return Err(AsmFault::Syntax(line.number));
    }
    let mut words = line.words();
    let Some(first) = words.next() else {
        return Ok(None);
    };
    let says = match keyword_of(first) {
        Some(keyword) => says(keyword, words),
        None => label(first, words),
    };
    match says {
        Some(says) => Ok(Some(says)),
        None => Err(AsmFault::Syntax(line.number)),
    }
}
