//! Cutting words into a line with `clap`, by the row of a command.
ghost use Rattle.std.specs.Prelude.{◌≡◌, ◌==◌, ◌||◌, IfOk, if◌then◌else◌, count_by, fold, map, not, option_map, take, true};
ghost use Rattle.std.specs.{List.{list_all, list_any, zip}, Str.{bytes_eq}};
ghost use Rattle.clap.specs.Simple.{app_of, with_rule};
ghost use Rattle.command_words.specs.private.Clapped.{app_by, bare_app, clap_rows, file_rule, given_in, line_in, names_in, option_rule, rows_in};
ghost use Rattle.command_words.specs.{Items.{items_of, texts}, Lines.{keeps, line_of, row_allows, stands_in}};
ghost use Rattle.command_words.specs.Rows.{is_output};
ghost use Rattle.command_words.specs.private.Allowed.{is_row};
ghost use Rattle.command_words.specs.private.CodeViews.{beside_view, file_view, line_view, option_view, row_view};

use crate::line::Line;
use crate::rows::{Beside, CommandRow, FileRow, OptionRow};
use clap::error::ErrorKind;
use clap::{Arg, ArgAction, ArgMatches};
use std::alloc::{AllocError, Global};

/// The line that the words after a command say, by the command's row. `None` if they say none.
pub(crate) fn cut_line<'a>(
    alloc: Global,
    row: &CommandRow,
    words: &'a [String],
) -> Result<Option<Line<'a>>, AllocError>
    requires { is_row (row_view row.now) ≡ true }
    ensures { IfOk result (λ line. option_map line_view line
        ≡ line_of (row_view row.now) (items_of (texts words.entry.now))) }
{
    let Some(matches) = matches_of(alloc, row, words)? else {
        return Ok(None);
    };
    let line = line_in(alloc, row, &matches)?;
    Ok(if_allowed(row, line))
}

/// The line, if its row allows it.
fn if_allowed<'a>(row: &CommandRow, line: Line<'a>) -> Option<Line<'a>>
    ensures { option_map line_view result
        ≡ (if row_allows (row_view row.now) (line_view line.entry) then Some (line_view line.entry) else None) }
{
    if row_allows(row, &line) {
        Some(line)
    } else {
        None
    }
}

/// A command without arguments. clap gets the words after the command's own, and knows no words for
/// help or version.
fn bare_command<'a>(alloc: Global, word: &'a str) -> clap::Command<'a>
    ensures { app_of result ≡ bare_app word.entry.now }
{
    clap::Command::new(alloc, word)
        .no_binary_name(true)
        .disable_help_flag(true)
        .disable_version_flag(true)
}

/// The command with one more file.
fn with_file<'a>(
    alloc: Global,
    command: clap::Command<'a>,
    file: &FileRow,
) -> Result<clap::Command<'a>, AllocError>
    ensures { IfOk result (λ c. app_of c ≡ with_rule (app_of command.entry) (file_rule (file_view file.now))) }
{
    let positional = Arg::new(alloc, file.label())
        .required(!file.may_be_absent())
        .action(ArgAction::Set);
    command.arg(positional)
}

/// A command that takes the files of a row.
fn command_of_files<'a>(alloc: Global, row: &CommandRow) -> Result<clap::Command<'a>, AllocError>
    ensures { IfOk result (λ c. app_of c
        ≡ fold with_rule (bare_app row.now.word.now) (map (λ file. file_rule (file_view file)) row.now.files.now)) }
{
    let mut command = bare_command(alloc, row.word);
    for file in row.files {
        command = with_file(alloc, command, file)?;
    }
    Ok(command)
}

/// The command with one more option.
fn with_option<'a>(
    alloc: Global,
    command: clap::Command<'a>,
    name: &'a str,
) -> Result<clap::Command<'a>, AllocError>
    ensures { IfOk result (λ c. app_of c ≡ with_rule (app_of command.entry) (option_rule name.entry.now)) }
{
    let option = Arg::new(alloc, name).long(name).action(ArgAction::Set);
    command.arg(option)
}

/// The command of clap that takes what a row says.
fn clap_command<'a>(alloc: Global, row: &CommandRow) -> Result<clap::Command<'a>, AllocError>
    ensures { IfOk result (λ c. app_of c ≡ app_by (row_view row.now)) }
{
    let mut command = command_of_files(alloc, row)?;
    for option in row.options {
        command = with_option(alloc, command, option.name)?;
    }
    Ok(command)
}

/// The matches, if the command of a row takes the words.
fn matches_of<'a>(
    alloc: Global,
    row: &CommandRow,
    words: &'a [String],
) -> Result<Option<ArgMatches<'a>>, AllocError>
    requires { is_row (row_view row.now) ≡ true }
    ensures { IfOk result (λ found.
        option_map rows_in found ≡ clap_rows (app_by (row_view row.now)) (texts words.entry.now)) }
{
    let command = clap_command(alloc, row)?;
    match command.try_get_matches_from(words) {
        Ok(matches) => Ok(Some(matches)),
        Err(error) => match error.kind() {
            ErrorKind::OutOfMemory => Err(AllocError),
            _ => Ok(None),
        },
    }
}

/// The line that the matches hold.
fn line_in<'a>(
    alloc: Global,
    row: &CommandRow,
    matches: &ArgMatches<'a>,
) -> Result<Line<'a>, AllocError>
    ensures { IfOk result (λ line. line_view line ≡ line_in (row_view row.now) (rows_in matches.now)) }
{
    let files = files_in(alloc, row.files, matches)?;
    let given = given_in(alloc, row.options, matches)?;
    Ok(Line { files, given })
}

/// The names of files in the matches, in order.
fn files_in<'a>(
    alloc: Global,
    files: &[FileRow],
    matches: &ArgMatches<'a>,
) -> Result<Vec<&'a str>, AllocError>
    ensures { IfOk result (λ names. map (λ name. name.now) names.items
        ≡ names_in (map file_view files.now) (rows_in matches.now)) }
{
    let mut names = Vec::new(alloc);
    for file in files {
        if let Some(name) = matches.get_str(file.label()) {
            names.push(name)?;
        }
    }
    Ok(names)
}

/// The options in the matches, in the order of the rows: each name with its value.
fn given_in<'a>(
    alloc: Global,
    options: &[OptionRow],
    matches: &ArgMatches<'a>,
) -> Result<Vec<(&'a str, &'a str)>, AllocError>
    ensures { IfOk result (λ given. map (λ pair. (pair.0.now, pair.1.now)) given.items
        ≡ given_in (map option_view options.now) (rows_in matches.now)) }
{
    let mut given = Vec::new(alloc);
    for option in options {
        if let Some(value) = matches.get_str(option.name) {
            given.push((option.name, value))?;
        }
    }
    Ok(given)
}

/// Whether no output has the name of another file, and what stands in the line may stand together.
#[tactic(auto, using(crate::proofs::ClapMatches::all_mapped, crate::proofs::ClapMatches::outputs_zipped))]
fn row_allows(row: &CommandRow, line: &Line<'_>) -> bool
    ensures { result ≡ row_allows (row_view row.now) (line_view line.now) }
{
    outputs_differ(row.files, &line.files) && keep_all(row, line, row.beside)
}

/// Whether what stands in a line may stand together, by each of these rules.
fn keep_all(row: &CommandRow, line: &Line<'_>, rules: &[Beside]) -> bool
    ensures { result ≡ list_all (λ rule. keeps (row_view row.now) (line_view line.now) (beside_view rule)) rules.now }
{
    rules.iter().all(|rule| keeps(row, line, rule))
}

/// Whether what stands in a line may stand together, by a rule.
fn keeps(row: &CommandRow, line: &Line<'_>, rule: &Beside) -> bool
    ensures { result ≡ keeps (row_view row.now) (line_view line.now) (beside_view rule.now) }
{
    match rule {
        Beside::OnlyWith(one, other) => !stands_in(row, line, one) || stands_in(row, line, other),
        Beside::NeverWith(one, other) => {
            !(stands_in(row, line, one) && stands_in(row, line, other))
        }
    }
}

/// Whether an option of this name is given, or a file of this name has a word.
#[tactic(auto, using(crate::proofs::ClapMatches::named_mapped))]
fn stands_in(row: &CommandRow, line: &Line<'_>, name: &str) -> bool
    ensures { result ≡ stands_in (row_view row.now) (line_view line.now) name.now }
{
    line.value(name).is_some() || has_file(row.files, line.files.len(), name)
}

/// Whether a file of this name is among so many first ones.
fn has_file(files: &[FileRow], count: usize, name: &str) -> bool
    ensures { result ≡ list_any (λ file. bytes_eq (file_view file).label name.now) (take count files.now) }
{
    files.iter().take(count).any(|file| file.label() == name)
}

/// Whether no output has the name of another file.
fn outputs_differ(files: &[FileRow], names: &[&str]) -> bool
    ensures { result ≡ list_all (λ pair. not (is_output (file_view pair.0))
        || count_by (bytes_eq pair.1.now) (map (λ other. other.now) names.now) == 1) (zip files.now names.now) }
{
    files.iter().zip(names).all(|(file, name)| !file.is_written() || count_of(name, names) == 1)
}

/// How many of the names are this one.
fn count_of(name: &str, names: &[&str]) -> usize
    ensures { result ≡ count_by (bytes_eq name.now) (map (λ other. other.now) names.now) }
{
    names.iter().filter(|other| name == **other).count()
}
