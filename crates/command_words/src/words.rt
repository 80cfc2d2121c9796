//! The command that a command line says.
ghost use Rattle.std.specs.Prelude.{◌≡◌, IfOk, IfSome, find, map, option_map, true};
ghost use Rattle.std.specs.{List.{list_all}, Str.{bytes_eq}};
ghost use Rattle.fdr_buffer.specs.Times.{IsTime};
ghost use Rattle.command_words.specs.{Items.{texts}, Ranges.{HasRanges, InRange}};
ghost use Rattle.command_words.specs.{Views.{command_view}, Words.{account_in, asm_in, calls_asked_in, command_by, convert_in, plain_in, profile_in, reading, row_with, run_in, sim_in, stack_in}};
ghost use Rattle.command_words.specs.private.Allowed.{is_row};
ghost use Rattle.command_words.specs.private.CodeViews.{line_view, row_view};

use crate::cutting::cut_line;
use crate::line::Line;
use crate::profile_options::{ProfileOptions, profile_options_in};
use crate::report_options::{
    AccountOptions, CallsOptions, ConvertOptions, NameSource, ReportFiles, StackFormat,
    account_options_in, calls_options_in, convert_options_in, report_files_in, stack_format_in,
};
use crate::rows::CommandRow;
use crate::run_options::{Bounds, RunOptions, bounds_in, run_options_in};
use crate::tables::{COMMANDS, MAP_VERSION, RELATIVE_MAP, SEEDS, THRESHOLD, Verb};
use std::alloc::{AllocError, Global};
use xray_io::Wall;

/// What the program is asked to do: the command, the names of its files, and its options.
#[derive(Clone, Copy)]
pub enum Command<'a> {
    /// Replays a schedule over an image and a script.
    Sim {
        /// The image file.
        image: &'a str,
        /// The script of the patcher.
        script: &'a str,
        /// The turns of the threads and the patcher.
        schedule: &'a str,
        /// The trace of the events, an output.
        trace: &'a str,
        /// The audit of the run, an output with another name.
        audit: &'a str,
        /// What the replay is made with.
        options: RunOptions,
    },
    /// Runs threads over an image while a script patches it.
    Run {
        /// The image file.
        image: &'a str,
        /// The script of the patcher.
        script: &'a str,
        /// The trace of the events, which is an output.
        trace: &'a str,
        /// The audit of the run, which is an output of another name.
        audit: &'a str,
        /// What the run is made with.
        options: RunOptions,
    },
    /// Runs an image on each thread, with its sleds only counted.
    Plain {
        /// The image file.
        image: &'a str,
        /// The limits of the threads.
        bounds: Bounds,
    },
    /// Prints the sled map of an image.
    Extract {
        /// The image file.
        image: &'a str,
    },
    /// Assembles an image.
    Asm {
        /// The assembler text.
        text: &'a str,
        /// The image file, which is the output.
        image: &'a str,
        /// The least number of instruction lines with which a function gets sleds.
        threshold: u32,
        /// Whether the addresses of its sled map count from the fields that hold them. Otherwise
        /// they are absolute.
        relative: bool,
    },
    /// Prints how often the functions of a trace were called, and for how long.
    Account {
        /// The trace.
        trace: &'a str,
        /// What names its functions.
        names: NameSource<'a>,
        /// How the account is printed.
        options: AccountOptions,
    },
    /// Prints how often each stack of a trace occurred, and for how long.
    Stack {
        /// The trace.
        trace: &'a str,
        /// What names its functions.
        names: NameSource<'a>,
        /// The form in which the stacks are printed.
        format: StackFormat,
    },
    /// Prints a trace in another form.
    Convert {
        /// The trace.
        trace: &'a str,
        /// What names its functions.
        names: NameSource<'a>,
        /// The form that it is converted to, and the form that it has.
        options: ConvertOptions,
    },
    /// Prints the records of a trace.
    Dump {
        /// The trace.
        trace: &'a str,
    },
    /// Says whether a trace and an audit can be those of a run of this image and this script.
    Check {
        /// The image file.
        image: &'a str,
        /// The script of the patcher.
        script: &'a str,
        /// The trace, which is read.
        trace: &'a str,
        /// The audit, which is read.
        audit: &'a str,
    },
    /// Writes the order of a finished run as a schedule, and its script without its waits.
    Order {
        /// The image file.
        image: &'a str,
        /// The script of the patcher.
        script: &'a str,
        /// The audit, which is read.
        audit: &'a str,
        /// The script without its waits, an output.
        free: &'a str,
        /// The schedule, an output with another name.
        schedule: &'a str,
    },
    /// Runs threads over an image while a script patches it, and prints how often each stack
    /// occurred, and for how long.
    Profile {
        /// The image file.
        image: &'a str,
        /// The script of the patcher.
        script: &'a str,
        /// What the run is made with, and how the stacks are printed.
        options: ProfileOptions,
    },
    /// Replays a schedule over a large image and a script, all drawn from a number, and prints a
    /// summary.
    Soak {
        /// The number.
        number: u64,
    },
    /// Writes a log of LLVM's runtime as a trace, and prints what was taken.
    Import {
        /// The log.
        log: &'a str,
        /// The trace, which is written.
        trace: &'a str,
    },
    /// Writes the sled map of a compiled program, and prints what it has.
    Map {
        /// The program.
        program: &'a str,
        /// The sled map, which is written.
        map: &'a str,
    },
    /// Prints the calls of a trace, one by one.
    Calls {
        /// The trace.
        trace: &'a str,
        /// What names its functions.
        names: NameSource<'a>,
        /// Which calls are printed, and how.
        options: CallsOptions,
    },
}

/// The command that words say at a wall time, or `None` if they say none. The words are those after
/// the program's own name. A run begins at the wall time, unless the words say another. The
/// microseconds of the wall time are below 1,000,000.
///
/// # Errors
/// `AllocError` means that an allocation was refused. There are no other errors.
pub fn read_words<'a>(
    alloc: Global,
    wall: Wall,
    words: &'a [String],
) -> Result<Option<Command<'a>>, AllocError>
    requires { IsTime wall }
    ensures reads { IfOk result (λ said. option_map command_view said ≡ reading wall (texts words.entry.now)) }
    ensures ranges { IfOk result (λ said. IfSome (option_map command_view said) HasRanges) }
{
    let Some((word, rest)) = words.split_first() else {
        return Ok(None);
    };
    let Some(row) = row_with(word.as_str()) else {
        return Ok(None);
    };
    match cut_line(alloc, &row, rest)? {
        Some(line) => Ok(command_in(row.verb, wall, &line)),
        None => Ok(None),
    }
}

/// The row of the command that has a word. `None` if no command has it.
fn row_with(word: &str) -> Option<CommandRow>
    ensures row { option_map row_view result ≡ row_with word.now }
    ensures allowed { IfSome result (λ row. is_row (row_view row) ≡ true) }
{
    row_in(COMMANDS, word)
}

/// The first of these rows that has a word. `None` if none has it.
fn row_in(rows: &[CommandRow], word: &str) -> Option<CommandRow>
    ensures found { option_map row_view result ≡ find (λ row. bytes_eq word.now row.word) (map row_view rows.now) }
    ensures allowed { list_all is_row (map row_view rows.now) ≡ true → IfSome result (λ row. is_row (row_view row) ≡ true) }
{
    rows.iter().find(|row| word == row.word).copied()
}

/// The command that a line of the verb's row says. `None` if it lacks a file, or if a value isn't
/// allowed.
fn command_in<'a>(verb: Verb, wall: Wall, line: &Line<'a>) -> Option<Command<'a>>
    requires { IsTime wall }
    ensures reads { option_map command_view result ≡ command_by verb wall (line_view line.now) }
    ensures ranges { IfSome (option_map command_view result) InRange }
{
    let files = line.files.as_slice();
    match verb {
        Verb::Plain => plain_in(line),
        Verb::Extract => match files {
            [image] => Some(Command::Extract { image }),
            _ => None,
        },
        Verb::Sim => sim_in(wall, line),
        Verb::Run => run_in(wall, line),
        Verb::Asm => asm_in(line),
        Verb::Account => account_in(line),
        Verb::Stack => stack_in(line),
        Verb::Convert => convert_in(line),
        Verb::Dump => match files {
            [trace] => Some(Command::Dump { trace }),
            _ => None,
        },
        Verb::Check => match files {
            [image, script, trace, audit] => Some(Command::Check {
                image,
                script,
                trace,
                audit,
            }),
            _ => None,
        },
        Verb::Order => match files {
            [image, script, audit, free, schedule] => Some(Command::Order {
                image,
                script,
                audit,
                free,
                schedule,
            }),
            _ => None,
        },
        Verb::Profile => profile_in(line),
        Verb::Soak => match files {
            [seed] => Some(Command::Soak {
                number: SEEDS.number_meant(seed)?,
            }),
            _ => None,
        },
        Verb::Import => match files {
            [log, trace] => Some(Command::Import { log, trace }),
            _ => None,
        },
        Verb::Map => match files {
            [program, map] => Some(Command::Map { program, map }),
            _ => None,
        },
        Verb::Calls => calls_asked_in(line),
    }
}

/// The plain run that a line asks for. `None` if it lacks the image, or if a value isn't allowed.
fn plain_in<'a>(line: &Line<'a>) -> Option<Command<'a>>
    ensures reads { option_map command_view result ≡ plain_in (line_view line.now) }
    ensures ranges { IfSome (option_map command_view result) InRange }
{
    match line.files.as_slice() {
        [image] => Some(Command::Plain {
            image,
            bounds: bounds_in(line)?,
        }),
        _ => None,
    }
}

/// The replay that a line asks for. `None` if it lacks a file, or if a value isn't allowed.
fn sim_in<'a>(wall: Wall, line: &Line<'a>) -> Option<Command<'a>>
    requires { IsTime wall }
    ensures reads { option_map command_view result ≡ sim_in wall (line_view line.now) }
    ensures ranges { IfSome (option_map command_view result) InRange }
{
    match line.files.as_slice() {
        [image, script, schedule, trace, audit] => Some(Command::Sim {
            image,
            script,
            schedule,
            trace,
            audit,
            options: run_options_in(wall, line)?,
        }),
        _ => None,
    }
}

/// The run that a line asks for. `None` if it lacks a file, or if a value isn't allowed.
fn run_in<'a>(wall: Wall, line: &Line<'a>) -> Option<Command<'a>>
    requires { IsTime wall }
    ensures reads { option_map command_view result ≡ run_in wall (line_view line.now) }
    ensures ranges { IfSome (option_map command_view result) InRange }
{
    match line.files.as_slice() {
        [image, script, trace, audit] => Some(Command::Run {
            image,
            script,
            trace,
            audit,
            options: run_options_in(wall, line)?,
        }),
        _ => None,
    }
}

/// The assembling that a line asks for. `None` if it lacks a file, or if a value isn't allowed.
fn asm_in<'a>(line: &Line<'a>) -> Option<Command<'a>>
    ensures reads { option_map command_view result ≡ asm_in (line_view line.now) }
    ensures ranges { IfSome (option_map command_view result) InRange }
{
    match line.files.as_slice() {
        [text, image] => Some(Command::Asm {
            text,
            image,
            threshold: THRESHOLD.number_given(line)? as u32,
            relative: MAP_VERSION.number_given(line)? == RELATIVE_MAP,
        }),
        _ => None,
    }
}

/// The account that a line asks for. `None` if it lacks the trace, or if a value isn't allowed.
fn account_in<'a>(line: &Line<'a>) -> Option<Command<'a>>
    ensures reads { option_map command_view result ≡ account_in (line_view line.now) }
    ensures ranges { IfSome (option_map command_view result) InRange }
{
    let ReportFiles { trace, names } = report_files_in(line)?;
    let options = account_options_in(line)?;
    Some(Command::Account {
        trace,
        names,
        options,
    })
}

/// The calls that a line asks for. `None` if it lacks the trace, or if a value isn't allowed.
fn calls_asked_in<'a>(line: &Line<'a>) -> Option<Command<'a>>
    ensures reads { option_map command_view result ≡ calls_asked_in (line_view line.now) }
    ensures ranges { IfSome (option_map command_view result) InRange }
{
    let ReportFiles { trace, names } = report_files_in(line)?;
    let options = calls_options_in(line)?;
    Some(Command::Calls {
        trace,
        names,
        options,
    })
}

/// The stacks that a line asks for. `None` if it lacks the trace, or if a value isn't allowed.
fn stack_in<'a>(line: &Line<'a>) -> Option<Command<'a>>
    ensures reads { option_map command_view result ≡ stack_in (line_view line.now) }
    ensures ranges { IfSome (option_map command_view result) InRange }
{
    let ReportFiles { trace, names } = report_files_in(line)?;
    let format = stack_format_in(line)?;
    Some(Command::Stack {
        trace,
        names,
        format,
    })
}

/// The conversion that a line asks for. `None` if it lacks the trace, or if a value isn't allowed.
fn convert_in<'a>(line: &Line<'a>) -> Option<Command<'a>>
    ensures reads { option_map command_view result ≡ convert_in (line_view line.now) }
    ensures ranges { IfSome (option_map command_view result) InRange }
{
    let ReportFiles { trace, names } = report_files_in(line)?;
    let options = convert_options_in(line)?;
    Some(Command::Convert {
        trace,
        names,
        options,
    })
}

/// The profile that a line asks for. `None` if it lacks a file, or if a value isn't allowed.
fn profile_in<'a>(line: &Line<'a>) -> Option<Command<'a>>
    ensures reads { option_map command_view result ≡ profile_in (line_view line.now) }
    ensures ranges { IfSome (option_map command_view result) InRange }
{
    match line.files.as_slice() {
        [image, script] => Some(Command::Profile {
            image,
            script,
            options: profile_options_in(line)?,
        }),
        _ => None,
    }
}
