//! Calls of `command_words`: command lines and what they say.

use crate::checks::{check_same, check_same_text};
use command_words::*;
use std::alloc::{AllocError, Global};
use std::test::Fail;
use xray_io::Wall;

/// The wall time that is passed in.
const NOON: Wall = Wall {
    secs: 43_200,
    micros: 5,
};

/// Command lines and what they say, by hand. Each has words with bars between them, and then the
/// command, with each name in brackets and its numbers in the order of the table of options.
const SAID: &str = "\
plain => none
 => none
Plain|i => none
plain|i => plain [i] 1 10000000 1048576
plain|- => plain [-] 1 10000000 1048576
plain| => plain [] 1 10000000 1048576
plain|a=b => plain [a=b] 1 10000000 1048576
plain|a b => plain [a b] 1 10000000 1048576
plain|help => plain [help] 1 10000000 1048576
plain|--|-h => plain [-h] 1 10000000 1048576
plain|--|-- => plain [--] 1 10000000 1048576
plain|--fuel=3|--|i => plain [i] 1 3 1048576
plain|i|--passings|0 => plain [i] 1 10000000 0
plain|-- => none
plain|--|i|--fuel=3 => none
plain|--fuel|--|3|i => none
plain|i|--fuel => none
plain|i|j => none
plain|-f|3|i => none
plain|-fuel=3|i => none
plain|--=3|i => none
plain|---fuel=3|i => none
plain|--fue=3|i => none
plain|--threshold=3|i => none
plain|i|--fuel=+7 => plain [i] 1 7 1048576
plain|i|--fuel|007 => plain [i] 1 7 1048576
plain|i|--fuel=1000000000 => plain [i] 1 1000000000 1048576
plain|i|--threads=16 => plain [i] 16 10000000 1048576
plain|i|--threads=17 => none
plain|i|--threads=0 => none
plain|i|--fuel=1000000001 => none
plain|i|--fuel=18446744073709551616 => none
plain|i|--passings=1048577 => none
plain|i|--fuel= => none
plain|i|--fuel=+ => none
plain|i|--fuel| => none
plain|i|--fuel=3=4 => none
plain|i|--fuel=0x3 => none
plain|i|--fuel|-3 => none
plain|i|--fuel=-3 => none
plain|i|--fuel=3|--fuel=3 => none
plain|i|--fuel|3|--fuel=4 => none
asm|t|i => asm [t] [i] 1 false
asm|--threshold|4294967295|t|i => asm [t] [i] 4294967295 false
asm|--map-version|2|t|i => asm [t] [i] 1 true
asm|t|--map-version=+02|i|--threshold=0 => asm [t] [i] 0 true
asm|t|i|--map-version=0 => asm [t] [i] 1 false
asm|t|i|--map-version=1 => none
asm|t|i|--map-version=3 => none
asm|t|i|--map-version=18446744073709551618 => none
asm|t|i|--map-version= => none
asm|t|i|--map-version=2|--map-version=2 => none
asm|t|i|--threshold=4294967296 => none
asm|t|t => none
asm|t|--|t => none
asm|t|./t => asm [t] [./t] 1 false
asm|t => none
asm|t|i|--threads=1 => none
extract|i => extract [i]
extract|i|--fuel=1 => none
--help => none
help => none
extract|-V => none
extract|--version => none
sim|i|s|c|t|a => sim [i] [s] [c] [t] [a] 1 10000000 1048576 16384 100 1 0 0 1 1048576 1 43200.5
sim|s|s|s|t|a|--wall=0 => sim [s] [s] [s] [t] [a] 1 10000000 1048576 16384 100 1 0 0 1 1048576 1 0.0
sim|i|s|c|t|a|--threads=2|--fuel=3|--passings=4|--buffer-size=88|--buffer-max=2|--tick=18446744073709551615\
|--tsc=5|--frequency=6|--cpus=65535|--migrate=1|--pid=2147483647|--wall=7 \
=> sim [i] [s] [c] [t] [a] 2 3 4 88 2 18446744073709551615 5 6 65535 1 2147483647 7.0
sim|i|s|c => none
sim|i|s|c|t|t => none
sim|i|s|c|t|s => none
sim|i|s|c|c|a => none
sim|i|s|c|t|a|b => none
sim|i|s|c|t|a|--threshold=1 => none
sim|i|s|c|t|a|--threads=4|--buffer-max=3 => none
sim|i|s|c|t|a|--buffer-size=65519|--buffer-max=1024 \
=> sim [i] [s] [c] [t] [a] 1 10000000 1048576 65519 1024 1 0 0 1 1048576 1 43200.5
sim|i|s|c|t|a|--buffer-size=65520|--buffer-max=1024 => none
sim|i|s|c|t|a|--buffer-size=71 => none
sim|i|s|c|t|a|--buffer-size=1048577 => none
sim|i|s|c|t|a|--buffer-max=1025 => none
sim|i|s|c|t|a|--cpus=0 => none
sim|i|s|c|t|a|--migrate=1048577 => none
sim|i|s|c|t|a|--pid=2147483648 => none
sim|i|s|c|t|a|--wall=18446744073709551616 => none
run|i|s|t|a|--wall=7|--threads|2 => run [i] [s] [t] [a] 2 10000000 1048576 16384 100 1 0 0 1 1048576 1 7.0
run|i|s|c|t|a => none
run|i|s|t|t => none
run|i|s|s|a => none
account|t => account [t] Ids FuncId Ascending None Text
account|t|t|--sort|funcid => account [t] Image(\"t\") FuncId Ascending None Text
account|--sort=sum|t|i|--sortorder=desc|--top=0|--format|csv => account [t] Image(\"i\") Sum Descending Some(0) Csv
account|t|--sort|99p|--top|4294967295 => account [t] Ids P99 Ascending Some(4294967295) Text
account|t|--map|m|--top=3 => account [t] Map(\"m\") FuncId Ascending Some(3) Text
account|--map=|t => account [t] Map(\"\") FuncId Ascending None Text
account|--map=m|t|i => none
account|t|--map=m|--map=m => none
account|t|--map => none
account|t|--sort=90 => none
account|t|--sort= => none
account|t|--sort=0 => none
account|t|--format=yaml => none
account|t|--top=4294967296 => none
account|t|i|j => none
account|t|--sort=sum|--sort=sum => none
account => none
stack|t => stack [t] Ids Human
stack|t|i|--format=flame => stack [t] Image(\"i\") Flame
stack|--format|svg|t => stack [t] Ids Svg
stack|--map=t|t => stack [t] Map(\"t\") Human
stack|t|--map=m|i => none
stack|t|--format=yaml => none
convert|t => convert [t] Ids Yaml Fdr
convert|t|i|--format|yaml => convert [t] Image(\"i\") Yaml Fdr
convert|t|--format=trace-event|--input=fdr => convert [t] Ids TraceEvents Fdr
convert|--input=basic|t|--format|basic => convert [t] Ids Basic Basic
convert|t|--map|m|--format|trace-event => convert [t] Map(\"m\") TraceEvents Fdr
convert|t|i|--map|m => none
convert|t|--format=human => none
convert|t|--input=yaml => none
fdr-dump|t => dump [t]
fdr-dump|t|i => none
fdr-dump|t|--input=fdr => none
check|i|s|t|a => check [i] [s] [t] [a]
check|i|i|i|i => check [i] [i] [i] [i]
check|i|s|t => none
check|i|s|t|a|--threads=1 => none
order|i|s|a|f|o => order [i] [s] [a] [f] [o]
order|i|i|i|f|o => order [i] [i] [i] [f] [o]
order|i|s|a|f|f => none
order|i|s|a|s|o => none
order|i|s|a|f => none
order|i|s|a|f|o|--threads=1 => none
profile|i|s => profile [i] [s] 1 10000000 1048576 1 0 1 1048576 4096 Human
profile|i|s|--threads=2|--fuel=3|--passings=4|--tick=5|--tsc=6|--cpus=7|--migrate=8|--nodes=262144|--format=svg \
=> profile [i] [s] 2 3 4 5 6 7 8 262144 Svg
profile|i|s|--nodes=0 => none
profile|i|s|--nodes=262145 => none
profile|i|s|--frequency=1 => none
profile|i|s|--pid=1 => none
profile|i => none
soak => none
soak|x => none
soak|1 => soak 1
soak|+007 => soak 7
soak|--|18446744073709551615 => soak 18446744073709551615
soak|18446744073709551616 => none
soak|-1 => none
soak|1|2 => none
soak|1|--threads|4 => none
plain|i|--map=m => none
profile|i|s|--map=m => none
import|l|t => import [l] [t]
import|l|l => none
import|l => none
import|l|t|u => none
import|l|t|--map=m => none
";

/// Words as a program gets them, from a line with bars between the words.
fn words_of(alloc: Global, line: &str) -> Result<Vec<String>, AllocError> {
    let mut words = Vec::new(alloc);
    for word in line.split('|') {
        words.push(String::from_str(alloc, word)?)?;
    }
    Ok(words)
}

/// The command that words say, as [`shown_command`] shows it. `none` if they say no command.
fn shown(alloc: Global, words: &[String]) -> Result<String, AllocError> {
    match read_words(alloc, NOON, words)? {
        Some(command) => shown_command(alloc, command),
        None => String::from_str(alloc, "none"),
    }
}

/// A command, with each name in brackets, and its numbers.
fn shown_command(alloc: Global, command: Command) -> Result<String, AllocError> {
    match command {
        Command::Plain { image, bounds } => {
            format!(in alloc; "plain [{image}] {}", shown_bounds(alloc, bounds)?)
        }
        Command::Extract { image } => format!(in alloc; "extract [{image}]"),
        Command::Asm {
            text,
            image,
            threshold,
            relative,
        } => format!(in alloc; "asm [{text}] [{image}] {threshold} {relative}"),
        Command::Check {
            image,
            script,
            trace,
            audit,
        } => format!(in alloc; "check [{image}] [{script}] [{trace}] [{audit}]"),
        Command::Order {
            image,
            script,
            audit,
            free,
            schedule,
        } => format!(in alloc; "order [{image}] [{script}] [{audit}] [{free}] [{schedule}]"),
        Command::Soak { number } => format!(in alloc; "soak {number}"),
        Command::Import { log, trace } => format!(in alloc; "import [{log}] [{trace}]"),
        other => shown_threads(alloc, other),
    }
}

/// A command that runs threads and writes what they leave.
fn shown_threads(alloc: Global, command: Command) -> Result<String, AllocError> {
    match command {
        Command::Profile {
            image,
            script,
            options,
        } => {
            let options = shown_profile(alloc, options)?;
            format!(in alloc; "profile [{image}] [{script}] {options}")
        }
        Command::Run {
            image,
            script,
            trace,
            audit,
            options,
        } => shown_run(alloc, "run", &[image, script, trace, audit], options),
        Command::Sim {
            image,
            script,
            schedule,
            trace,
            audit,
            options,
        } => {
            let files = [image, script, schedule, trace, audit];
            shown_run(alloc, "sim", &files, options)
        }
        other => shown_report(alloc, other),
    }
}

/// A command that prints a report of a trace.
fn shown_report(alloc: Global, command: Command) -> Result<String, AllocError> {
    match command {
        Command::Account {
            trace,
            names,
            options,
        } => {
            let options = shown_account(alloc, options)?;
            format!(in alloc; "account [{trace}] {names:?} {options}")
        }
        Command::Stack {
            trace,
            names,
            format,
        } => format!(in alloc; "stack [{trace}] {names:?} {format:?}"),
        Command::Convert {
            trace,
            names,
            options,
        } => {
            let ConvertOptions { format, input } = options;
            format!(in alloc; "convert [{trace}] {names:?} {format:?} {input:?}")
        }
        Command::Dump { trace } => format!(in alloc; "dump [{trace}]"),
        _ => String::from_str(alloc, "another command"),
    }
}

/// The limits of threads.
fn shown_bounds(alloc: Global, bounds: Bounds) -> Result<String, AllocError> {
    format!(in alloc; "{} {} {}", bounds.threads, bounds.fuel, bounds.passings)
}

/// How an account is printed.
fn shown_account(alloc: Global, options: AccountOptions) -> Result<String, AllocError> {
    format!(in alloc;
        "{:?} {:?} {:?} {:?}",
        options.sort, options.order, options.top, options.format
    )
}

/// The numbers of a profile's options in the order of the table, and how it is printed.
fn shown_profile(alloc: Global, options: ProfileOptions) -> Result<String, AllocError> {
    let bounds = shown_bounds(alloc, options.bounds)?;
    let Stamps {
        tick,
        tsc,
        cpus,
        migrate,
    } = options.stamps;
    let (nodes, format) = (options.nodes, options.format);
    format!(in alloc; "{bounds} {tick} {tsc} {cpus} {migrate} {nodes} {format:?}")
}

/// A command that writes a trace and an audit: its word, its files, and its options.
fn shown_run(
    alloc: Global,
    word: &str,
    files: &[&str],
    options: RunOptions,
) -> Result<String, AllocError> {
    let mut shown = String::from_str(alloc, word)?;
    for file in files {
        shown.push_str(" [")?;
        shown.push_str(file)?;
        shown.push_str("]")?;
    }
    shown.push_str(" ")?;
    shown.push_str(shown_options(alloc, options)?.as_str())?;
    Ok(shown)
}

/// The numbers of a run's options, in the order of the table.
fn shown_options(alloc: Global, options: RunOptions) -> Result<String, AllocError> {
    let bounds = shown_bounds(alloc, options.bounds)?;
    let Buffers { size, max } = options.buffers;
    let stamps = options.stamps;
    let (tick, tsc, frequency) = (stamps.tick, stamps.tsc, options.frequency);
    let (cpus, migrate, pid) = (stamps.cpus, stamps.migrate, options.pid);
    let Wall { secs, micros } = options.wall;
    format!(in alloc;
        "{bounds} {size} {max} {tick} {tsc} {frequency} {cpus} {migrate} {pid} {secs}.{micros}"
    )
}

#[test]
fn command_lines_say_what_the_rows_say(rt: HostRuntime) -> Result<(), Fail> {
    let alloc = rt.alloc();
    let mut rows = 0u32;
    for row in SAID.lines() {
        if let Some((line, said)) = row.split_once(" => ") {
            let words = words_of(alloc, line)?;
            check_same_text(&rt, shown(alloc, &words)?.as_str(), said);
            rows = rows.wrapping_add(1);
        }
    }
    check_same(&rt, &rows, &154);
    Ok(())
}
