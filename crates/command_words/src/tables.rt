//! The one table of options and the one of commands.

use crate::rows::Beside::NeverWith;
use crate::rows::FileRow::{MaybeRead, Numeral, Read, Written};
use crate::rows::{Beside, CommandRow, FileRow, OptionRow, Values};
use fdr_buffer::{LARGEST_SIZE, LEAST_SIZE, MOST_BUFFERS};

/// How many threads there are.
pub(crate) const THREADS: OptionRow = OptionRow {
    name: "threads",
    values: Values::Number { least: 1, most: 16 },
    default: Some(1),
};

/// The most instructions that a thread makes.
pub(crate) const FUEL: OptionRow = OptionRow {
    name: "fuel",
    values: Values::Number {
        least: 0,
        most: 1_000_000_000,
    },
    default: Some(10_000_000),
};

/// The most that `passings` may be.
const MOST_PASSINGS: u64 = 1_048_576;

/// The most passings that a thread makes.
pub(crate) const PASSINGS: OptionRow = OptionRow {
    name: "passings",
    values: Values::Number {
        least: 0,
        most: MOST_PASSINGS,
    },
    default: Some(MOST_PASSINGS),
};

/// The size of a buffer of events in bytes.
pub(crate) const BUFFER_SIZE: OptionRow = OptionRow {
    name: "buffer-size",
    values: Values::Number {
        least: LEAST_SIZE as u64,
        most: LARGEST_SIZE as u64,
    },
    default: Some(16_384),
};

/// How many buffers there are.
pub(crate) const BUFFER_MAX: OptionRow = OptionRow {
    name: "buffer-max",
    values: Values::Number {
        least: 1,
        most: MOST_BUFFERS as u64,
    },
    default: Some(100),
};

/// By how many cycles each instruction advances the counter.
pub(crate) const TICK: OptionRow = OptionRow {
    name: "tick",
    values: Values::Number {
        least: 0,
        most: u64::MAX,
    },
    default: Some(1),
};

/// The counter at the start, in cycles.
pub(crate) const TSC: OptionRow = OptionRow {
    name: "tsc",
    values: Values::Number {
        least: 0,
        most: u64::MAX,
    },
    default: Some(0),
};

/// The frequency of the counter in cycles per second. 0 means that it isn't known.
pub(crate) const FREQUENCY: OptionRow = OptionRow {
    name: "frequency",
    values: Values::Number {
        least: 0,
        most: u64::MAX,
    },
    default: Some(0),
};

/// How many CPUs a thread moves between.
pub(crate) const CPUS: OptionRow = OptionRow {
    name: "cpus",
    values: Values::Number {
        least: 1,
        most: u16::MAX as u64,
    },
    default: Some(1),
};

/// The most that `migrate` may be.
const MOST_STAY: u64 = 1_048_576;

/// How many passings a thread makes before it moves to the next CPU.
pub(crate) const MIGRATE: OptionRow = OptionRow {
    name: "migrate",
    values: Values::Number {
        least: 1,
        most: MOST_STAY,
    },
    default: Some(MOST_STAY),
};

/// The number of the process.
pub(crate) const PID: OptionRow = OptionRow {
    name: "pid",
    values: Values::Number {
        least: 0,
        most: i32::MAX as u64,
    },
    default: Some(1),
};

/// The wall time, in seconds. If it isn't given, it is the time that is passed in.
pub(crate) const WALL: OptionRow = OptionRow {
    name: "wall",
    values: Values::Number {
        least: 0,
        most: u64::MAX,
    },
    default: None,
};

/// The least number of instruction lines with which a function gets sleds.
pub(crate) const THRESHOLD: OptionRow = OptionRow {
    name: "threshold",
    values: Values::Number {
        least: 0,
        most: u32::MAX as u64,
    },
    default: Some(1),
};

/// The version of sled maps with absolute addresses.
const ABSOLUTE_MAP: u64 = 0;

/// The version of sled maps whose addresses count from the fields that hold them.
pub(crate) const RELATIVE_MAP: u64 = 2;

/// The version of the sled map of an assembled image.
pub(crate) const MAP_VERSION: OptionRow = OptionRow {
    name: "map-version",
    values: Values::OneOf(&[ABSOLUTE_MAP, RELATIVE_MAP]),
    default: Some(ABSOLUTE_MAP),
};

/// The column by which the rows of an account are sorted.
pub(crate) const SORT: OptionRow = OptionRow {
    name: "sort",
    values: Values::Listed(&["funcid", "count", "min", "med", "90p", "99p", "max", "sum"]),
    default: Some(0),
};

/// The order in which the rows of an account are sorted.
pub(crate) const SORT_ORDER: OptionRow = OptionRow {
    name: "sortorder",
    values: Values::Listed(&["asc", "desc"]),
    default: Some(0),
};

/// The most rows of an account that are printed. If it isn't given, all are.
pub(crate) const TOP: OptionRow = OptionRow {
    name: "top",
    values: Values::Number {
        least: 0,
        most: u32::MAX as u64,
    },
    default: None,
};

/// The form in which an account is printed.
pub(crate) const ACCOUNT_FORMAT: OptionRow = OptionRow {
    name: "format",
    values: Values::Listed(&["text", "csv"]),
    default: Some(0),
};

/// The function whose calls are printed. If it isn't given, those of all functions are.
pub(crate) const FUNCTION: OptionRow = OptionRow {
    name: "function",
    values: Values::Number {
        least: 0,
        most: u32::MAX as u64,
    },
    default: None,
};

/// The thread whose calls are printed. If it isn't given, those of all threads are.
pub(crate) const THREAD: OptionRow = OptionRow {
    name: "thread",
    values: Values::Number {
        least: 0,
        most: u32::MAX as u64,
    },
    default: None,
};

/// The least duration of the calls that are printed, in cycles.
pub(crate) const LEAST: OptionRow = OptionRow {
    name: "least",
    values: Values::Number {
        least: 0,
        most: u64::MAX,
    },
    default: Some(0),
};

/// The number by which calls are sorted.
pub(crate) const CALL_SORT: OptionRow = OptionRow {
    name: "sort",
    values: Values::Listed(&["end", "call", "start", "duration", "self", "depth"]),
    default: Some(0),
};

/// The form in which stacks are printed.
pub(crate) const STACK_FORMAT: OptionRow = OptionRow {
    name: "format",
    values: Values::Listed(&["human", "flame", "svg"]),
    default: Some(0),
};

/// The form that a trace is converted to.
pub(crate) const CONVERT_FORMAT: OptionRow = OptionRow {
    name: "format",
    values: Values::Listed(&["yaml", "trace-event", "basic"]),
    default: Some(0),
};

/// The form of the trace that is converted.
pub(crate) const INPUT: OptionRow = OptionRow {
    name: "input",
    values: Values::Listed(&["fdr", "basic"]),
    default: Some(0),
};

/// The most nodes of a thread's call trie.
pub(crate) const NODES: OptionRow = OptionRow {
    name: "nodes",
    values: Values::Number {
        least: 1,
        most: 262_144,
    },
    default: Some(4_096),
};

/// The sled map that names the functions of a trace.
pub(crate) const MAP: OptionRow = OptionRow {
    name: "map",
    values: Values::FileName,
    default: None,
};

/// The options of a plain run.
const BOUNDS_OPTIONS: &[OptionRow] = &[THREADS, FUEL, PASSINGS];

/// The options of the commands that run traced threads.
const RUN_OPTIONS: &[OptionRow] = &[
    THREADS,
    FUEL,
    PASSINGS,
    BUFFER_SIZE,
    BUFFER_MAX,
    TICK,
    TSC,
    FREQUENCY,
    CPUS,
    MIGRATE,
    PID,
    WALL,
];

/// The options of a profile.
const PROFILE_OPTIONS: &[OptionRow] = &[
    THREADS,
    FUEL,
    PASSINGS,
    TICK,
    TSC,
    CPUS,
    MIGRATE,
    NODES,
    STACK_FORMAT,
];

/// The places of the commands that report on a trace. An image names the functions of the trace.
const REPORT_FILES: &[FileRow] = &[Read("trace"), MaybeRead("image")];

/// A sled map never names functions beside an image.
const ONE_SOURCE: &[Beside] = &[NeverWith("map", "image")];

/// The number that inputs are drawn from: any of 64 bits.
pub(crate) const SEEDS: Values = Values::Number {
    least: 0,
    most: u64::MAX,
};

/// What a command does.
#[derive(Clone, Copy)]
pub(crate) enum Verb {
    Plain,
    Extract,
    Sim,
    Run,
    Asm,
    Account,
    Stack,
    Convert,
    Dump,
    Check,
    Order,
    Profile,
    Soak,
    Import,
    Map,
    Calls,
}

/// `plain IMAGE`: runs an image on each thread, with its sleds only counted.
const PLAIN: CommandRow = CommandRow {
    word: "plain",
    verb: Verb::Plain,
    files: &[Read("image")],
    options: BOUNDS_OPTIONS,
    beside: &[],
};

/// `extract IMAGE`: prints the sled map of an image.
const EXTRACT: CommandRow = CommandRow {
    word: "extract",
    verb: Verb::Extract,
    files: &[Read("image")],
    options: &[],
    beside: &[],
};

/// `sim IMAGE SCRIPT SCHEDULE TRACE AUDIT`: replays a schedule over an image and a script, and writes the
/// trace and the audit of the run.
const SIM: CommandRow = CommandRow {
    word: "sim",
    verb: Verb::Sim,
    files: &[
        Read("image"),
        Read("script"),
        Read("schedule"),
        Written("trace"),
        Written("audit"),
    ],
    options: RUN_OPTIONS,
    beside: &[],
};

/// `run IMAGE SCRIPT TRACE AUDIT`: runs threads over an image while a script patches it, and writes the trace
/// and the audit of the run.
const RUN: CommandRow = CommandRow {
    word: "run",
    verb: Verb::Run,
    files: &[
        Read("image"),
        Read("script"),
        Written("trace"),
        Written("audit"),
    ],
    options: RUN_OPTIONS,
    beside: &[],
};

/// `asm TEXT IMAGE`: assembles an image.
const ASM: CommandRow = CommandRow {
    word: "asm",
    verb: Verb::Asm,
    files: &[Read("text"), Written("image")],
    options: &[THRESHOLD, MAP_VERSION],
    beside: &[],
};

/// `account TRACE [IMAGE]`: prints how often the functions of a trace were called, and for how
/// long.
const ACCOUNT: CommandRow = CommandRow {
    word: "account",
    verb: Verb::Account,
    files: REPORT_FILES,
    options: &[MAP, SORT, SORT_ORDER, TOP, ACCOUNT_FORMAT],
    beside: ONE_SOURCE,
};

/// `stack TRACE [IMAGE]`: prints how often each stack of a trace occurred, and for how long.
const STACK: CommandRow = CommandRow {
    word: "stack",
    verb: Verb::Stack,
    files: REPORT_FILES,
    options: &[MAP, STACK_FORMAT],
    beside: ONE_SOURCE,
};

/// `convert TRACE [IMAGE]`: prints a trace in another form.
const CONVERT: CommandRow = CommandRow {
    word: "convert",
    verb: Verb::Convert,
    files: REPORT_FILES,
    options: &[MAP, CONVERT_FORMAT, INPUT],
    beside: ONE_SOURCE,
};

/// `fdr-dump TRACE`: prints the records of a trace.
const DUMP: CommandRow = CommandRow {
    word: "fdr-dump",
    verb: Verb::Dump,
    files: &[Read("trace")],
    options: &[],
    beside: &[],
};

/// `check IMAGE SCRIPT TRACE AUDIT`: says whether a trace and an audit can be those of a run of this image and
/// this script.
const CHECK: CommandRow = CommandRow {
    word: "check",
    verb: Verb::Check,
    files: &[Read("image"), Read("script"), Read("trace"), Read("audit")],
    options: &[],
    beside: &[],
};

/// `order IMAGE SCRIPT AUDIT FREE SCHEDULE`: writes the order of a finished run as a schedule, and its script
/// without its waits.
const ORDER: CommandRow = CommandRow {
    word: "order",
    verb: Verb::Order,
    files: &[
        Read("image"),
        Read("script"),
        Read("audit"),
        Written("free"),
        Written("schedule"),
    ],
    options: &[],
    beside: &[],
};

/// `profile IMAGE SCRIPT`: runs threads over an image while a script patches it, and prints how often each stack
/// occurred, and for how long.
const PROFILE: CommandRow = CommandRow {
    word: "profile",
    verb: Verb::Profile,
    files: &[Read("image"), Read("script")],
    options: PROFILE_OPTIONS,
    beside: &[],
};

/// `soak SEED`: replays a schedule over a large image and a script, all drawn from a number, and
/// prints a summary.
const SOAK: CommandRow = CommandRow {
    word: "soak",
    verb: Verb::Soak,
    files: &[Numeral("seed", SEEDS)],
    options: &[],
    beside: &[],
};

/// `import LOG TRACE`: writes a log of LLVM's runtime as a trace, and prints what was taken.
const IMPORT: CommandRow = CommandRow {
    word: "import",
    verb: Verb::Import,
    files: &[Read("log"), Written("trace")],
    options: &[],
    beside: &[],
};

/// `map PROGRAM MAP`: writes the sled map of a compiled program, and prints what it has.
const MAP_PROGRAM: CommandRow = CommandRow {
    word: "map",
    verb: Verb::Map,
    files: &[Read("program"), Written("map")],
    options: &[],
    beside: &[],
};

/// `calls TRACE [IMAGE]`: prints the calls of a trace, one by one.
const CALLS: CommandRow = CommandRow {
    word: "calls",
    verb: Verb::Calls,
    files: REPORT_FILES,
    options: &[
        MAP,
        FUNCTION,
        THREAD,
        LEAST,
        CALL_SORT,
        SORT_ORDER,
        TOP,
        ACCOUNT_FORMAT,
    ],
    beside: ONE_SOURCE,
};

/// All commands.
pub(crate) const COMMANDS: &[CommandRow] = &[
    PLAIN,
    EXTRACT,
    SIM,
    RUN,
    ASM,
    ACCOUNT,
    STACK,
    CONVERT,
    DUMP,
    CHECK,
    ORDER,
    PROFILE,
    SOAK,
    IMPORT,
    MAP_PROGRAM,
    CALLS,
];
