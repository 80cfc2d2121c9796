//! `import`.
use crate::cases::{CASE, Case, check_case};
use crate::traces::{ENTERED, LEFT};
use std::alloc::Global;
use std::test::Fail;
use test_helpers::trace_parts::{
    CPU, CPU_AT_1, CPU_AT_2, ENTRY, EXIT, EXIT_AFTER_1, EXIT_AFTER_2, EXTENTS_72, EXTENTS_80,
    EXTENTS_96, EXTENTS_112, HEADER, HEADER_OF_5, ONE_CALL, ONE_CALL_WITHOUT_PROCESS, PREAMBLE,
    PREAMBLE_OF_2, THREAD_1, WALL_0, file_of_blocks,
};

/// A header of version 4, which is otherwise that of the other traces.
const HEADER_OF_4: &[u8] =
    b"\x04\0\x01\0\x03\0\0\0\0\0\0\0\0\0\0\0\0\x40\0\0\0\0\0\0\0\0\0\0\0\0\0\0";

/// The same of version 6.
const HEADER_OF_6: &[u8] =
    b"\x06\0\x01\0\x03\0\0\0\0\0\0\0\0\0\0\0\0\x40\0\0\0\0\0\0\0\0\0\0\0\0\0\0";

/// Process 0.
const PROCESS_0: &[u8] = b"\x13\0\0\0\0\0\0\0\0\0\0\0\0\0\0\0";

/// Extents of no bytes, of 48, of 88 and of 101.
const EXTENTS_0: &[u8] = b"\x0F\0\0\0\0\0\0\0\0\0\0\0\0\0\0\0";

const EXTENTS_88: &[u8] = b"\x0F\x58\0\0\0\0\0\0\0\0\0\0\0\0\0\0";

const EXTENTS_48: &[u8] = b"\x0F\x30\0\0\0\0\0\0\0\0\0\0\0\0\0\0";

const EXTENTS_101: &[u8] = b"\x0F\x65\0\0\0\0\0\0\0\0\0\0\0\0\0\0";

/// A custom event of 5 bytes, 3 cycles on, in version 5. Its fillers aren't 0.
const CUSTOM: &[u8] = b"\x0B\x05\0\0\0\x03\0\0\0\xAA\xAA\xAA\xAA\xAA\xAA\xAA\x10\0\0\0\0";

/// A typed event of 5 bytes, 3 cycles on, of type 7.
const TYPED: &[u8] = b"\x11\x05\0\0\0\x03\0\0\0\x07\0\xAA\xAA\xAA\xAA\xAA\x10\0\0\0\0";

/// A custom event of 5 bytes in version 4: a counter of 3, and CPU 9. It moves no counter.
const CUSTOM_OF_4: &[u8] = b"\x0B\x05\0\0\0\x03\0\0\0\0\0\0\0\x09\0\0\x10\0\0\0\0";

/// An exit of function 1, 5 cycles on.
const EXIT_AFTER_5: &[u8] = b"\x12\0\0\0\x05\0\0\0";

/// A header of a basic log, whose flags have more bits.
const BASIC_HEADER: &[u8] =
    b"\x03\0\0\0\xF3\x01\0\0\x09\0\0\0\0\0\0\0\0\x40\0\0\0\0\0\0\0\0\0\0\0\0\0\0";

/// The same of version 1.
const BASIC_HEADER_OF_1: &[u8] =
    b"\x01\0\0\0\xF3\x01\0\0\x09\0\0\0\0\0\0\0\0\x40\0\0\0\0\0\0\0\0\0\0\0\0\0\0";

/// The header of its trace: the frequency 9, and no size of buffers.
const HEADER_OF_BASIC: &[u8] =
    b"\x03\0\x01\0\x03\0\0\0\x09\0\0\0\0\0\0\0\0\0\0\0\0\0\0\0\0\0\0\0\0\0\0\0";

/// Records of thread 1 and process 1: an entry of function 1 on CPU 0 at counter 0 that logs an
/// argument, the argument 77, and an exit at 2.
const BASIC_ENTRY: &[u8] =
    b"\0\0\0\x03\x01\0\0\0\0\0\0\0\0\0\0\0\x01\0\0\0\x01\0\0\0\xEE\xEE\xEE\xEE\xEE\xEE\xEE\xEE";

const BASIC_ARGUMENT: &[u8] =
    b"\x01\0\xBB\xBB\x01\0\0\0\x01\0\0\0\x01\0\0\0\x4D\0\0\0\0\0\0\0\xEE\xEE\xEE\xEE\xEE\xEE\xEE\xEE";

const BASIC_EXIT: &[u8] =
    b"\0\0\0\x01\x01\0\0\0\x02\0\0\0\0\0\0\0\x01\0\0\0\x01\0\0\0\0\0\0\0\0\0\0\0";

/// An entry of function 1 that logs its argument, and the arguments 77 and 0.
const ENTRY_WITH_ARGUMENT: &[u8] = b"\x16\0\0\0\0\0\0\0";

const ARGUMENT_77: &[u8] = b"\x0D\x4D\0\0\0\0\0\0\0\0\0\0\0\0\0\0";

const ARGUMENT_0: &[u8] = b"\x0D\0\0\0\0\0\0\0\0\0\0\0\0\0\0\0";

/// Records of a basic log: thread 1 enters function 1 at 100; thread 2 enters function 9 at 1; thread 1
/// enters function 3 at 50 and leaves it at 60; thread 2 leaves function 9 at 2; thread 1 leaves
/// function 1 at 200.
const COUNTER_FALLS: [&[u8]; 6] = [
    b"\0\0\0\0\x01\0\0\0\x64\0\0\0\0\0\0\0\x01\0\0\0\x01\0\0\0\0\0\0\0\0\0\0\0",
    b"\0\0\0\0\x09\0\0\0\x01\0\0\0\0\0\0\0\x02\0\0\0\x01\0\0\0\0\0\0\0\0\0\0\0",
    b"\0\0\0\0\x03\0\0\0\x32\0\0\0\0\0\0\0\x01\0\0\0\x01\0\0\0\0\0\0\0\0\0\0\0",
    b"\0\0\0\x01\x03\0\0\0\x3C\0\0\0\0\0\0\0\x01\0\0\0\x01\0\0\0\0\0\0\0\0\0\0\0",
    b"\0\0\0\x01\x09\0\0\0\x02\0\0\0\0\0\0\0\x02\0\0\0\x01\0\0\0\0\0\0\0\0\0\0\0",
    b"\0\0\0\x01\x01\0\0\0\xC8\0\0\0\0\0\0\0\x01\0\0\0\x01\0\0\0\0\0\0\0\0\0\0\0",
];

/// Records of a basic log: thread 1 enters function 1 at 100; thread 2 enters function 2 at 100; and
/// the first record again.
const RECORDED_AGAIN: [&[u8]; 3] = [
    b"\0\0\0\0\x01\0\0\0\x64\0\0\0\0\0\0\0\x01\0\0\0\x01\0\0\0\0\0\0\0\0\0\0\0",
    b"\0\0\0\0\x02\0\0\0\x64\0\0\0\0\0\0\0\x02\0\0\0\x01\0\0\0\0\0\0\0\0\0\0\0",
    b"\0\0\0\0\x01\0\0\0\x64\0\0\0\0\0\0\0\x01\0\0\0\x01\0\0\0\0\0\0\0\0\0\0\0",
];

/// Records of thread 1 in a basic log: process 1 enters function 1 at 0, process 2 enters it at 2, and
/// process 1 leaves it at 4 and at 5. Between the last two, thread 2 enters function 1 at 0.
const TWO_PROCESSES: [&[u8]; 5] = [
    b"\0\0\0\0\x01\0\0\0\0\0\0\0\0\0\0\0\x01\0\0\0\x01\0\0\0\0\0\0\0\0\0\0\0",
    b"\0\0\0\0\x01\0\0\0\x02\0\0\0\0\0\0\0\x01\0\0\0\x02\0\0\0\0\0\0\0\0\0\0\0",
    b"\0\0\0\x01\x01\0\0\0\x04\0\0\0\0\0\0\0\x01\0\0\0\x01\0\0\0\0\0\0\0\0\0\0\0",
    b"\0\0\0\0\x01\0\0\0\0\0\0\0\0\0\0\0\x02\0\0\0\x01\0\0\0\0\0\0\0\0\0\0\0",
    b"\0\0\0\x01\x01\0\0\0\x05\0\0\0\0\0\0\0\x01\0\0\0\x01\0\0\0\0\0\0\0\0\0\0\0",
];

/// CPU 0 at counter 100, and at counter 4.
const CPU_AT_100: &[u8] = b"\x05\0\0\x64\0\0\0\0\0\0\0\0\0\0\0\0";

const CPU_AT_4: &[u8] = b"\x05\0\0\x04\0\0\0\0\0\0\0\0\0\0\0\0";

/// The counter 50, after a higher one.
const COUNTER_50: &[u8] = b"\x07\x32\0\0\0\0\0\0\0\0\0\0\0\0\0\0";

/// An entry of function 3 and its exit 10 cycles on; an exit of function 1, 140 cycles on.
const CALL_OF_3: &[u8] = b"\x30\0\0\0\0\0\0\0\x32\0\0\0\x0A\0\0\0";

const EXIT_AFTER_140: &[u8] = b"\x12\0\0\0\x8C\0\0\0";

/// An entry of function 9 and its exit, 1 cycle on.
const CALL_OF_9: &[u8] = b"\x90\0\0\0\0\0\0\0\x92\0\0\0\x01\0\0\0";

/// An entry of function 2.
const ENTRY_OF_2: &[u8] = b"\x20\0\0\0\0\0\0\0";

/// Process 2.
const PROCESS_2: &[u8] = b"\x13\x02\0\0\0\0\0\0\0\0\0\0\0\0\0\0";

/// What is printed after each number.
const FACTS: [&str; 14] = [
    "blocks",
    "threads",
    "events",
    "entries with arguments",
    "custom events left out",
    "typed events left out",
    "doubled blocks left out",
    "empty blocks left out",
    "first counter",
    "last counter",
    "threads whose counter goes back",
    "arguments without an entry left out",
    "cut records left out",
    "cycles a second",
];

/// The parts of a file, in groups.
type File = &'static [&'static [&'static [u8]]];

/// A log, the numbers that are printed, and the trace.
type Import = (File, &'static str, File);

/// The trace of one call, which takes 5 cycles.
const FIVE_CYCLES: File = &[&[HEADER], &[EXTENTS_80, PREAMBLE, CPU, ENTRY, EXIT_AFTER_5]];

/// A block of thread 2 with the entry of function 1 at counter 0.
const ENTERED_BY_2: &[&[u8]] = &[EXTENTS_72, PREAMBLE_OF_2, CPU, ENTRY];

/// Logs of the Flight Data Recorder mode, and what is made of them.
const IMPORTS: [Import; 11] = [
    // A trace is imported as itself.
    (&[&ONE_CALL], "1 1 2 0 0 0 0 0 0 2 0 0 0 0", &[&ONE_CALL]),
    // Without a process it is 0.
    (
        &[&ONE_CALL_WITHOUT_PROCESS],
        "1 1 2 0 0 0 0 0 0 2 0 0 0 0",
        &[
            &[HEADER, EXTENTS_80, THREAD_1, WALL_0, PROCESS_0],
            &[CPU, ENTRY, EXIT_AFTER_2],
        ],
    ),
    // Events of the program are passed over, and their deltas count.
    (
        &[
            &[HEADER_OF_5],
            &[EXTENTS_101, PREAMBLE, CPU, ENTRY, CUSTOM, EXIT_AFTER_2],
        ],
        "1 1 2 0 1 0 0 0 0 5 0 0 0 0",
        FIVE_CYCLES,
    ),
    (
        &[
            &[HEADER_OF_5],
            &[EXTENTS_101, PREAMBLE, CPU, ENTRY, TYPED, EXIT_AFTER_2],
        ],
        "1 1 2 0 0 1 0 0 0 5 0 0 0 0",
        FIVE_CYCLES,
    ),
    (
        &[
            &[HEADER_OF_4, EXTENTS_101, PREAMBLE, CPU, ENTRY],
            &[CUSTOM_OF_4, EXIT_AFTER_2],
        ],
        "1 1 2 0 1 0 0 0 0 2 0 0 0 0",
        &[&ONE_CALL],
    ),
    // Blocks of a thread come in the order of time, and threads ascend. A block counts once, and one without events not
    // at all.
    (
        &[
            &[HEADER],
            ENTERED_BY_2,
            LEFT,
            &[EXTENTS_48, PREAMBLE],
            ENTERED,
            LEFT,
        ],
        "3 2 3 0 0 0 1 1 0 2 0 0 0 0",
        &[&[HEADER], ENTERED, LEFT, ENTERED_BY_2],
    ),
    // Blocks of no bytes are empty, and not doubled.
    (
        &[
            &[HEADER_OF_5, EXTENTS_0, EXTENTS_0, EXTENTS_80, PREAMBLE, CPU],
            &[ENTRY, EXIT_AFTER_5],
        ],
        "1 1 2 0 0 0 0 2 0 5 0 0 0 0",
        FIVE_CYCLES,
    ),
    // An entry that doesn't say that it logs an argument has the one directly behind it.
    (
        &[
            &[HEADER_OF_5, EXTENTS_96, PREAMBLE, CPU, ENTRY, ARGUMENT_77],
            &[EXIT_AFTER_2],
        ],
        "1 1 2 1 0 0 0 0 0 2 0 0 0 0",
        &[
            &[HEADER, EXTENTS_96, PREAMBLE, CPU, ENTRY_WITH_ARGUMENT],
            &[ARGUMENT_77, EXIT_AFTER_2],
        ],
    ),
    // A record is cut behind a typed event, and the typed event itself; an entry directly before it is
    // taken.
    (
        &[
            &[HEADER_OF_5, EXTENTS_96, PREAMBLE, CPU, ENTRY, TYPED],
            &[b"\x12\0\0"],
        ],
        "1 1 1 0 0 1 0 0 0 0 0 0 1 0",
        &[&[HEADER, EXTENTS_72, PREAMBLE, CPU, ENTRY]],
    ),
    (
        &[
            &[HEADER_OF_5, EXTENTS_88, PREAMBLE, CPU, ENTRY_WITH_ARGUMENT],
            &[b"\x11\x05\0\0\0\x03\0\0\0\x07\0\0\0\0\0\0"],
        ],
        "1 1 1 1 0 0 0 0 0 0 0 0 1 0",
        &[
            &[HEADER, EXTENTS_88, PREAMBLE, CPU, ENTRY_WITH_ARGUMENT],
            &[ARGUMENT_0],
        ],
    ),
    // No block.
    (
        &[&[HEADER_OF_5]],
        "0 0 0 0 0 0 0 0 - - 0 0 0 0",
        &[&[HEADER]],
    ),
];

/// Basic logs, and what is made of them.
const BASIC_IMPORTS: [Import; 6] = [
    (
        &[&[BASIC_HEADER, BASIC_ENTRY, BASIC_ARGUMENT, BASIC_EXIT]],
        "1 1 2 1 0 0 0 0 0 2 0 0 0 9",
        &[
            &[HEADER_OF_BASIC],
            &[EXTENTS_96, PREAMBLE, CPU, ENTRY_WITH_ARGUMENT],
            &[ARGUMENT_77, EXIT_AFTER_2],
        ],
    ),
    // The events of a thread of a basic log keep its order, also if the counter falls. None is left
    // out, even if an equal one stands before it. A block ends where the process changes, and not where
    // another thread records.
    (
        &[&[BASIC_HEADER], &COUNTER_FALLS],
        "2 2 6 0 0 0 0 0 1 200 1 0 0 9",
        &[
            &[HEADER_OF_BASIC, EXTENTS_112, PREAMBLE, CPU_AT_100, ENTRY],
            &[COUNTER_50, CALL_OF_3, EXIT_AFTER_140],
            &[EXTENTS_80, PREAMBLE_OF_2, CPU_AT_1, CALL_OF_9],
        ],
    ),
    (
        &[&[BASIC_HEADER], &RECORDED_AGAIN],
        "2 2 3 0 0 0 0 0 100 100 0 0 0 9",
        &[
            &[
                HEADER_OF_BASIC,
                EXTENTS_80,
                PREAMBLE,
                CPU_AT_100,
                ENTRY,
                ENTRY,
            ],
            &[EXTENTS_72, PREAMBLE_OF_2, CPU_AT_100, ENTRY_OF_2],
        ],
    ),
    (
        &[&[BASIC_HEADER], &TWO_PROCESSES],
        "4 2 5 0 0 0 0 0 0 5 0 0 0 9",
        &[
            &[HEADER_OF_BASIC, EXTENTS_72, PREAMBLE, CPU, ENTRY],
            &[EXTENTS_72, THREAD_1, WALL_0, PROCESS_2, CPU_AT_2, ENTRY],
            &[EXTENTS_80, PREAMBLE, CPU_AT_4, EXIT, EXIT_AFTER_1],
            ENTERED_BY_2,
        ],
    ),
    // Versions 1 and 2 of basic logs name no process.
    (
        &[&[BASIC_HEADER_OF_1, BASIC_ENTRY, BASIC_ARGUMENT, BASIC_EXIT]],
        "1 1 2 1 0 0 0 0 0 2 0 0 0 9",
        &[
            &[HEADER_OF_BASIC, EXTENTS_96, THREAD_1, WALL_0, PROCESS_0],
            &[CPU, ENTRY_WITH_ARGUMENT, ARGUMENT_77, EXIT_AFTER_2],
        ],
    ),
    // Only the argument directly behind its entry belongs to it.
    (
        &[
            &[BASIC_HEADER, BASIC_ARGUMENT, BASIC_ENTRY, BASIC_ARGUMENT],
            &[BASIC_ARGUMENT, BASIC_EXIT, BASIC_ARGUMENT],
        ],
        "1 1 2 1 0 0 0 0 0 2 0 3 0 9",
        &[
            &[HEADER_OF_BASIC],
            &[EXTENTS_96, PREAMBLE, CPU, ENTRY_WITH_ARGUMENT],
            &[ARGUMENT_77, EXIT_AFTER_2],
        ],
    ),
];

/// What is printed: the numbers, each with what it counts.
fn facts_text(alloc: Global, numbers: &str) -> Result<String, Fail> {
    let mut text = String::new(alloc);
    for (number, what) in numbers.split_whitespace().zip(FACTS.iter()) {
        text.push_str(&format!(in alloc; "{number:>20} {what}\n")?)?;
    }
    Ok(text)
}

#[test]
fn a_log_is_a_trace_of_its_events(rt: HostRuntime) -> Result<(), Fail> {
    let alloc = rt.alloc();
    for (log, numbers, trace) in &IMPORTS {
        let text = facts_text(alloc, numbers)?;
        let log = file_of_blocks(alloc, log)?;
        let trace = file_of_blocks(alloc, trace)?;
        let case = Case {
            files: &[("l", &[&log])],
            line: "import l t",
            out: &[text.as_str()],
            left: &[("t", 0, &[&trace], 0)],
            ..CASE
        };
        check_case(&rt, &case)?;
    }
    Ok(())
}

#[test]
fn a_basic_log_is_a_trace_of_its_events(rt: HostRuntime) -> Result<(), Fail> {
    let alloc = rt.alloc();
    for (log, numbers, trace) in &BASIC_IMPORTS {
        let text = facts_text(alloc, numbers)?;
        let log = file_of_blocks(alloc, log)?;
        let trace = file_of_blocks(alloc, trace)?;
        let case = Case {
            files: &[("l", &[&log])],
            line: "import l t",
            out: &[text.as_str()],
            left: &[("t", 0, &[&trace], 0)],
            ..CASE
        };
        check_case(&rt, &case)?;
    }
    Ok(())
}

/// The parts of a log, and the line on err.
type Refusal = (&'static [&'static [u8]], &'static str);

/// Logs that are refused.
const REFUSED: [Refusal; 14] = [
    (&[], "xray: l: log Short 0\n"),
    (&[HEADER_OF_6], "xray: l: log Version 6\n"),
    (&[b"\x04\0\0\0", &[0; 28]], "xray: l: log Version 4\n"),
    (&[b"\x01\0\x01\0", &[0; 28]], "xray: l: log Version 1\n"),
    (&[b"\x05\0\x02\0", &[0; 28]], "xray: l: log Form 2\n"),
    (&[HEADER_OF_5, CPU], "xray: l: log Order 32\n"),
    (&[HEADER_OF_5, TYPED], "xray: l: log Order 32\n"),
    (&[HEADER_OF_4, TYPED], "xray: l: log Bad 32 Kind 8\n"),
    (
        &[
            HEADER_OF_5,
            EXTENTS_80,
            PREAMBLE,
            CUSTOM,
            b"\0\0\0\0\0\0\0\0\0\0\0",
        ],
        "xray: l: log NoBase 96\n",
    ),
    (
        &[HEADER_OF_5, EXTENTS_80, PREAMBLE, CPU, CUSTOM],
        "xray: l: log Extents 112\n",
    ),
    (
        &[
            HEADER_OF_5,
            EXTENTS_88,
            PREAMBLE,
            CPU,
            EXIT_AFTER_2,
            ARGUMENT_77,
        ],
        "xray: l: log Order 120\n",
    ),
    (
        &[HEADER_OF_5, b"\x0F\x2F", &[0; 14], &[0; 47]],
        "xray: l: log Extents 32\n",
    ),
    (
        &[BASIC_HEADER, b"\x02\0", &[0; 30]],
        "xray: l: log Tag 32 2\n",
    ),
    (
        &[BASIC_HEADER, b"\0\0\0\0\0\0\0\x10", &[0; 24]],
        "xray: l: log Function 32 268435456\n",
    ),
];

#[test]
fn what_is_no_log_is_refused(rt: HostRuntime) -> Result<(), Fail> {
    for (log, err) in &REFUSED {
        let case = Case {
            files: &[("l", *log)],
            line: "import l t",
            status: 2,
            err,
            ..CASE
        };
        check_case(&rt, &case)?;
    }
    Ok(())
}
