//! `sim`: the trace and the audit of worked rows, byte by byte.
use crate::cases::{desk_of, joined};
use crate::checks::check_same_at;
use crate::runs::{assert_left, assert_no_fault, run_line};
use crate::states::{
    CALL_STATE, LARGEST_STATE, ODD_EXIT_STATE, SECOND_CALL_STATE, STATE, TAIL_JUMP_STATE,
    TWO_CALLS_STATE,
};
use crate::texts::{
    ARGUMENT, BOTH, CALL, LIVE, ODD_EXIT, STRAIGHT_LINE, TAIL_JUMP, TRACED, TWO_CALLS,
};
use std::process::Abort;
use std::sync::Wait;
use std::test::Fail;
use std::thread::Threads;
use test_helpers::trace_parts::{
    BUFFERS_OF_88, BUFFERS_OF_95, BUFFERS_OF_96, BUFFERS_OF_16384, CPU, CPU_1_AT_2, CPU_AT_1,
    CPU_AT_2, ENTRY, ENTRY_OF_2_AFTER_1, EXIT, EXIT_AFTER_1, EXIT_AFTER_2, EXIT_OF_2, EXTENTS_72,
    EXTENTS_80, EXTENTS_88, EXTENTS_96, FORMAT, HEADER, PREAMBLE, PREAMBLE_OF_2, PROCESS_1,
    THREAD_1, file, file_of_blocks,
};

/// What `sim` is asked for, and what it leaves. The traces were worked by hand, record by record.
#[derive(Clone, Copy)]
struct Row {
    /// The assembler text of the image.
    text: &'static [u8],
    words: &'static str,
    script: &'static [u8],
    schedule: &'static [u8],
    /// The parts of the trace's header.
    header: &'static [&'static [u8]],
    /// Its blocks, each with its parts.
    blocks: &'static [&'static [&'static [u8]]],
    /// The parts of what is printed.
    out: &'static [&'static str],
    /// The line of the settings in the audit.
    setup: &'static str,
    /// The lines of the audit after that.
    threads: &'static str,
}

/// The settings in an audit unless the words have others.
const USUAL: &str =
    "threads=1 buffer-size=16384 buffer-max=100 fuel=10000000 passings=1048576 tick=1 tsc=0 cpus=1 \
    migrate=1048576 pid=1 wall=0.0 frequency=0\n";

/// A block with the entry of function 1 at counter 0.
pub const ENTERED: &[&[u8]] = &[EXTENTS_72, PREAMBLE, CPU, ENTRY];

/// One with its exit at counter 2.
pub const LEFT: &[&[u8]] = &[EXTENTS_72, PREAMBLE, CPU_AT_2, EXIT];

/// The same of thread 2, on CPU 1.
const LEFT_BY_2: &[&[u8]] = &[EXTENTS_72, PREAMBLE_OF_2, CPU_1_AT_2, EXIT];

/// One with the entry of function 1, and the entry and the exit of function 2.
const ALL_BUT_LAST: &[&[u8]] = &[
    EXTENTS_88,
    PREAMBLE,
    CPU,
    ENTRY,
    ENTRY_OF_2_AFTER_1,
    EXIT_OF_2,
];

/// One with thread 2's exit of function 2 at counter 1.
const LEFT_F_BY_2: &[&[u8]] = &[EXTENTS_72, PREAMBLE_OF_2, CPU_AT_1, EXIT_OF_2];

/// A function that logs its argument is called with 2^64 - 1.
const LARGEST: &[u8] =
    b"base 0x1000\nentry main\nfn main never\nmov ecx, 1\nsub rdi, rcx\nsub rdi, rcx\ncall f\nret\n\
    fn f args\nret\n";

/// An entry of function 1 at the first counter of a buffer, with an argument that follows.
const ENTRY_ARGS: &[u8] = b"\x16\0\0\0\0\0\0\0";

/// The number of a thread, as the argument of its entry function.
const NUMBER_1: &[u8] = b"\x0D\x01\0\0\0\0\0\0\0\0\0\0\0\0\0\0";

/// The row of a call that is recorded, with a wall time of 0. The other rows say how they differ.
const CALLED: Row = Row {
    text: STRAIGHT_LINE,
    words: "sim i s c t a --wall 0",
    script: TRACED,
    schedule: b"",
    header: &[HEADER],
    blocks: &[&[EXTENTS_80, PREAMBLE, CPU, ENTRY, EXIT_AFTER_2]],
    setup: USUAL,
    out: &[STATE, "marks +2\n"],
    threads: "thread 1 returned passings 2 recorded 2 segments 1 first 0\n\
        marks +2\n\
        recycled 0\n",
};

/// The row of a call of which nothing is recorded.
const UNRECORDED: Row = Row {
    blocks: &[],
    out: &[STATE, "marks .2\n"],
    threads: "thread 1 returned passings 2 recorded 0 segments 0 first 0\n\
        marks .2\n\
        recycled 0\n",
    ..CALLED
};

/// The row of two calls whose events are in two segments, with the smallest buffers.
const SPLIT: Row = Row {
    text: CALL,
    words: "sim i s c t a --wall 0 --buffer-size 88",
    header: &[FORMAT, BUFFERS_OF_88],
    blocks: &[ALL_BUT_LAST, LEFT],
    setup: "threads=1 buffer-size=88 buffer-max=100 fuel=10000000 passings=1048576 tick=1 tsc=0 cpus=1 \
            migrate=1048576 pid=1 wall=0.0 frequency=0\n",
    out: &[CALL_STATE, "marks +4\n"],
    threads: "thread 1 returned passings 4 recorded 4 segments 2 first 0\n\
        marks +4\n\
        recycled 0\n",
    ..CALLED
};

/// The row of two threads that call a function, and lose the oldest segments of each other. A
/// segment has one event, since each passing is on another CPU than the one before.
const LOSING: Row = Row {
    text: CALL,
    words: "sim i s c t a --wall 0 --threads 2 --buffer-size 88 --cpus 2 --migrate 1 --buffer-max 3",
    header: &[FORMAT, BUFFERS_OF_88],
    blocks: &[LEFT, LEFT_F_BY_2, LEFT_BY_2],
    setup: "threads=2 buffer-size=88 buffer-max=3 fuel=10000000 passings=1048576 tick=1 tsc=0 cpus=2 \
            migrate=1 pid=1 wall=0.0 frequency=0\n",
    out: &[CALL_STATE, "marks +4\n", SECOND_CALL_STATE, "marks +4\n"],
    threads: "thread 1 returned passings 4 recorded 4 segments 4 first 3\n\
        marks +4\n\
        thread 2 returned passings 4 recorded 4 segments 4 first 2\n\
        marks +4\n\
        recycled 5\n",
    ..CALLED
};

const ROWS: [Row; 10] = [
    // A call is recorded.
    CALLED,
    // Nothing is recorded without patching.
    Row {
        script: b"go",
        ..UNRECORDED
    },
    // A passing that has begun is recorded, even if its sled is unpatched meanwhile.
    Row {
        script: b"patch\nset_handler\ninit\ngo\nunpatch",
        schedule: b"t 1 1\np 2",
        blocks: &[ENTERED],
        out: &[STATE, "marks +1 .1\n"],
        threads: "thread 1 returned passings 2 recorded 1 segments 1 first 0\n\
            marks +1 .1\n\
            recycled 0\n",
        ..CALLED
    },
    // A sled is unpatched until its head is stored.
    Row {
        script: LIVE,
        schedule: b"p 3\nt 1 1",
        ..UNRECORDED
    },
    // An exit is recorded without its entry.
    Row {
        script: LIVE,
        schedule: b"p 3\nt 1 1\np 5",
        blocks: &[LEFT],
        out: &[STATE, "marks .1 +1\n"],
        threads: "thread 1 returned passings 2 recorded 1 segments 1 first 0\n\
            marks .1 +1\n\
            recycled 0\n",
        ..CALLED
    },
    // Nothing is recorded without a handler.
    Row {
        script: b"patch\ninit\ngo",
        out: &[STATE, "marks n2\n"],
        threads: "thread 1 returned passings 2 recorded 0 segments 0 first 0\n\
            marks n2\n\
            recycled 0\n",
        ..UNRECORDED
    },
    // Nothing is recorded in a log that is finalized.
    Row {
        script: b"patch\nset_handler\ninit\nfinalize\ngo",
        out: &[STATE, "marks f2\n"],
        threads: "thread 1 returned passings 2 recorded 0 segments 0 first 0\n\
            marks f2\n\
            recycled 0\n",
        ..UNRECORDED
    },
    // A delta has 32 bits.
    Row {
        text: ODD_EXIT,
        out: &[ODD_EXIT_STATE, "marks +2\n"],
        words: "sim i s c t a --wall 0 --tick 4294967295",
        blocks: &[&[
            EXTENTS_80,
            PREAMBLE,
            CPU,
            ENTRY,
            b"\x12\0\0\0\xFF\xFF\xFF\xFF",
        ]],
        setup: "threads=1 buffer-size=16384 buffer-max=100 fuel=10000000 passings=1048576 tick=4294967295 tsc=0 \
            cpus=1 migrate=1048576 pid=1 wall=0.0 frequency=0\n",
        ..CALLED
    },
    // A greater advance of the counter gets a TSCWrap record.
    Row {
        text: ODD_EXIT,
        out: &[ODD_EXIT_STATE, "marks +2\n"],
        words: "sim i s c t a --wall 0 --tick=4294967296",
        blocks: &[&[
            EXTENTS_96,
            PREAMBLE,
            CPU,
            ENTRY,
            b"\x07\0\0\0\0\x01\0\0\0\0\0\0\0\0\0\0",
            EXIT,
        ]],
        setup: "threads=1 buffer-size=16384 buffer-max=100 fuel=10000000 passings=1048576 tick=4294967296 tsc=0 \
            cpus=1 migrate=1048576 pid=1 wall=0.0 frequency=0\n",
        ..CALLED
    },
    // A counter that wraps gets a TSCWrap record.
    Row {
        text: ODD_EXIT,
        out: &[ODD_EXIT_STATE, "marks +2\n"],
        words: "sim i s c t a --wall 0 --tsc 18446744073709551615",
        blocks: &[&[
            EXTENTS_96,
            PREAMBLE,
            b"\x05\0\0\xFF\xFF\xFF\xFF\xFF\xFF\xFF\xFF\0\0\0\0\0",
            ENTRY,
            b"\x07\0\0\0\0\0\0\0\0\0\0\0\0\0\0\0",
            EXIT,
        ]],
        setup: "threads=1 buffer-size=16384 buffer-max=100 fuel=10000000 passings=1048576 tick=1 \
            tsc=18446744073709551615 cpus=1 migrate=1048576 pid=1 wall=0.0 frequency=0\n",
        ..CALLED
    },
];

/// Buffers of several sizes, several threads, other settings, and arguments.
const LATER_ROWS: [Row; 13] = [
    // A buffer of 88 bytes has room for three events on one CPU.
    SPLIT,
    // So has one of 95 bytes.
    Row {
        words: "sim i s c t a --wall 0 --buffer-size=95",
        header: &[FORMAT, BUFFERS_OF_95],
        setup: "threads=1 buffer-size=95 buffer-max=100 fuel=10000000 passings=1048576 tick=1 tsc=0 cpus=1 \
            migrate=1048576 pid=1 wall=0.0 frequency=0\n",
        ..SPLIT
    },
    // One of 96 bytes has room for four.
    Row {
        words: "sim i s c t a --wall 0 --buffer-size 96",
        header: &[FORMAT, BUFFERS_OF_96],
        blocks: &[&[
            EXTENTS_96,
            PREAMBLE,
            CPU,
            ENTRY,
            ENTRY_OF_2_AFTER_1,
            EXIT_OF_2,
            EXIT_AFTER_1,
        ]],
        setup: "threads=1 buffer-size=96 buffer-max=100 fuel=10000000 passings=1048576 tick=1 tsc=0 cpus=1 \
            migrate=1048576 pid=1 wall=0.0 frequency=0\n",
        out: &[CALL_STATE, "marks +4\n"],
        threads: "thread 1 returned passings 4 recorded 4 segments 1 first 0\n\
            marks +4\n\
            recycled 0\n",
        ..SPLIT
    },
    // Threads take each other's oldest segments.
    LOSING,
    // If no buffer is queued, each thread gets its own back.
    Row {
        words: "sim i s c t a --wall 0 --threads 2 --buffer-size 88 --cpus 2 --migrate 1 --buffer-max 2",
        blocks: &[LEFT, LEFT_BY_2],
        setup: "threads=2 buffer-size=88 buffer-max=2 fuel=10000000 passings=1048576 tick=1 tsc=0 cpus=2 \
            migrate=1 pid=1 wall=0.0 frequency=0\n",
        out: &[CALL_STATE, "marks +4\n", SECOND_CALL_STATE, "marks +4\n"],
        threads: "thread 1 returned passings 4 recorded 4 segments 4 first 3\n\
            marks +4\n\
            thread 2 returned passings 4 recorded 4 segments 4 first 3\n\
            marks +4\n\
            recycled 6\n",
        ..LOSING
    },
    // A thread that moves to another CPU says so.
    Row {
        words: "sim i s c t a --wall 0 --cpus 2 --migrate 1",
        blocks: &[&[
            EXTENTS_96,
            PREAMBLE,
            b"\x05\x01\0\0\0\0\0\0\0\0\0\0\0\0\0\0",
            ENTRY,
            CPU_AT_2,
            EXIT,
        ]],
        setup: "threads=1 buffer-size=16384 buffer-max=100 fuel=10000000 passings=1048576 tick=1 tsc=0 cpus=2 \
            migrate=1 pid=1 wall=0.0 frequency=0\n",
        ..CALLED
    },
    // A tail jump is a tail exit.
    Row {
        text: TAIL_JUMP,
        blocks: &[&[
            EXTENTS_96,
            PREAMBLE,
            CPU,
            ENTRY,
            b"\x14\0\0\0\0\0\0\0",
            b"\x20\0\0\0\x01\0\0\0",
            EXIT_OF_2,
        ]],
        out: &[TAIL_JUMP_STATE, "marks +4\n"],
        threads: "thread 1 returned passings 4 recorded 4 segments 1 first 0\n\
            marks +4\n\
            recycled 0\n",
        ..CALLED
    },
    // The numbers of the words are in the header, in the preamble and in the audit.
    Row {
        words: "sim i s c t a --frequency 18446744073709551615 --pid 2147483647 --wall 18446744073709551615",
        header: &[
            b"\x03\0\x01\0\x03\0\0\0\xFF\xFF\xFF\xFF\xFF\xFF\xFF\xFF",
            BUFFERS_OF_16384,
        ],
        blocks: &[&[
            EXTENTS_80,
            THREAD_1,
            b"\x09\xFF\xFF\xFF\xFF\xFF\xFF\xFF\xFF\0\0\0\0\0\0\0",
            b"\x13\xFF\xFF\xFF\x7F\0\0\0\0\0\0\0\0\0\0\0",
            CPU,
            ENTRY,
            EXIT_AFTER_2,
        ]],
        setup: "threads=1 buffer-size=16384 buffer-max=100 fuel=10000000 passings=1048576 tick=1 tsc=0 cpus=1 \
            migrate=1048576 pid=2147483647 wall=18446744073709551615.0 frequency=18446744073709551615\n",
        ..CALLED
    },
    // If the words have no wall time, the trace has the one that was passed in.
    Row {
        words: "sim i s c t a",
        blocks: &[&[
            EXTENTS_80,
            THREAD_1,
            b"\x09\x07\0\0\0\0\0\0\0\x08\0\0\0\0\0\0",
            PROCESS_1,
            CPU,
            ENTRY,
            EXIT_AFTER_2,
        ]],
        setup: "threads=1 buffer-size=16384 buffer-max=100 fuel=10000000 passings=1048576 tick=1 tsc=0 cpus=1 \
            migrate=1048576 pid=1 wall=7.8 frequency=0\n",
        ..CALLED
    },
    // An argument is that of its entry: the number of the thread, one that the caller set, and the largest one.
    Row {
        text: ARGUMENT,
        script: BOTH,
        blocks: &[&[
            EXTENTS_96,
            PREAMBLE,
            CPU,
            ENTRY_ARGS,
            NUMBER_1,
            EXIT_AFTER_1,
        ]],
        out: &[ODD_EXIT_STATE, "marks a1 +1\n"],
        threads: "thread 1 returned passings 2 recorded 2 segments 1 first 0\n\
            marks a1 +1\n\
            recycled 0\n",
        ..CALLED
    },
    Row {
        text: ARGUMENT,
        script: b"patch\nset_arg_handler\ninit\ngo",
        blocks: &[&[EXTENTS_88, PREAMBLE, CPU, ENTRY_ARGS, NUMBER_1]],
        out: &[ODD_EXIT_STATE, "marks a1 n1\n"],
        threads: "thread 1 returned passings 2 recorded 1 segments 1 first 0\n\
            marks a1 n1\n\
            recycled 0\n",
        ..CALLED
    },
    Row {
        text: TWO_CALLS,
        script: BOTH,
        blocks: &[&[
            b"\x0F\x80\0\0\0\0\0\0\0\0\0\0\0\0\0\0",
            PREAMBLE,
            CPU_AT_2,
            ENTRY_ARGS,
            b"\x0D\x14\0\0\0\0\0\0\0\0\0\0\0\0\0\0",
            EXIT_AFTER_1,
            b"\x16\0\0\0\x03\0\0\0",
            b"\x0D\x07\0\0\0\0\0\0\0\0\0\0\0\0\0\0",
            EXIT_AFTER_1,
        ]],
        out: &[TWO_CALLS_STATE, "marks a1 +1 a1 +1\n"],
        threads: "thread 1 returned passings 4 recorded 4 segments 1 first 0\n\
            marks a1 +1 a1 +1\n\
            recycled 0\n",
        ..CALLED
    },
    Row {
        text: LARGEST,
        script: BOTH,
        blocks: &[&[
            EXTENTS_96,
            PREAMBLE,
            b"\x05\0\0\x04\0\0\0\0\0\0\0\0\0\0\0\0",
            ENTRY_ARGS,
            b"\x0D\xFF\xFF\xFF\xFF\xFF\xFF\xFF\xFF\0\0\0\0\0\0\0",
            EXIT,
        ]],
        out: &[LARGEST_STATE, "marks a1 +1\n"],
        threads: "thread 1 returned passings 2 recorded 2 segments 1 first 0\n\
            marks a1 +1\n\
            recycled 0\n",
        ..CALLED
    },
];

/// Checks what is printed of a row, its trace and its audit.
fn check_row<R: Abort + Threads + Wait + Sync + AllocGlobal>(
    rt: &R,
    row: &Row,
) -> Result<(), Fail> {
    let alloc = rt.alloc();
    let mut desk = desk_of(alloc, &[])?;
    desk.put("x", row.text)?;
    desk.put("s", row.script)?;
    desk.put("c", row.schedule)?;
    assert_no_fault(rt, &run_line(rt, "asm x i", &mut desk)?);
    let run = run_line(rt, row.words, &mut desk)?;
    assert_left(rt, &run, 0, &joined(alloc, row.out)?, "", row.words);
    let mut trace = file(alloc, row.header)?;
    trace.extend_from_slice(&file_of_blocks(alloc, row.blocks)?)?;
    check_same_at(rt, &desk.get("t"), &Some(trace.as_slice()), row.words);
    let audit = format!(in alloc; "xray-audit 1\n{}{}", row.setup, row.threads)?;
    check_same_at(rt, &desk.get("a"), &Some(audit.as_bytes()), row.words);
    Ok(())
}

#[test]
fn a_replay_leaves_its_trace_and_its_audit(rt: HostRuntime) -> Result<(), Fail> {
    for row in &ROWS {
        check_row(&rt, row)?;
    }
    for row in &LATER_ROWS {
        check_row(&rt, row)?;
    }
    Ok(())
}
