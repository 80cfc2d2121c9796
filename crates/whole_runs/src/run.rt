//! `run`: buffers for all segments, for some, and for one of each thread; and a held thread.
use crate::cases::{ASSEMBLE, CASE, Case, check_cases};
use crate::states::{CALL_STATE, SECOND_CALL_STATE};
use crate::texts::{CALL, FIBONACCI, HELD, TRACED};
use std::test::Fail;
use test_helpers::trace_parts::{
    CPU_AT_1, EXIT_AFTER_1, EXIT_OF_2, EXTENTS_80, FORMAT, HEADER, PREAMBLE,
};

/// How each of four threads of the recursion ends, after its number.
const FIBONACCI_STATE: &str = " returned instructions 213132 passings 43782\n\
    rax=1a6d rcx=0 rdx=0 rbx=0 rbp=0 rsi=0 rdi=0 r8=0 r9=0 r11=0 r12=0 r13=0 r14=0 r15=0 zf=1\n\
    output -\nmarks +43782\n";

/// What is printed of these threads.
const FOUR: &[&str] = &[
    "thread 1",
    FIBONACCI_STATE,
    "thread 2",
    FIBONACCI_STATE,
    "thread 3",
    FIBONACCI_STATE,
    "thread 4",
    FIBONACCI_STATE,
];

/// The trace of an exit of function 2 and an exit of function 1.
const EXITS: &[&[u8]] = &[
    HEADER,
    EXTENTS_80,
    PREAMBLE,
    CPU_AT_1,
    EXIT_OF_2,
    EXIT_AFTER_1,
];

/// What is printed of two threads of a call.
const TWO: &[&str] = &[CALL_STATE, "marks +4\n", SECOND_CALL_STATE, "marks +4\n"];

const CASES: [Case; 7] = [
    // Buffers for all segments, and for some.
    Case {
        files: &[("x", &[FIBONACCI]), ("s", &[TRACED])],
        before: ASSEMBLE,
        line: "run i s t a --wall 0 --threads 4",
        out: FOUR,
        left: &[("t", 0, &[HEADER], 1_408_064)],
        ..CASE
    },
    Case {
        files: &[("x", &[FIBONACCI]), ("s", &[TRACED])],
        before: ASSEMBLE,
        line: "run i s t a --wall 0 --threads 4 --buffer-max 64",
        out: FOUR,
        left: &[("t", 0, &[HEADER], 1_014_464)],
        ..CASE
    },
    // Each thread has four segments of one event, in blocks of 88 bytes. There is one spare buffer, or none.
    Case {
        files: &[("x", &[CALL]), ("s", &[TRACED])],
        before: ASSEMBLE,
        line: "run i s t a --wall 0 --threads 2 --buffer-size 88 --cpus 2 --migrate 1 --buffer-max 3",
        out: TWO,
        left: &[("t", 0, &[FORMAT], 280)],
        ..CASE
    },
    Case {
        files: &[("x", &[CALL]), ("s", &[TRACED])],
        before: ASSEMBLE,
        line: "run i s t a --wall 0 --threads 2 --buffer-size 88 --cpus 2 --migrate 1 --buffer-max 2",
        out: TWO,
        left: &[("t", 0, &[FORMAT], 192)],
        ..CASE
    },
    // One thread has two buffers: the older segments are lost.
    Case {
        files: &[("x", &[CALL]), ("s", &[TRACED])],
        before: ASSEMBLE,
        line: "run i s t a --wall 0 --buffer-size 88 --cpus 2 --migrate 1 --buffer-max 2",
        out: &[CALL_STATE, "marks +4\n"],
        left: &[("t", 0, &[FORMAT], 192)],
        ..CASE
    },
    // Sixteen threads have one spare buffer.
    Case {
        files: &[("x", &[CALL]), ("s", &[TRACED])],
        before: &[
            "asm x i",
            "run i s t a --threads 16 --buffer-size 88 --cpus 2 --migrate 1 --buffer-max 17",
        ],
        line: "check i s t a",
        out: &["yes\n"],
        left: &[("t", 0, &[FORMAT], 1512)],
        ..CASE
    },
    // The held thread records an exit of function 2 and an exit of function 1.
    Case {
        files: &[("x", &[CALL]), ("s", &[HELD])],
        before: ASSEMBLE,
        line: "run i s t a --wall 0",
        out: &[CALL_STATE, "marks .2 +2\n"],
        left: &[("t", 0, EXITS, 0)],
        ..CASE
    },
];

#[test]
fn threads_keep_all_segments_or_the_last_ones(rt: HostRuntime) -> Result<(), Fail> {
    check_cases(&rt, &CASES)
}
