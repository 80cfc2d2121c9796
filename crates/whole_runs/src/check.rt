//! `check`: the verdicts on what `sim` and `run` leave, and on audits and traces that were changed; and `order`, whose
//! replays leave what the run left.
use crate::cases::{CASE, Case, File, I, check_case};
use crate::texts::{CALL, FIBONACCI, HELD, LIVE, STRAIGHT_LINE, TRACED};
use std::test::Fail;
use test_helpers::trace_parts::{HEADER, ONE_CALL};

/// The words of a check of what `sim` and `run` leave.
const CHECK: &str = "check i s t a";

const YES: &[&str] = &["yes\n"];

/// The first two lines of the audit of a run with the usual options.
const SETUP: &[u8] = b"xray-audit 1\n\
    threads=1 buffer-size=16384 buffer-max=100 fuel=10000000 passings=1048576 tick=1 tsc=0 cpus=1 \
    migrate=1048576 pid=1 wall=0.0 frequency=0\n";

/// Its other lines, if the thread's entry and its exit are recorded.
const RECORDED: &[u8] = b"thread 1 returned passings 2 recorded 2 segments 1 first 0\n\
    marks +2\n\
    recycled 0\n";

/// Its other lines, if the thread passed both sleds before they were patched.
const SKIPPED: &[u8] = b"thread 1 returned passings 2 recorded 0 segments 0 first 0\n\
    marks .2\n\
    recycled 0\n";

/// The audit of the recorded run.
const A: File = ("a", &[SETUP, RECORDED]);

/// A script that patches both sleds before the thread starts.
const S: File = ("s", &[TRACED]);

/// What a run begins with, and the lines that make it: what they leave is accepted.
const ACCEPTED: [(&[File], &[&str]); 8] = [
    (
        &[("x", &[STRAIGHT_LINE]), ("s", &[TRACED]), ("c", &[b""])],
        &["asm x i", "sim i s c t a --wall 0"],
    ),
    (
        &[("x", &[STRAIGHT_LINE]), ("s", &[b"go\n"]), ("c", &[b""])],
        &["asm x i", "sim i s c t a"],
    ),
    // The exit sled is patched once the thread has passed the entry sled.
    (
        &[
            ("x", &[STRAIGHT_LINE]),
            ("s", &[LIVE]),
            ("c", &[b"p 3\nt 1 1\np 5"]),
        ],
        &["asm x i", "sim i s c t a"],
    ),
    // Each thread has four segments of one event. There is one spare buffer, so five are lost.
    (
        &[("x", &[CALL]), ("s", &[TRACED]), ("c", &[b""])],
        &[
            "asm x i",
            "sim i s c t a --threads 2 --buffer-size 88 --cpus 2 --migrate 1 --buffer-max 3",
        ],
    ),
    (
        &[("x", &[CALL]), ("s", &[LIVE])],
        &["asm x i", "run i s t a --threads 16"],
    ),
    (
        &[("x", &[FIBONACCI]), ("s", &[TRACED])],
        &["asm x i", "run i s t a --threads 4"],
    ),
    (
        &[("x", &[FIBONACCI]), ("s", &[TRACED])],
        &["asm x i", "run i s t a --threads 4 --buffer-max 64"],
    ),
    // The thread is held until the sleds are patched.
    (
        &[("x", &[CALL]), ("s", &[HELD])],
        &["asm x i", "run i s t a"],
    ),
];

#[test]
fn what_a_run_leaves_is_accepted(rt: HostRuntime) -> Result<(), Fail> {
    for (files, before) in &ACCEPTED {
        let case = Case {
            files,
            before,
            line: CHECK,
            out: YES,
            ..CASE
        };
        check_case(&rt, &case)?;
    }
    Ok(())
}

/// A trace, the lines of its audit after the first two, and the verdict: the first row that differs.
const JUDGED: [(&[&[u8]], &[u8], &str); 6] = [
    (&ONE_CALL, RECORDED, "yes\n"),
    (
        &ONE_CALL,
        b"thread 1 returned passings 1 recorded 2 segments 1 first 0\nmarks +2\nrecycled 0\n",
        "no ends 1\n",
    ),
    // The script patches the sleds before the thread starts, so none is skipped.
    (&[HEADER], SKIPPED, "no marks 1\n"),
    (
        &ONE_CALL,
        b"thread 1 returned passings 2 recorded 2 segments 2 first 0\nmarks +2\nrecycled 0\n",
        "no counts 1\n",
    ),
    (
        &ONE_CALL,
        b"thread 1 returned passings 2 recorded 2 segments 1 first 0\nmarks +2\nrecycled 1\n",
        "no recycled\n",
    ),
    (&[HEADER], RECORDED, "no trace\n"),
];

/// Files, and how a check of them ends: inputs are taken in their order, and the audit has one thread.
const UNACCEPTED: [(&[File], u8, &str); 5] = [
    (&[("s", &[b"go\ngo\n"])], 3, "xray: i: read fault\n"),
    (&[I, ("s", &[b"go\ngo\n"])], 3, "xray: a: read fault\n"),
    (&[I, A, ("s", &[b"go\ngo\n"])], 2, "xray: s: script Go 2\n"),
    (
        &[I, A, ("s", &[b"hold 2 0\ngo\nrelease 2\n"])],
        2,
        "xray: s: script Thread 1\n",
    ),
    (&[I, A, S], 3, "xray: t: read fault\n"),
];

#[test]
fn the_first_row_that_differs_is_printed(rt: HostRuntime) -> Result<(), Fail> {
    for (trace, audit, verdict) in &JUDGED {
        let case = Case {
            files: &[I, S, ("t", trace), ("a", &[SETUP, audit])],
            line: CHECK,
            out: &[*verdict],
            ..CASE
        };
        check_case(&rt, &case)?;
    }
    for (files, status, err) in &UNACCEPTED {
        let case = Case {
            files,
            line: CHECK,
            status: *status,
            err,
            ..CASE
        };
        check_case(&rt, &case)?;
    }
    Ok(())
}

/// The parts of damaged audits, and the lines on err.
const DAMAGED: [(&[&[u8]], &str); 9] = [
    (&[b""], "xray: a: audit Form 1\n"),
    (&[b"xray-audit 1"], "xray: a: audit Form 1\n"),
    (&[b"xray-audit 1\n"], "xray: a: audit Form 2\n"),
    (
        &[b"xray-audit 1\n", b"threads=1\n"],
        "xray: a: audit Form 2\n",
    ),
    (&[SETUP], "xray: a: audit Form 3\n"),
    (
        &[
            SETUP,
            b"thread 2 returned passings 2 recorded 2 segments 1 first 0\n",
        ],
        "xray: a: audit Form 3\n",
    ),
    (
        &[
            SETUP,
            b"thread 1 returned passings 2 recorded 2 segments 1 first 0\nmarks +1 +1\n",
        ],
        "xray: a: audit Form 4\n",
    ),
    (
        &[
            SETUP,
            b"thread 1 returned passings 2 recorded 2 segments 1 first 0\nmarks +2\nrecycled 0",
        ],
        "xray: a: audit Form 5\n",
    ),
    (&[SETUP, RECORDED, b"\n"], "xray: a: audit Form 6\n"),
];

#[test]
fn a_damaged_audit_is_refused_at_its_first_bad_line(rt: HostRuntime) -> Result<(), Fail> {
    for (audit, err) in &DAMAGED {
        let case = Case {
            files: &[I, S, ("t", &ONE_CALL), ("a", audit)],
            line: CHECK,
            status: 2,
            err,
            ..CASE
        };
        check_case(&rt, &case)?;
    }
    Ok(())
}

/// The words of an order.
const ORDER: &str = "order i s a f o";

/// The lines of a run, of its order and of its replay, with one thread, four and sixteen.
const ONE: &[&str] = &[
    "asm x i",
    "run i s t a --wall 0",
    ORDER,
    "sim i f o u b --wall 0",
];

const FOUR: &[&str] = &[
    "asm x i",
    "run i s t a --wall 0 --threads 4",
    ORDER,
    "sim i f o u b --wall 0 --threads 4",
];

const SIXTEEN: &[&str] = &[
    "asm x i",
    "run i s t a --wall 0 --threads 16",
    ORDER,
    "sim i f o u b --wall 0 --threads 16",
];

/// A text and a script, such lines, and a check. The trace of a replay is the one that the audit of the run means, and
/// its audit means the trace of the run.
const REPLAYED: [(&[File], &[&str], &str); 6] = [
    (
        &[("x", &[STRAIGHT_LINE]), ("s", &[LIVE])],
        ONE,
        "check i s u a",
    ),
    (
        &[("x", &[STRAIGHT_LINE]), ("s", &[LIVE])],
        ONE,
        "check i s t b",
    ),
    (&[("x", &[CALL]), ("s", &[LIVE])], SIXTEEN, "check i s u a"),
    (&[("x", &[CALL]), ("s", &[HELD])], ONE, "check i s u a"),
    (&[("x", &[CALL]), ("s", &[HELD])], ONE, "check i s t b"),
    (
        &[("x", &[FIBONACCI]), ("s", &[TRACED])],
        FOUR,
        "check i s u a",
    ),
];

/// What is written of a run that waited: the script without its waits, which holds the thread no more.
const WAITED: Case = Case {
    files: &[("x", &[CALL]), ("s", &[WAITING])],
    before: &["asm x i", "run i s t a"],
    line: ORDER,
    left: &[
        ("f", 0, &[b"set_handler\ninit # log\ngo\npatch\n"], 0),
        ("o", 0, &[b"t 1 2\np 16\nt 1 12\n"], 0),
    ],
    ..CASE
};

/// The thread is held until the sleds are patched.
const WAITING: &[u8] = b"set_handler\ninit # log\n hold 1 2\ngo\nawait 1 2\r\npatch\nrelease 1";

/// The lines of audits that have no order, after the first two, and the lines on err. The script patches both sleds
/// before the thread starts.
const UNORDERED: [(&[u8], &str); 3] = [
    (
        b"thread 1 returned passings 1 recorded 1 segments 1 first 0\nmarks +1\nrecycled 0\n",
        "xray: a: audit Ends 1\n",
    ),
    (
        b"thread 1 returned passings 2 recorded 1 segments 1 first 0\nmarks +1\nrecycled 0\n",
        "xray: a: audit Marks 1\n",
    ),
    (SKIPPED, "xray: a: audit Marks 1\n"),
];

#[test]
fn an_ordered_run_is_replayed(rt: HostRuntime) -> Result<(), Fail> {
    for (files, before, check) in &REPLAYED {
        let case = Case {
            files,
            before,
            line: check,
            out: YES,
            ..CASE
        };
        check_case(&rt, &case)?;
    }
    check_case(&rt, &WAITED)?;
    for (audit, err) in &UNORDERED {
        let case = Case {
            files: &[I, S, ("a", &[SETUP, audit])],
            line: ORDER,
            status: 2,
            err,
            ..CASE
        };
        check_case(&rt, &case)?;
    }
    Ok(())
}
