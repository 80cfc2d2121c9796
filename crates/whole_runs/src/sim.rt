//! `sim` and `plain`: marks by scripts and schedules, several threads, limits, and the refusals of scripts and
//! schedules.
use crate::cases::{ASSEMBLE, CASE, Case, File, I, check_cases, desk_of};
use crate::runs::{assert_left, assert_no_fault, run_line};
use crate::states::{
    CALL_STATE, MOVED, ODD_EXIT_STATE, PATCHED, RETURNED, STARTED, STATE, TAIL_JUMP_STATE,
    UNPATCHED_ONCE,
};
use crate::texts::{ARGUMENT, CALL, LIVE, SIM, STRAIGHT_LINE, TAIL_JUMP, TRACED};
use std::process::Abort;
use std::sync::Wait;
use std::test::Fail;
use std::thread::Threads;

/// Both sleds are patched before the thread starts, and unpatched once it runs.
const UNPATCHED: &[u8] = b"patch\ngo\nunpatch\n";

/// A script, a schedule, and the marks of thread 1.
type Marked = (&'static [u8], &'static [u8], &'static str);

/// Marks of the straight line.
const MARKS: [Marked; 19] = [
    (TRACED, b"", "+2"),
    (b"go", b"", ".2"),
    // Both sleds are unpatched after the start.
    (UNPATCHED, b"t 1 1\np 2\n", "n1 .1"),
    (UNPATCHED, b"", "n2"),
    (UNPATCHED, b"p 2\n", ".2"),
    // The head of the entry sled is loaded. Then both sleds are unpatched, and the rest is
    // loaded.
    (
        b"patch\nset_handler\ninit\ngo\nunpatch",
        b"t 1 1\np 2",
        "+1 .1",
    ),
    // Everything is stored except the head of the entry sled.
    (LIVE, b"p 3\nt 1 1", ".2"),
    (LIVE, b"p 3\nt 1 1\np 5", ".1 +1"),
    (LIVE, b"p 4", "+1 .1"),
    (LIVE, b"p 4294967295\nt 1 4294967295", "+2"),
    (b"go\nunpatch", b"p 2", ".2"),
    (b"patch\nunpatch\ngo", b"", ".2"),
    (
        b"patch\nunpatch_function 1\npatch_function 01\ngo",
        b"",
        "n2",
    ),
    // There is no handler, or the log isn't initialized.
    (b"patch\ninit\ngo\n", b"", "n2"),
    (b"patch\nset_handler\ngo\n", b"", "f2"),
    (b"patch\nset_handler\ninit\nfinalize\ngo\n", b"", "f2"),
    // The handler is removed, or the log finalized, between the two sleds.
    (
        b"patch\nset_handler\ninit\ngo\nremove_handler\n",
        b"t 1 6\np 1",
        "+1 n1",
    ),
    (
        b"patch\nset_handler\ninit\ngo\nfinalize\n",
        b"t 1 6\np 1",
        "+1 f1",
    ),
    // Between the handler's word and the state's, the log is initializing.
    (
        b"patch\nset_handler\ngo\ninit\n",
        b"t 1 5\np 1\nt 1 1\np 1",
        "f1 +1",
    ),
];

/// Marks of a function that logs its argument. Loads 1 to 4 of its first passing are those of the patched sled. The
/// argument handler's word comes next, then the handler's word, unless an argument handler was found, and last the
/// log's state.
const MARKS_WITH_ARGUMENT: [Marked; 18] = [
    // The argument handler is removed before its word is loaded, and after that.
    (
        b"patch\nset_handler\nset_arg_handler\ninit\ngo\nremove_arg_handler",
        b"t 1 4\np 1",
        "+2",
    ),
    (
        b"patch\nset_handler\nset_arg_handler\ninit\ngo\nremove_arg_handler",
        b"t 1 5\np 1",
        "a1 +1",
    ),
    // It is set before its word is loaded, and after that, with a handler and without.
    (
        b"patch\nset_handler\ninit\ngo\nset_arg_handler",
        b"t 1 4\np 1",
        "a1 +1",
    ),
    (
        b"patch\nset_handler\ninit\ngo\nset_arg_handler",
        b"t 1 5\np 1",
        "+2",
    ),
    (b"patch\ninit\ngo\nset_arg_handler", b"t 1 5\np 1", "n2"),
    // Both are set, and the handler is removed in the middle: an argument handler that was found needs no other.
    (
        b"patch\nset_handler\nset_arg_handler\ninit\ngo\nremove_handler",
        b"t 1 5\np 1",
        "a1 n1",
    ),
    // No argument handler is found. The handler is removed before its word is loaded, and after that.
    (
        b"patch\nset_handler\ninit\ngo\nremove_handler",
        b"t 1 5\np 1",
        "n2",
    ),
    (
        b"patch\nset_handler\ninit\ngo\nremove_handler",
        b"t 1 6\np 1",
        "+1 n1",
    ),
    // The handler takes the place of the argument handler, before the word of that is loaded, and after that.
    (
        b"patch\nset_arg_handler\ninit\ngo\nset_handler\nremove_arg_handler",
        b"t 1 4\np 2",
        "+2",
    ),
    (
        b"patch\nset_arg_handler\ninit\ngo\nset_handler\nremove_arg_handler",
        b"t 1 5\np 2",
        "a1 +1",
    ),
    // The log doesn't record, with either handler.
    (b"patch\nset_arg_handler\ngo", b"", "f1 n1"),
    (b"patch\nset_handler\ngo", b"", "f2"),
    (
        b"patch\nset_handler\nset_arg_handler\ninit\ngo\nfinalize",
        b"t 1 5\np 1",
        "f2",
    ),
    (
        b"patch\nset_handler\ninit\ngo\nfinalize",
        b"t 1 6\np 2",
        "f2",
    ),
    // The log begins to record after the argument handler was found.
    (b"patch\nset_arg_handler\ngo\ninit", b"t 1 5\np 1", "f1 n1"),
    (b"patch\nset_arg_handler\ngo\ninit", b"t 1 5\np 2", "a1 n1"),
    // The sleds are unpatched after the head was loaded, or patched except for the head.
    (
        b"patch\nset_arg_handler\ninit\ngo\nunpatch",
        b"t 1 1\np 2",
        "a1 .1",
    ),
    (b"set_arg_handler\ninit\ngo\npatch", b"p 3\nt 1 1", ".2"),
];

/// Checks the marks of a text, whose thread ends with this state.
fn check_marks<R: Abort + Threads + Wait + Sync + AllocGlobal>(
    rt: &R,
    text: &[u8],
    state: &str,
    rows: &[Marked],
) -> Result<(), Fail> {
    let mut desk = desk_of(rt.alloc(), &[])?;
    desk.put("x", text)?;
    assert_no_fault(rt, &run_line(rt, "asm x i", &mut desk)?);
    for (script, schedule, marks) in rows {
        desk.put("s", script)?;
        desk.put("c", schedule)?;
        let out = format!(in rt.alloc(); "{state}marks {marks}\n")?;
        assert_left(rt, &run_line(rt, SIM, &mut desk)?, 0, &out, "", marks);
    }
    Ok(())
}

#[test]
fn a_schedule_says_between_which_loads_words_change(rt: HostRuntime) -> Result<(), Fail> {
    check_marks(&rt, STRAIGHT_LINE, STATE, &MARKS)?;
    check_marks(&rt, ARGUMENT, ODD_EXIT_STATE, &MARKS_WITH_ARGUMENT)
}

/// An empty schedule.
const NO_SCHEDULE: File = ("c", &[]);

/// The straight line, whose sleds are patched before the thread starts.
const TRACED_IMAGE: &[File] = &[I, ("s", &[TRACED]), NO_SCHEDULE];

const THREADS: [Case; 8] = [
    // A thread makes the first load, and the others run after the schedule.
    Case {
        files: &[I, ("s", &[LIVE]), ("c", &[b"t 1 1\np 8"])],
        line: "sim i s c t a --threads 2",
        out: &[STATE, "marks .1 +1\n", "thread 2", RETURNED, "2", PATCHED],
        ..CASE
    },
    Case {
        files: &[I, ("s", &[LIVE]), ("c", &[b"t 16 1\np 8"])],
        line: "sim --threads=16 i s c t a",
        out: &[
            "thread 1",
            RETURNED,
            "1",
            PATCHED,
            "thread 2",
            RETURNED,
            "2",
            PATCHED,
            "thread 3",
            RETURNED,
            "3",
            PATCHED,
            "thread 4",
            RETURNED,
            "4",
            PATCHED,
            "thread 5",
            RETURNED,
            "5",
            PATCHED,
            "thread 6",
            RETURNED,
            "6",
            PATCHED,
            "thread 7",
            RETURNED,
            "7",
            PATCHED,
            "thread 8",
            RETURNED,
            "8",
            PATCHED,
            "thread 9",
            RETURNED,
            "9",
            PATCHED,
            "thread 10",
            RETURNED,
            "a",
            PATCHED,
            "thread 11",
            RETURNED,
            "b",
            PATCHED,
            "thread 12",
            RETURNED,
            "c",
            PATCHED,
            "thread 13",
            RETURNED,
            "d",
            PATCHED,
            "thread 14",
            RETURNED,
            "e",
            PATCHED,
            "thread 15",
            RETURNED,
            "f",
            PATCHED,
            "thread 16",
            RETURNED,
            "10",
            UNPATCHED_ONCE,
        ],
        ..CASE
    },
    // Images with calls and tail jumps. The called function has id 2: its sleds are passed between the caller's.
    Case {
        files: &[("x", &[TAIL_JUMP]), ("s", &[TRACED]), NO_SCHEDULE],
        before: ASSEMBLE,
        line: SIM,
        out: &[TAIL_JUMP_STATE, "marks +4\n"],
        ..CASE
    },
    Case {
        files: &[("x", &[CALL]), ("s", &[TRACED]), NO_SCHEDULE],
        before: ASSEMBLE,
        line: SIM,
        out: &[CALL_STATE, "marks +4\n"],
        ..CASE
    },
    Case {
        files: &[
            ("x", &[CALL]),
            ("s", &[b"patch_function 2\ngo"]),
            NO_SCHEDULE,
        ],
        before: ASSEMBLE,
        line: SIM,
        out: &[CALL_STATE, "marks .1 n2 .1\n"],
        ..CASE
    },
    // What is refused to three threads.
    Case {
        files: &[I, ("s", &[b"hold 4 0\ngo"]), NO_SCHEDULE],
        line: "sim i s c t a --threads=3",
        status: 2,
        err: "xray: s: script Thread 1\n",
        ..CASE
    },
    Case {
        files: &[I, ("s", &[b"hold 3 0\ngo"]), NO_SCHEDULE],
        line: "sim i s c t a --threads=3",
        status: 2,
        err: "xray: s: script Hold 3\n",
        ..CASE
    },
    Case {
        files: &[I, ("s", &[b"go"]), ("c", &[b"t 4 1"])],
        line: "sim i s c t a --threads=3",
        status: 2,
        err: "xray: c: schedule Thread 1\n",
        ..CASE
    },
];

#[test]
fn each_of_up_to_sixteen_threads_has_marks_of_its_own(rt: HostRuntime) -> Result<(), Fail> {
    check_cases(&rt, &THREADS)
}

const OPTIONS: [Case; 12] = [
    // The limits of options. A sled needs no fuel, but the return of an exit sled does.
    Case {
        files: TRACED_IMAGE,
        line: "sim i s --fuel 1 c t a",
        out: &[
            "thread 1 fuel instructions 1 passings 1\n",
            MOVED,
            "output -\nmarks +1\n",
        ],
        ..CASE
    },
    Case {
        files: TRACED_IMAGE,
        line: "sim i s --fuel 0 c t a",
        out: &[
            "thread 1 fuel instructions 0 passings 1\n",
            STARTED,
            "output -\nmarks +1\n",
        ],
        ..CASE
    },
    Case {
        files: TRACED_IMAGE,
        line: "sim i s --fuel 2 c t a",
        out: &[
            "thread 1 fuel instructions 2 passings 2\n",
            MOVED,
            "output 41\nmarks +2\n",
        ],
        ..CASE
    },
    Case {
        files: TRACED_IMAGE,
        line: "sim i s --passings 1 c t a",
        out: &[
            "thread 1 passings instructions 2 passings 1\n",
            MOVED,
            "output 41\nmarks +1\n",
        ],
        ..CASE
    },
    Case {
        files: TRACED_IMAGE,
        line: "sim i s --passings 0 c t a",
        out: &[
            "thread 1 passings instructions 0 passings 0\n",
            STARTED,
            "output -\nmarks -\n",
        ],
        ..CASE
    },
    // Options stand anywhere, at the ends of their ranges.
    Case {
        files: TRACED_IMAGE,
        line: "sim --fuel=1000000000 --passings +1048576 i s c t a",
        out: &[STATE, "marks +2\n"],
        ..CASE
    },
    Case {
        files: TRACED_IMAGE,
        line: "sim i s c t a --passings=1048576 --fuel 01000000000",
        out: &[STATE, "marks +2\n"],
        ..CASE
    },
    Case {
        files: TRACED_IMAGE,
        line: "sim i --threads=1 -- s c t a",
        out: &[STATE, "marks +2\n"],
        ..CASE
    },
    // Buffers at the ends of their ranges.
    Case {
        files: TRACED_IMAGE,
        line: "sim i s c t a --buffer-size 88 --buffer-max 1",
        out: &[STATE, "marks +2\n"],
        ..CASE
    },
    Case {
        files: TRACED_IMAGE,
        line: "sim i s c t a --buffer-size 1048576 --buffer-max 1",
        out: &[STATE, "marks +2\n"],
        ..CASE
    },
    Case {
        files: TRACED_IMAGE,
        line: "sim i s c t a --buffer-size 88 --buffer-max 1024",
        out: &[STATE, "marks +2\n"],
        ..CASE
    },
    Case {
        files: TRACED_IMAGE,
        line: "sim i s c t a --buffer-max 224 --buffer-size 299577",
        out: &[STATE, "marks +2\n"],
        ..CASE
    },
];

#[test]
fn options_have_their_ranges(rt: HostRuntime) -> Result<(), Fail> {
    check_cases(&rt, &OPTIONS)
}

const PLAIN: [Case; 10] = [
    // `plain`.
    Case {
        files: &[I],
        line: "plain i",
        out: &[STATE],
        ..CASE
    },
    Case {
        files: &[I],
        line: "plain i --fuel 1",
        out: &[
            "thread 1 fuel instructions 1 passings 1\n",
            MOVED,
            "output -\n",
        ],
        ..CASE
    },
    Case {
        files: &[I],
        line: "plain i --passings=1",
        out: &[
            "thread 1 passings instructions 2 passings 1\n",
            MOVED,
            "output 41\n",
        ],
        ..CASE
    },
    // The first input that can't be read is named. A lone dash names a file.
    Case {
        files: TRACED_IMAGE,
        line: "sim x s c t a",
        status: 3,
        err: "xray: x: read fault\n",
        ..CASE
    },
    Case {
        files: TRACED_IMAGE,
        line: "sim i y z t a",
        status: 3,
        err: "xray: y: read fault\n",
        ..CASE
    },
    Case {
        files: TRACED_IMAGE,
        line: "sim i s z t a",
        status: 3,
        err: "xray: z: read fault\n",
        ..CASE
    },
    Case {
        files: TRACED_IMAGE,
        line: "sim - s c t a",
        status: 3,
        err: "xray: -: read fault\n",
        ..CASE
    },
    Case {
        files: TRACED_IMAGE,
        line: "plain q",
        status: 3,
        err: "xray: q: read fault\n",
        ..CASE
    },
    Case {
        files: TRACED_IMAGE,
        line: "extract q",
        status: 3,
        err: "xray: q: read fault\n",
        ..CASE
    },
    Case {
        files: TRACED_IMAGE,
        line: "asm q n",
        status: 3,
        err: "xray: q: read fault\n",
        ..CASE
    },
];

#[test]
fn a_plain_run_ends_and_an_input_is_named(rt: HostRuntime) -> Result<(), Fail> {
    check_cases(&rt, &PLAIN)
}

/// A script that holds thread 1 until it has passed two sleds.
const WAITING: &[u8] = b"set_handler\ninit\nhold 1 2\ngo\nawait 1 2\npatch\nrelease 1";

/// A script, a schedule, and the line on err.
type Refusal = (&'static [u8], &'static [u8], &'static str);

const REFUSALS: [Refusal; 26] = [
    // Scripts. The schedule would be refused too.
    (b"", b"p 0", "xray: s: script Go 1\n"),
    (b"go\ngo", b"p 0", "xray: s: script Go 2\n"),
    (b"# nothing\n", b"p 0", "xray: s: script Go 2\n"),
    (b"go\nhold 1 0", b"p 0", "xray: s: script Go 2\n"),
    (b"await 1 0\ngo", b"p 0", "xray: s: script Go 1\n"),
    (
        b"patch_function 2\ngo",
        b"p 0",
        "xray: s: script Function 1\n",
    ),
    (
        b"go\nunpatch_function 0",
        b"p 0",
        "xray: s: script Function 2\n",
    ),
    (b"go\nrelease 2", b"p 0", "xray: s: script Thread 2\n"),
    (b"go\nrelease 1", b"p 0", "xray: s: script Hold 2\n"),
    (b"hold 1 0\ngo", b"p 0", "xray: s: script Hold 3\n"),
    (
        b"hold 1 0\ngo\nrelease 1\nrelease 1",
        b"p 0",
        "xray: s: script Hold 4\n",
    ),
    (b"init\ninit\ngo", b"p 0", "xray: s: script Log 2\n"),
    (b"finalize\ngo", b"p 0", "xray: s: script Log 1\n"),
    (
        b"hold 1 3\ngo\nawait 1 5\nrelease 1",
        b"p 0",
        "xray: s: script SelfWait 3\n",
    ),
    (b"patch 1", b"p 0", "xray: s: script Syntax 1\n"),
    (
        b"go\npatch_function 4294967296",
        b"p 0",
        "xray: s: script Syntax 2\n",
    ),
    (b"\n# \x01\ngo \x01", b"p 0", "xray: s: script Syntax 3\n"),
    // Schedules.
    (b"go", b"p 0", "xray: c: schedule Syntax 1\n"),
    (b"go", b"t 1", "xray: c: schedule Syntax 1\n"),
    (b"go", b"t 2 1", "xray: c: schedule Thread 1\n"),
    (b"go", b"p 1\nt 2 0", "xray: c: schedule Syntax 2\n"),
    (b"go", b"t 1 4294967296", "xray: c: schedule Syntax 1\n"),
    // Scripts that wait. The schedule is judged before that.
    (WAITING, b"", "xray: s: script Waits 3\n"),
    (WAITING, b"p 0", "xray: c: schedule Syntax 1\n"),
    (
        b"hold 1 3\ngo\nawait 1 3\nrelease 1",
        b"t 1 1",
        "xray: s: script Waits 1\n",
    ),
    (b"go\n\nawait 1 0", b"", "xray: s: script Waits 3\n"),
];

/// The script is judged before the schedule, and whether it waits after that.
#[test]
fn scripts_and_schedules_are_refused(rt: HostRuntime) -> Result<(), Fail> {
    let mut desk = desk_of(rt.alloc(), &[I])?;
    for (script, schedule, err) in &REFUSALS {
        desk.put("s", script)?;
        desk.put("c", schedule)?;
        assert_left(&rt, &run_line(&rt, SIM, &mut desk)?, 2, "", err, err);
    }
    Ok(())
}
