//! Each command with a fault at each call of the desk, of out and of err in turn.
//!
//! A call that fails ends the run with status 3 or 4 and a line that names the file. Outputs before
//! the one that failed are whole, that one holds a prefix, and nothing else is changed. No call of
//! the desk or of out follows the one that failed. If err fails, only its line is lost.
use crate::cases::{File, I};
use crate::checks::{check_same, check_same_at};
use crate::runs::{Run, assert_no_fault, run_line, status_of};
use std::alloc::Global;
use std::process::Abort;
use std::sync::Wait;
use std::test::Fail;
use std::thread::Threads;
use test_helpers::programs::PROGRAM;
use test_helpers::trace_parts::{LOG_OF_ONE_CALL, ONE_CALL, RECURSION, file};
use test_helpers::{DeskCall, DeskFault, WatchedDesk, WatchedSink};
use xray_io::{MemDesk, MemSink, OpenGate};

/// A command: its words, what it reads, and the names of what it writes, in this order.
struct Command {
    words: &'static str,
    inputs: &'static [File<'static>],
    outputs: &'static [&'static str],
}

/// A script that patches everything before the threads start.
const S: File = ("s", &[b"patch\nset_handler\ninit\ngo\n"]);

/// A text of a move, an output and a return.
const X: File = (
    "x",
    &[b"base 0x1000\nfn main always\nmov eax, 65\nout 1\nret\n"],
);

/// The audit of a run of that script, of which `ONE_CALL` is the trace.
const A: File = (
    "a",
    &[
        b"xray-audit 1\nthreads=1 buffer-size=16384 buffer-max=100 fuel=10000000 passings=1048576 ",
        b"tick=1 tsc=0 cpus=1 migrate=1048576 pid=1 wall=0.0 frequency=0\n",
        b"thread 1 returned passings 2 recorded 2 segments 1 first 0\nmarks +2\nrecycled 0\n",
    ],
);

/// A sled map that names function 1.
const M: File = (
    "m",
    &[
        b"---\n- { id: 1, address: 0x1, function: 0x1, kind: function-enter, always-instrument: true, function-name: f }\n...\n",
    ],
);

/// The commands. Another command is another row.
const COMMANDS: [Command; 20] = [
    Command {
        words: "asm x o",
        inputs: &[X],
        outputs: &["o"],
    },
    Command {
        words: "plain i --threads 2",
        inputs: &[I],
        outputs: &[],
    },
    Command {
        words: "extract i",
        inputs: &[I],
        outputs: &[],
    },
    Command {
        words: "sim i s c t a --wall 0 --threads 2 --buffer-size 88 --buffer-max 3 --cpus 2 --migrate 1",
        inputs: &[I, S, ("c", &[b"t 2 1\np 1\n"])],
        outputs: &["t", "a"],
    },
    Command {
        words: "run i s t a --wall 0",
        inputs: &[I, S],
        outputs: &["t", "a"],
    },
    Command {
        words: "profile i s --nodes 1",
        inputs: &[I, S],
        outputs: &[],
    },
    Command {
        words: "account t",
        inputs: &[("t", &RECURSION)],
        outputs: &[],
    },
    Command {
        words: "account t i --format csv --sort sum",
        inputs: &[("t", &RECURSION), I],
        outputs: &[],
    },
    Command {
        words: "calls t i --sort duration --top 1",
        inputs: &[("t", &RECURSION), I],
        outputs: &[],
    },
    Command {
        words: "stack t i",
        inputs: &[("t", &RECURSION), I],
        outputs: &[],
    },
    Command {
        words: "convert t i",
        inputs: &[("t", &ONE_CALL), I],
        outputs: &[],
    },
    Command {
        words: "check i s t a",
        inputs: &[I, A, S, ("t", &ONE_CALL)],
        outputs: &[],
    },
    Command {
        words: "order i s a f o",
        inputs: &[I, A, S],
        outputs: &["f", "o"],
    },
    Command {
        words: "stack t --map m",
        inputs: &[("t", &RECURSION), M],
        outputs: &[],
    },
    Command {
        words: "convert t i --format trace-event",
        inputs: &[("t", &ONE_CALL), I],
        outputs: &[],
    },
    Command {
        words: "convert t i --input basic",
        inputs: &[("t", &LOG_OF_ONE_CALL), I],
        outputs: &[],
    },
    Command {
        words: "fdr-dump t",
        inputs: &[("t", &ONE_CALL)],
        outputs: &[],
    },
    Command {
        words: "soak 1",
        inputs: &[],
        outputs: &[],
    },
    Command {
        words: "import l t",
        inputs: &[("l", &RECURSION)],
        outputs: &["t"],
    },
    Command {
        words: "map p m",
        inputs: &[("p", &[PROGRAM])],
        outputs: &["m"],
    },
];

/// What each output holds before, and a name that no command has.
const OLD: &[u8] = b"old";

const OTHER: &str = "z";

/// No command makes as many calls.
const ENDLESS: u64 = 10_000;

/// Calls of a device that are to fail: as many as this, from the first on.
#[derive(Clone, Copy)]
struct Calls {
    first: u64,
    count: u64,
}

const NO_CALL: Calls = Calls { first: 0, count: 0 };

const FIRST_CALL: Calls = Calls { first: 0, count: 1 };

/// The calls that are to fail, of the desk, of out and of err.
#[derive(Clone, Copy)]
struct Failing {
    desk: Calls,
    out: Calls,
    err: Calls,
}

/// A device whose calls fail in turn.
#[derive(Clone, Copy)]
enum Device {
    Desk,
    Out,
    Err,
}

/// The failures of these calls of a device. Calls of err fail beside them, or, for err itself, the first call of the
/// desk and of out.
fn failures_of(device: Device, calls: Calls, of_err: Calls) -> Failing {
    match device {
        Device::Desk => Failing {
            desk: calls,
            out: NO_CALL,
            err: of_err,
        },
        Device::Out => Failing {
            desk: NO_CALL,
            out: calls,
            err: of_err,
        },
        Device::Err => Failing {
            desk: FIRST_CALL,
            out: FIRST_CALL,
            err: calls,
        },
    }
}

/// The numbers of these calls.
fn numbers_of(alloc: Global, calls: Calls) -> Result<Vec<u64>, Fail> {
    let mut numbers = Vec::new(alloc);
    for place in 0..calls.count {
        numbers.push(calls.first.saturating_add(place))?;
    }
    Ok(numbers)
}

/// Whether a call of a device failed.
fn has_failed(device: Device, left: &Left) -> bool {
    match device {
        Device::Desk => left.desk.fault().is_some(),
        Device::Out => left.out.has_failed(),
        Device::Err => left.err.has_failed(),
    }
}

/// What a run left, and its status.
#[derive(Drop)]
struct Left {
    status: u8,
    desk: WatchedDesk,
    out: WatchedSink,
    err: WatchedSink,
}

/// What a command leaves without a fault: its files, its status and its text.
#[derive(Drop)]
struct Whole {
    desk: MemDesk,
    run: Run,
}

/// A desk that holds what a command reads, old outputs, and another name.
fn desk_for(alloc: Global, command: &Command, failing: Calls) -> Result<MemDesk, Fail> {
    let mut desk = MemDesk::new(alloc, numbers_of(alloc, failing)?);
    desk.put(OTHER, OLD)?;
    for name in command.outputs {
        desk.put(name, OLD)?;
    }
    for (name, parts) in command.inputs {
        desk.put(name, &file(alloc, parts)?)?;
    }
    Ok(desk)
}

/// A stream that fails at these calls, before a run.
fn stream_for(alloc: Global, failing: Calls) -> Result<WatchedSink, Fail> {
    let sink = MemSink::new(alloc, numbers_of(alloc, failing)?);
    Ok(WatchedSink::new(sink))
}

/// Runs a command over a desk and streams that fail at these calls.
fn run_with<R: Threads + Wait + Sync + AllocGlobal>(
    rt: &R,
    command: &Command,
    failing: Failing,
) -> Result<Left, Fail> {
    let alloc = rt.alloc();
    let mut desk = WatchedDesk::new(alloc, desk_for(alloc, command, failing.desk)?);
    let mut out = stream_for(alloc, failing.out)?;
    let mut err = stream_for(alloc, failing.err)?;
    let status = status_of(rt, command.words, &mut desk, &mut out, &mut err, &OpenGate)?;
    Ok(Left {
        status,
        desk,
        out,
        err,
    })
}

/// Runs a command without a fault, over a desk that gives and takes all bytes that are asked for.
fn whole_of<R: Abort + Threads + Wait + Sync + AllocGlobal>(
    rt: &R,
    command: &Command,
) -> Result<Whole, Fail> {
    let mut desk = desk_for(rt.alloc(), command, NO_CALL)?;
    let run = run_line(rt, command.words, &mut desk)?;
    assert_no_fault(rt, &run);
    Ok(Whole { desk, run })
}

/// The status that a run has to have, and its line on err.
fn ending_of(alloc: Global, left: &Left) -> Result<(u8, String), Fail> {
    match left.desk.fault() {
        Some(
            DeskFault {
                call: DeskCall::Read,
                name,
            },
        ) => Ok((3, format!(in alloc; "xray: {name}: read fault\n")?)),
        Some(fault) => Ok((4, format!(in alloc; "xray: {}: write fault\n", fault.name)?)),
        None => {
            if left.out.has_failed() {
                return Ok((4, String::from_str(alloc, "xray: output: write fault\n")?));
            }
            Ok((0, String::new(alloc)))
        }
    }
}

/// Checks that bytes are all of these, or a prefix and not all of them if their writing failed.
fn check_written<R: Abort>(rt: &R, bytes: &[u8], whole: &[u8], has_failed: bool) {
    check_same(rt, &whole.get(..bytes.len()), &Some(bytes));
    check_same(rt, &(bytes.len() < whole.len()), &has_failed);
}

/// Checks the outputs before the one that failed, that one, and the later ones. If a read failed,
/// all of them are as before.
fn check_outputs<R: Abort>(rt: &R, command: &Command, whole: &Whole, left: &Left) {
    let fault = left.desk.fault();
    let call = call_of(fault);
    let mut is_before = !matches!(call, Some(DeskCall::Read));
    for name in command.outputs {
        let held = left.desk.get(name);
        let all = whole.desk.get(name);
        if is_before && names(fault, name) {
            is_before = false;
            if matches!(call, Some(DeskCall::Append)) {
                check_written(rt, held.unwrap_or(OLD), all.unwrap_or(OLD), true);
                continue;
            }
        }
        check_same(rt, &held, &if is_before { all } else { Some(OLD) });
    }
}

/// The call that failed, if one failed.
fn call_of(fault: Option<&DeskFault>) -> Option<DeskCall> {
    match fault {
        Some(fault) => Some(fault.call),
        None => None,
    }
}

/// Whether a call failed that was given this name.
fn names(fault: Option<&DeskFault>, name: &str) -> bool {
    match fault {
        Some(fault) => fault.name.as_str() == name,
        None => false,
    }
}

/// Checks the names that aren't outputs.
fn check_inputs<R: Abort + AllocGlobal>(
    rt: &R,
    command: &Command,
    desk: &WatchedDesk,
) -> Result<(), Fail> {
    for (name, parts) in command.inputs {
        let held = file(rt.alloc(), parts)?;
        check_same_at(rt, &desk.get(name), &Some(held.as_slice()), name);
    }
    check_same(rt, &desk.get(OTHER), &Some(OLD));
    Ok(())
}

/// Runs a command over a desk and streams that fail at these calls, and checks all that it leaves.
fn tried<R: Abort + Threads + Wait + Sync + AllocGlobal>(
    rt: &R,
    command: &Command,
    whole: &Whole,
    failing: Failing,
) -> Result<Left, Fail> {
    let left = run_with(rt, command, failing)?;
    let (status, line) = ending_of(rt.alloc(), &left)?;
    check_same_at(rt, &left.status, &status, command.words);
    let (has_line, text) = (left.err.has_failed(), line.as_str().as_bytes());
    check_written(rt, left.err.bytes(), text, has_line);
    let later = left
        .desk
        .later_calls()
        .saturating_add(left.out.later_calls());
    check_same_at(rt, &later, &0, command.words);
    check_outputs(rt, command, whole, &left);
    check_inputs(rt, command, &left.desk)?;
    if left.desk.fault().is_some() {
        check_same_at(rt, &left.out.bytes().len(), &0, command.words);
    } else {
        let text = whole.run.out.as_str().as_bytes();
        check_written(rt, left.out.bytes(), text, left.out.has_failed());
    }
    Ok(left)
}

/// Tries a command with the failures of each call in turn, until a call of the device that should have failed isn't
/// made. Then the same with the next call and err failing too.
fn try_each_call<R: Abort + Threads + Wait + Sync + AllocGlobal>(
    rt: &R,
    command: &Command,
    whole: &Whole,
    device: Device,
) -> Result<(), Fail> {
    for call in 0..ENDLESS {
        let one = Calls {
            first: call,
            count: 1,
        };
        let two = Calls { count: 2, ..one };
        let left = tried(rt, command, whole, failures_of(device, one, NO_CALL))?;
        tried(rt, command, whole, failures_of(device, two, FIRST_CALL))?;
        if !has_failed(device, &left) {
            return Ok(());
        }
    }
    Err("the calls have no end".into())
}

#[test]
fn each_call_may_fail(rt: HostRuntime) -> Result<(), Fail> {
    for command in &COMMANDS {
        let whole = whole_of(&rt, command)?;
        for device in &[Device::Desk, Device::Out, Device::Err] {
            try_each_call(&rt, command, &whole, *device)?;
        }
    }
    Ok(())
}
