//! Calls of `runtime_log`: a log of each mode and its trace, a block that stands twice, and logs that
//! are damaged.

use crate::checks::{check_same, check_same_at, check_same_list, check_same_text};
use crate::event_traces::printed;
use fdr_file::TraceFault;
use fdr_record::RecFault;
use runtime_log::*;
use std::alloc::Global;
use std::process::Abort;
use std::test::Fail;
use test_helpers::trace_parts::{
    CPU, ENTRY, EXIT_AFTER_2, EXTENTS_80, HEADER, HEADER_OF_5, PREAMBLE, file,
};

/// A log of version 5, with a constant and nonstop counter, and with buffers of 16,384 bytes. It is
/// of one block of 115 bytes: thread 1, the wall time 0, process 1, CPU 0 with the counter 0, an entry
/// of function 1, a custom event of 3 bytes 5 cycles later, a typed event without bytes 1 cycle later,
/// and the exit 2 cycles later.
const RECORDER: [&[u8]; 9] = [
    HEADER_OF_5,
    b"\x0F\x73\0\0\0\0\0\0\0\0\0\0\0\0\0\0",
    PREAMBLE,
    CPU,
    ENTRY,
    b"\x0B\x03\0\0\0\x05\0\0\0\xFF\xFF\xFF\xFF\xFF\xFF\xFF",
    b"abc",
    b"\x11\0\0\0\0\x01\0\0\0\x07\0\xFF\xFF\xFF\xFF\xFF",
    EXIT_AFTER_2,
];

/// Its trace. The exit is 8 cycles after the entry.
const RECORDER_TRACE: [&[u8]; 6] = [
    HEADER,
    EXTENTS_80,
    PREAMBLE,
    CPU,
    ENTRY,
    b"\x12\0\0\0\x08\0\0\0",
];

/// What is said of it.
const RECORDER_FACTS: &str = "                   1 blocks
                   1 threads
                   2 events
                   0 entries with arguments
                   1 custom events left out
                   1 typed events left out
                   0 doubled blocks left out
                   0 empty blocks left out
                   0 first counter
                   8 last counter
                   0 threads whose counter goes back
                   0 arguments without an entry left out
                   0 cut records left out
                   0 cycles a second
";

/// A basic log: in thread 7 an entry of function 1 with the argument 42, and its exit 4 cycles later;
/// then an entry in thread 2.
const BASIC: [u8; 160] = *b"\x03\0\0\0\x03\0\0\0\0\0\0\0\0\0\0\0\0\x40\0\0\0\0\0\0\0\0\0\0\0\0\0\0\
\0\0\x01\x03\x01\0\0\0\x05\0\0\0\0\0\0\0\x07\0\0\0\x01\0\0\0\0\0\0\0\0\0\0\0\
\x01\0\0\0\x01\0\0\0\x07\0\0\0\x01\0\0\0\x2A\0\0\0\0\0\0\0\0\0\0\0\0\0\0\0\
\0\0\x01\x01\x01\0\0\0\x09\0\0\0\0\0\0\0\x07\0\0\0\x01\0\0\0\0\0\0\0\0\0\0\0\
\0\0\0\0\x01\0\0\0\x03\0\0\0\0\0\0\0\x02\0\0\0\x01\0\0\0\0\0\0\0\0\0\0\0";

/// Its trace: thread 2 comes first, and the header names the size of no buffer.
const BASIC_TRACE: [u8; 232] =
    *b"\x03\0\x01\0\x03\0\0\0\0\0\0\0\0\0\0\0\0\0\0\0\0\0\0\0\0\0\0\0\0\0\0\0\
\x0F\x48\0\0\0\0\0\0\0\0\0\0\0\0\0\0\
\x01\x02\0\0\0\0\0\0\0\0\0\0\0\0\0\0\
\x09\0\0\0\0\0\0\0\0\0\0\0\0\0\0\0\
\x13\x01\0\0\0\0\0\0\0\0\0\0\0\0\0\0\
\x05\0\0\x03\0\0\0\0\0\0\0\0\0\0\0\0\
\x10\0\0\0\0\0\0\0\
\x0F\x60\0\0\0\0\0\0\0\0\0\0\0\0\0\0\
\x01\x07\0\0\0\0\0\0\0\0\0\0\0\0\0\0\
\x09\0\0\0\0\0\0\0\0\0\0\0\0\0\0\0\
\x13\x01\0\0\0\0\0\0\0\0\0\0\0\0\0\0\
\x05\x01\0\x05\0\0\0\0\0\0\0\0\0\0\0\0\
\x16\0\0\0\0\0\0\0\
\x0D\x2A\0\0\0\0\0\0\0\0\0\0\0\0\0\0\
\x12\0\0\0\x04\0\0\0";

/// A byte of the log of version 5, what it is changed to, and the fault.
const DAMAGES: [(usize, u8, LogFault); 8] = [
    (0, 6, LogFault::Trace(TraceFault::Version(6))),
    (2, 2, LogFault::Trace(TraceFault::Form(2))),
    (2, 0, LogFault::Trace(TraceFault::Version(5))),
    (33, 0x74, LogFault::Trace(TraceFault::Short(32))),
    (48, 0x0B, LogFault::Trace(TraceFault::Order(48))),
    (96, 0x0B, LogFault::Trace(TraceFault::NoBase(96))),
    (121, 0xFF, LogFault::Trace(TraceFault::Extents(120))),
    (
        0,
        4,
        LogFault::Trace(TraceFault::Bad(139, RecFault::Kind(8))),
    ),
];

/// A byte of the basic log, what it is changed to, and the fault.
const BASIC_DAMAGES: [(usize, u8, LogFault); 4] = [
    (0, 4, LogFault::Trace(TraceFault::Version(4))),
    (32, 2, LogFault::Tag(32, 2)),
    (35, 4, LogFault::Kind(32, 4)),
    (39, 0x10, LogFault::Function(32, 0x1000_0001)),
];

/// The import of a log that isn't too long for one.
fn import(alloc: Global, log: &[u8]) -> Result<Result<ImportedLog, LogFault>, Fail> {
    if log.len() >= 1 << 30 {
        return Err("too long".into());
    }
    Ok(import_log(alloc, log))
}

/// Checks the trace that a log is imported as.
fn check_import(rt: &impl Abort, alloc: Global, log: &[u8], wanted: &[u8]) -> Result<(), Fail> {
    let imported = import(alloc, log)??;
    check_same_list(rt, imported.file(), wanted);
    Ok(())
}

/// Checks the fault of a log with one byte changed.
fn check_damaged(
    rt: &impl Abort,
    alloc: Global,
    log: &[u8],
    place: usize,
    to: u8,
    fault: LogFault,
) -> Result<(), Fail> {
    let mut bytes = log.to_vec(alloc)?;
    if let Some(byte) = bytes.get_mut(place) {
        *byte = to;
    }
    check_same_at(rt, &import(alloc, &bytes)?.err(), &Some(fault), &place);
    Ok(())
}

#[test]
fn a_log_of_each_mode_is_imported(rt: HostRuntime) -> Result<(), Fail> {
    let log = file(rt.alloc(), &RECORDER)?;
    let trace = file(rt.alloc(), &RECORDER_TRACE)?;
    check_import(&rt, rt.alloc(), &log, &trace)?;
    check_import(&rt, rt.alloc(), &BASIC, &BASIC_TRACE)
}

#[test]
fn a_block_that_stands_twice_is_taken_once(rt: HostRuntime) -> Result<(), Fail> {
    let log = file(rt.alloc(), &RECORDER)?;
    let doubled = file(rt.alloc(), &[&log, log.get(32..).ok_or("block")?])?;
    let twice = import(rt.alloc(), &doubled)??;
    check_same_list(&rt, twice.file(), &file(rt.alloc(), &RECORDER_TRACE)?);
    let once = import(rt.alloc(), &log)??;
    check_same_text(&rt, &printed(rt.alloc(), once.facts())?, RECORDER_FACTS);
    let wanted = Facts {
        custom: 2,
        typed: 2,
        doubled: 1,
        ..*once.facts()
    };
    check_same(&rt, twice.facts(), &wanted);
    Ok(())
}

/// The places of the argument's function and thread in the basic log. If one is changed, the argument
/// is that of no entry.
const OTHER_ENTRIES: [usize; 2] = [68, 72];

#[test]
fn an_argument_without_its_entry_is_left_out(rt: HostRuntime) -> Result<(), Fail> {
    for place in OTHER_ENTRIES {
        let mut log = BASIC.to_vec(rt.alloc())?;
        if let Some(byte) = log.get_mut(place) {
            *byte = 2;
        }
        let imported = import(rt.alloc(), &log)??;
        check_same_at(&rt, &imported.facts().lost, &1, &place);
        check_same_at(&rt, &imported.facts().events, &3, &place);
    }
    Ok(())
}

#[test]
fn damaged_logs_of_the_runtime_are_refused(rt: HostRuntime) -> Result<(), Fail> {
    let log = file(rt.alloc(), &RECORDER)?;
    for (place, to, fault) in &DAMAGES {
        check_damaged(&rt, rt.alloc(), &log, *place, *to, *fault)?;
    }
    for (place, to, fault) in &BASIC_DAMAGES {
        check_damaged(&rt, rt.alloc(), &BASIC, *place, *to, *fault)?;
    }
    Ok(())
}
