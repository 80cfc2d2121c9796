//! Calls of `trace_forms`: one call, entered at the counter 0 and left at 2, in each form.

ghost use Rattle.std.specs.Prelude.{◌<◌, ◌^◌, length};
ghost use Rattle.fdr_file.specs.ThreadEvents.{thread_events};

use crate::checks::{check_same_list, check_same_text};
use fdr_file::{Trace, read_trace, readable, what_is_read_fits};
use std::alloc::Global;
use std::process::Abort;
use std::test::Fail;
use test_helpers::trace_parts::{LOG_OF_ONE_CALL, ONE_CALL, file};
use trace_forms::*;
use xray_io::MemSink;

/// Some first bytes of the trace, and how many. Their trace events, and how many bytes of the log
/// are theirs.
const FORMS: [(usize, &str, usize); 2] = [
    (32, "{\"traceEvents\":[]}\n", 32),
    (
        128,
        "{\"traceEvents\":[\
{\"cpu\":0,\"name\":\"#1\",\"ph\":\"B\",\"pid\":1,\"tid\":1,\"ts\":0},\
{\"cpu\":0,\"name\":\"#1\",\"ph\":\"E\",\"pid\":1,\"tid\":1,\"ts\":2}]}\n",
        96,
    ),
];

/// How many first bytes of the trace are dumped, and their dump.
const DUMPS: [(usize, &str); 4] = [
    (31, ""),
    (32, "0 header version 3 type 1\nend 32\n"),
    (100, "0 header version 3 type 1\nstop 32 Short 32\n"),
    (
        128,
        "0 header version 3 type 1\n\
32 extents 80\n\
48 new-buffer 1\n\
64 wall-time 0.0\n\
80 pid 1\n\
96 new-cpu 0 0\n\
112 function enter 1 delta 0\n\
120 function exit 1 delta 2\n\
end 128\n",
    ),
];

/// The basic log of a trace, or nothing if a CPU is above 255.
fn log_of(alloc: Global, trace: &Trace) -> Result<MemSink, Fail>
    requires { length (thread_events trace.now.blocks) < 2 ^ 64 }
{
    let mut sink = MemSink::new(alloc, Vec::new(alloc));
    match wide_cpu(trace) {
        None => write_basic(trace, &mut sink)?,
        Some(_) => (),
    }
    Ok(sink)
}

/// The dump of a file, or nothing if its header has a fault.
fn dump_of(alloc: Global, bytes: &[u8]) -> Result<MemSink, Fail> {
    let mut sink = MemSink::new(alloc, Vec::new(alloc));
    match readable(bytes) {
        Ok(_end) => write_dump(bytes, &mut sink)?,
        Err(_) => (),
    }
    Ok(sink)
}

/// Checks the trace events of a trace.
fn check_events(rt: &impl Abort, alloc: Global, trace: &Trace, wanted: &str) -> Result<(), Fail> {
    let text = event_text(alloc, trace, None)?;
    check_same_text(rt, std::str::from_utf8(text.as_slice())?, wanted);
    Ok(())
}

/// Checks the trace events of a file and its basic log, and that the log has these trace events too.
fn check_forms(
    rt: &impl Abort,
    alloc: Global,
    bytes: &[u8],
    events: &str,
    wanted: &[u8],
) -> Result<(), Fail> {
    let trace = read_trace(alloc, bytes)?;
    what_is_read_fits();
    check_events(rt, alloc, &trace, events)?;
    let log = log_of(alloc, &trace)?;
    check_same_list(rt, log.bytes(), wanted);
    check_events(rt, alloc, &read_basic(alloc, log.bytes())?, events)
}

#[test]
fn a_trace_has_each_form(rt: HostRuntime) -> Result<(), Fail> {
    let trace = file(rt.alloc(), &ONE_CALL)?;
    let basic = file(rt.alloc(), &LOG_OF_ONE_CALL)?;
    for (read, events, written) in &FORMS {
        let bytes = trace.get(..*read).ok_or("bytes")?;
        let log = basic.get(..*written).ok_or("log")?;
        check_forms(&rt, rt.alloc(), bytes, events, log)?;
    }
    Ok(())
}

#[test]
fn a_file_is_dumped(rt: HostRuntime) -> Result<(), Fail> {
    let trace = file(rt.alloc(), &ONE_CALL)?;
    for (read, text) in &DUMPS {
        let dump = dump_of(rt.alloc(), trace.get(..*read).ok_or("bytes")?)?;
        check_same_text(&rt, std::str::from_utf8(dump.bytes())?, text);
    }
    Ok(())
}
