//! A run of the top call, and what it leaves.
use crate::checks::{check_same, check_same_at};
use std::alloc::Global;
use std::process::Abort;
use std::sync::Wait;
use std::test::Fail;
use std::thread::Threads;
use xray_io::{Desk, Gate, MemSink, OpenGate, Sink, Wall};
use xray_program::{may_wait, xray, xray_still};

/// What a run left: its status, and what was written on out and err.
#[derive(Drop)]
pub struct Run {
    pub status: u8,
    pub out: String,
    pub err: String,
}

/// Runs the top call over a desk. A line says its words.
pub fn run_line<R: Threads + Wait + Sync + AllocGlobal, D: Desk>(
    rt: &R,
    line: &str,
    desk: &mut D,
) -> Result<Run, Fail> {
    run_at(rt, line, desk, &OpenGate)
}

/// Runs the top call with a gate over a desk.
pub fn run_at<R: Threads + Wait + Sync + AllocGlobal, D: Desk, G: Gate + Sync>(
    rt: &R,
    line: &str,
    desk: &mut D,
    gate: &G,
) -> Result<Run, Fail> {
    let alloc = rt.alloc();
    let mut out = MemSink::new(alloc, Vec::new(alloc));
    let mut err = MemSink::new(alloc, Vec::new(alloc));
    let status = status_of(rt, line, desk, &mut out, &mut err, gate)?;
    Ok(Run {
        status,
        out: text_of(alloc, &out)?,
        err: text_of(alloc, &err)?,
    })
}

/// Runs the top call with a gate, over a desk and sinks, and returns its status.
pub fn status_of<R: Threads + Wait + Sync + AllocGlobal, D: Desk, O: Sink, E: Sink, G: Gate + Sync>(
    rt: &R,
    line: &str,
    desk: &mut D,
    out: &mut O,
    err: &mut E,
    gate: &G,
) -> Result<u8, Fail> {
    let alloc = rt.alloc();
    let mut said = Vec::new(alloc);
    for word in line.split_whitespace() {
        said.push(String::from_str(alloc, word)?)?;
    }
    let wall = Wall { secs: 7, micros: 8 };
    let status = if may_wait(&said) {
        xray(rt, alloc, &said, wall, desk, out, err, gate)
    } else {
        xray_still(alloc, &said, wall, desk, out, err)
    };
    Ok(status)
}

/// Checks the status of a run, and what it wrote on out and on err. A failure also shows a text, as the line of the
/// run.
pub fn assert_left<R: Abort>(rt: &R, run: &Run, status: u8, out: &str, err: &str, text: &str) {
    check_same_at(rt, &run.err.as_str(), &err, text);
    check_same_at(rt, &run.status, &status, text);
    check_same_at(rt, &run.out.as_str(), &out, text);
}

/// Checks that a run is done, and wrote nothing on err.
pub fn assert_no_fault<R: Abort>(rt: &R, run: &Run) {
    check_same(rt, &run.err.as_str(), &"");
    check_same(rt, &run.status, &0);
}

fn text_of(alloc: Global, sink: &MemSink) -> Result<String, Fail> {
    let text = std::str::from_utf8(sink.bytes())?;
    Ok(String::from_str(alloc, text)?)
}
