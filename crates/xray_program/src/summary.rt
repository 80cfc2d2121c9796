//! The summary that `soak` prints.
ghost use Rattle.std.specs.Prelude.{◌≡◌, ◌++◌, All, IfOk, IsTrue, Ok, codes, decimal, length, sum_by};
ghost use Rattle.fdr_file.specs.{Files.{file_bytes}, Traces.{trace_of}};
ghost use Rattle.fdr_file.specs.declared.trace.Trace.{Trace};
ghost use Rattle.machine_step.specs.Texts.{line_feed};
ghost use Rattle.trace_flush.specs.{Audit.{recycled_by, thread_audits}, Flush.{run_header}};
ghost use Rattle.xray_io.specs.{Memory.{sink_bytes}, Text.{AddsText}};
ghost use Rattle.xray_program.specs.Soak.{IsSummary, soak_setup, trace_lines};
ghost use Rattle.xray_program.specs.private.Drawn.{IsReadBack, summary_with};

use crate::drawn::{SOAK_SETUP, drawn_inputs, replayed, unrefused};
use crate::traced::room_for;
use account_report::{AccountRow, account};
use fdr_buffer::Buffer;
use fdr_file::{Trace, a_trace_is_read, read_trace, write_file};
use machine_step::{Cpu, Steps};
use std::alloc::Global;
use trace_flush::{AuditLine, a_run_is_audited, add_audit_lines, add_summary, trace_header};
use trace_words::TraceRefusal;
use xray_io::{MemSink, NoMemory, Piece, Printed, Sink, Text, WriteFault, write_text};

/// What was read back of a trace.
#[derive(Drop)]
struct ReadBack {
    /// The length of the trace file in bytes.
    bytes: u64,
    /// The account of the trace.
    rows: Vec<AccountRow>,
}

/// The summary of a number, in memory.
pub(crate) fn summary_of(alloc: Global, number: u64) -> Result<MemSink, NoMemory>
    ensures { IfOk result (λ sink. IsSummary number (sink_bytes sink)) }
{
    // Called for its contract: the lines of the threads are those of the run.
    a_run_is_audited();
    let inputs = drawn_inputs(alloc, number)?;
    let steps = Steps::new(alloc, &inputs.image)?;
    let end = replayed(alloc, &steps, &inputs)?;
    let back = read_back(alloc, &end.buffers)?;
    let mut lines = room_for(alloc, SOAK_SETUP.threads)?;
    add_audit_lines(&end.cpus, &end.segments, &end.first, &mut lines);
    summed_up(alloc, number, &lines, &end.cpus, &back)
}

/// A summary in memory.
fn summed_up(
    alloc: Global,
    number: u64,
    lines: &[AuditLine],
    cpus: &[Cpu],
    back: &ReadBack,
) -> Result<MemSink, NoMemory>
    requires { length lines.now ≡ length cpus.now }
    ensures { IfOk result (λ sink. sink_bytes sink
        ≡ summary_with number (thread_audits lines.now cpus.now) (recycled_by lines.now)
        back.now.bytes back.now.rows.items) }
{
    let mut sink = MemSink::new(alloc, Vec::new(alloc));
    let summary = Summary {
        number,
        lines,
        cpus,
        back,
    };
    match write_text(&summary, &mut sink) {
        Ok(()) => Ok(sink),
        Err(WriteFault) => Err(NoMemory),
    }
}

/// Writes the file of these buffers into memory, and reads it back.
fn read_back(alloc: Global, buffers: &[Buffer]) -> Result<ReadBack, NoMemory>
    requires begun { All (λ buffer. IsTrue buffer.begun) buffers.now }
    ensures { IfOk result (λ back.
        IsReadBack (file_bytes (run_header soak_setup) buffers.now) back.bytes back.rows.items) }
{
    // Called for its contract: the trace that is written is the one that is read.
    a_trace_is_read();
    let header = trace_header(&SOAK_SETUP);
    let mut file = MemSink::new(alloc, Vec::new(alloc));
    match write_file(&header, buffers, &mut file) {
        Ok(()) => accounted(alloc, file.bytes()),
        Err(WriteFault) => Err(NoMemory),
    }
}

/// The length of a file, and the account of the trace that it is read as.
fn accounted(alloc: Global, bytes: &[u8]) -> Result<ReadBack, NoMemory>
    requires { (trace : Trace) × (trace_of bytes.now ≡ Ok trace) }
    ensures { IfOk result (λ back. IsReadBack bytes.now back.bytes back.rows.items) }
{
    let trace = trace_in(alloc, bytes)?;
    let rows = account(alloc, &trace)?;
    Ok(ReadBack {
        bytes: bytes.len() as u64,
        rows,
    })
}

/// The trace that bytes are read as.
fn trace_in(alloc: Global, bytes: &[u8]) -> Result<Trace, NoMemory>
    requires { (trace : Trace) × (trace_of bytes.now ≡ Ok trace) }
    ensures { IfOk result (λ trace. trace_of bytes.now ≡ Ok trace) }
{
    let read = match read_trace(alloc, bytes) {
        Ok(trace) => Ok(trace),
        Err(fault) => Err(TraceRefusal { fault }),
    };
    unrefused(read)
}

/// What is summed up of a run and its trace.
#[derive(Drop)]
struct Summary<'a, 'i> {
    /// The number that the inputs were drawn from.
    number: u64,
    /// What is said of each thread.
    lines: &'a [AuditLine],
    /// The threads, as many as lines and in the same order.
    cpus: &'a [Cpu<'i>],
    /// What was read back of the trace.
    back: &'a ReadBack,
}

impl Printed for Summary<'_, '_> {
    ghost text = { λ all. summary_with all.number (thread_audits all.lines.now all.cpus.now) (recycled_by all.lines.now)
        all.back.now.bytes all.back.now.rows.items };

    ghost ready = { λ all. length all.lines.now ≡ length all.cpus.now };

    fn add_to<S: Sink>(&self, to: &mut Text<S>) -> Result<(), WriteFault> {
        add_number(to, self.number)?;
        add_summary(to, self.lines, self.cpus)?;
        add_trace(to, self.back)
    }
}

/// Adds the line of the number.
fn add_number<S: Sink>(text: &mut Text<S>, number: u64) -> Result<(), WriteFault>
    ensures { AddsText S.written S.faults S.along text.old text.new
        (codes "soak " ++ decimal number ++ line_feed) result }
{
    text.pieces(&[
        Piece::Bytes(b"soak "),
        Piece::Number(u128::from(number)),
        Piece::Bytes(b"\n"),
    ])
}

/// Adds the lines of the trace.
fn add_trace<S: Sink>(text: &mut Text<S>, back: &ReadBack) -> Result<(), WriteFault>
    ensures { AddsText S.written S.faults S.along text.old text.new
        (trace_lines back.now.bytes back.now.rows.items) result }
{
    text.pieces(&[
        Piece::Bytes(b"trace "),
        Piece::Number(u128::from(back.bytes)),
        Piece::Bytes(b"\npairs "),
        Piece::Number(pairs(&back.rows)),
        Piece::Bytes(b" entries "),
        Piece::Number(entries(&back.rows)),
        Piece::Bytes(b" exits "),
        Piece::Number(exits(&back.rows)),
        Piece::Bytes(b"\n"),
    ])
}

/// How many pairs of an entry and an exit the functions have.
fn pairs(rows: &[AccountRow]) -> u128
    ensures { result ≡ sum_by (λ row. row.count) rows.now }
{
    rows.iter().map(|row| u128::from(row.count)).sum()
}

/// How many entries of the functions aren't in a pair.
fn entries(rows: &[AccountRow]) -> u128
    ensures { result ≡ sum_by (λ row. row.entries) rows.now }
{
    rows.iter().map(|row| u128::from(row.entries)).sum()
}

/// How many exits and tail exits of the functions aren't in a pair.
fn exits(rows: &[AccountRow]) -> u128
    ensures { result ≡ sum_by (λ row. row.exits) rows.now }
{
    rows.iter().map(|row| u128::from(row.exits)).sum()
}
