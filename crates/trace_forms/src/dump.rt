//! Dumps of traces.

ghost use Rattle.std.specs.{Prelude.{◌≡◌, ℕ, [], Ok}, Option.{unwrap_or}};
ghost use Rattle.fdr_file.specs.declared.trace.Trace.{Trace};
ghost use Rattle.fdr_file.specs.{Prefixes.{IsReadable}, Traces.{record_in, trace_of}};
ghost use Rattle.trace_words.specs.TraceWords.{trace_words};
ghost use Rattle.xray_io.specs.{Text.{AddsText}, Writes.{WritesText}};
ghost use Rattle.trace_forms.specs.Dumps.{dump_text, fault_in as first_fault, header_line, last_line, record_line, record_lines, standing_line};

use crate::record_row::put_line;
use crate::row::Row;
use fault_words::Fault;
use fdr_file::{
    EventCursor, HEADER_BYTES, KeepNothing, TraceFault, TraceScan, a_file_is_read_by_records,
    readable, record_len, record_of,
};
use fdr_record::Rec;
use trace_words::TraceRefusal;
use xray_io::{Piece, Printed, Sink, Text, WriteFault, write_text};

/// The dump of a file: a line for the header, and a line for each record of the longest prefix that
/// is a trace, each with its place, counted from the file's start. A last line says `end` and the
/// length of the file, if all of it is a trace. If not, it says `stop`, the length of the prefix, and
/// the first fault of the file.
#[derive(Clone, Copy)]
pub struct DumpText<'a> {
    /// The bytes of the file.
    pub bytes: &'a [u8],
    /// The length of its longest prefix that is a trace, as `readable` gives it.
    pub end: usize,
}

impl Printed for DumpText<'_> {
    ghost text = { λ dump. dump_text dump.bytes.now dump.end };

    ghost ready = { λ dump. IsReadable dump.bytes.now dump.end };

    fn add_to<S: Sink>(&self, to: &mut Text<S>) -> Result<(), WriteFault> {
        let prefix = &self.bytes[..self.end];
        add_header(to, prefix)?;
        add_records(to, prefix)?;
        add_last(to, self.end, fault_after(self.bytes, self.end))
    }
}

/// Writes the dump of a file, which [`DumpText`] describes. Some prefix of the file has to be a
/// trace: `readable` says whether one is. No memory is taken. After a `WriteFault` the sink was given
/// a prefix of the dump.
pub fn write_dump<S: Sink>(bytes: &[u8], sink: &mut S) -> Result<(), WriteFault>
    requires { (len : ℕ) × IsReadable bytes.now len }
    ensures writes { (len : ℕ) → IsReadable bytes.now len
        → WritesText S.written S.faults S.along sink.old sink.new (dump_text bytes.now len) result }
{
    match readable(bytes) {
        Ok(end) => write_text(&DumpText { bytes, end }, sink),
        Err(_) => unreachable!(),
    }
}

/// The first fault of bytes, if they aren't a trace. `end` is the length of their longest prefix that
/// is one. If that is all of them, they aren't read again.
fn fault_after(bytes: &[u8], end: usize) -> Option<TraceFault>
    requires { IsReadable bytes.now end }
    ensures { result ≡ first_fault bytes.now }
{
    if end == bytes.len() {
        return None;
    }
    fault_in(bytes)
}

/// The same, of any bytes.
fn fault_in(bytes: &[u8]) -> Option<TraceFault>
    ensures { result ≡ first_fault bytes.now }
{
    let mut scan = TraceScan::new();
    match scan.feed(bytes, &mut KeepNothing) {
        Ok(()) => scan.finish().err(),
        Err(_) => unreachable!(),
    }
}

/// Adds the line of the header.
fn add_header<S: Sink>(text: &mut Text<S>, bytes: &[u8]) -> Result<(), WriteFault>
    requires { (trace : Trace) × (trace_of bytes.now ≡ Ok trace) }
    ensures { AddsText S.written S.faults S.along text.old text.new (header_line bytes.now) result }
{
    a_file_is_read_by_records();
    let header = EventCursor::new(bytes).header();
    text.pieces(&[
        Piece::Bytes(b"0 header version "),
        Piece::Number(u128::from(header.version)),
        Piece::Bytes(b" type 1\n"),
    ])
}

/// Adds the lines of the records after the header.
fn add_records<S: Sink>(text: &mut Text<S>, bytes: &[u8]) -> Result<(), WriteFault>
    ensures { AddsText S.written S.faults S.along text.old text.new (record_lines bytes.now) result }
{
    let mut at = HEADER_BYTES;
    'lines: while at < bytes.len() {
        let rest = &bytes[at..];
        add_standing(text, at, rest)?;
        at += record_len(rest);
    }
    Ok(())
}

/// Adds the line of what is at a place, if it is a record. `rest` has the bytes from there on.
#[inline(always)]
fn add_standing<S: Sink>(text: &mut Text<S>, at: usize, rest: &[u8]) -> Result<(), WriteFault>
    ensures { AddsText S.written S.faults S.along text.old text.new
        (standing_line (at, record_in rest.now)) result }
{
    match record_of(rest) {
        Ok(rec) => add_record(text, at, &rec),
        Err(_) => Ok(()),
    }
}

/// Adds the line of the record at a place.
#[inline(always)]
fn add_record<S: Sink>(text: &mut Text<S>, at: usize, rec: &Rec) -> Result<(), WriteFault>
    ensures { AddsText S.written S.faults S.along text.old text.new
        (record_line at rec.now) result }
{
    let mut row = Row::new();
    put_line(&mut row, at, rec);
    text.bytes(row.as_slice())
}

/// Adds the last line: where the file ends, or where the prefix ends, and the fault of the file.
fn add_last<S: Sink>(
    text: &mut Text<S>,
    end: usize,
    fault: Option<TraceFault>,
) -> Result<(), WriteFault>
    ensures { AddsText S.written S.faults S.along text.old text.new (last_line end fault) result }
{
    let place = Piece::Number(end as u128);
    match fault {
        None => text.pieces(&[Piece::Bytes(b"end "), place, Piece::Bytes(b"\n")]),
        Some(fault) => {
            text.pieces(&[Piece::Bytes(b"stop "), place, Piece::Bytes(b" ")])?;
            add_fault(text, fault)?;
            text.bytes(b"\n")
        }
    }
}

/// Adds the words of a fault.
fn add_fault<S: Sink>(text: &mut Text<S>, fault: TraceFault) -> Result<(), WriteFault>
    ensures { AddsText S.written S.faults S.along text.old text.new
        (unwrap_or (trace_words fault) []) result }
{
    match (TraceRefusal { fault }).refusal() {
        Some(words) => text.pieces(&[words.first, words.second, words.third, words.fourth]),
        None => Ok(()),
    }
}
