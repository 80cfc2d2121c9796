//! Basic logs as they are written.

ghost use Rattle.std.specs.{Prelude.{◌≡◌, ◌<◌, ◌^◌, None, length}, List.{flat_map}};
ghost use Rattle.fdr_record.specs.Records.{action_of};
ghost use Rattle.fdr_file.specs.ThreadEvents.{event_given, thread_events};
ghost use Rattle.xray_io.specs.{Text.{AddsText}, Writes.{WritesText}};
ghost use Rattle.trace_forms.specs.BasicLogs.{basic_bytes, basic_header_bytes, event_bytes, log_bytes, wide_cpu as first_wide};

use basic_record::{BASIC_TYPE, BASIC_VERSION, arg_logged};
use fdr_file::{CONSTANT, EventSource, Header, NONSTOP, Trace, TraceCursor};
use fdr_record::{Event, Kind};
use xray_io::{Piece, Printed, Sink, Text, WriteFault, write_text};

/// The greatest CPU that fits the byte for it.
const MOST_CPU: u16 = 255;

/// The two bytes that each record of an event begins with.
const TAG: [u8; 2] = [0; 2];

/// The reserved bytes of a header.
const RESERVED: [u8; 16] = [0; 16];

/// The number, from 0, of the first event of a trace whose CPU is above 255. Records of a basic log
/// have one byte for it. `None` if each CPU fits. The trace has to have fewer than 2^64 events. One
/// that was read has: see `what_is_read_fits` of `fdr_file`.
pub fn wide_cpu(trace: &Trace) -> Option<u64>
    requires { length (thread_events trace.now.blocks) < 2 ^ 64 }
    ensures { result ≡ first_wide (thread_events trace.now.blocks) }
{
    find_wide(&mut TraceCursor::new(trace))
}

/// The number of the first event with such a CPU, of those that are still to come.
pub(crate) fn find_wide<E: EventSource>(events: &mut E) -> Option<u64>
    requires { length (E.left events.old) < 2 ^ 64 }
    ensures { result ≡ first_wide (E.left events.old) }
{
    let mut number = 0;
    'narrow: while let Some((_, _, event)) = events.next_event() {
        if event.cpu > MOST_CPU {
            return Some(number);
        }
        number += 1;
    }
    None
}

/// A trace as a basic log: a header of 32 bytes, and 32 bytes for each event, in the order of the
/// file. The header has version 3, type 0 and both flags, and of the trace's header only the
/// frequency. Each CPU has to be below 256; see [`wide_cpu`].
///
/// The layout is that of LLVM's basic mode (`XRayRecord` of compiler-rt's `xray_records.h`), except
/// that an entry that logs its argument is one record, with the argument in its last eight bytes.
#[derive(Clone, Copy)]
pub struct BasicText<'a> {
    /// The trace.
    pub trace: &'a Trace,
}

impl Printed for BasicText<'_> {
    ghost text = { λ log. basic_bytes log.trace.now };

    ghost ready = { λ log. first_wide (thread_events log.trace.now.blocks) ≡ None };

    fn add_to<S: Sink>(&self, to: &mut Text<S>) -> Result<(), WriteFault> {
        add_log(to, &self.trace.header, &mut TraceCursor::new(self.trace))
    }
}

/// Writes a trace as a basic log, which [`BasicText`] describes. No memory is taken. After a
/// `WriteFault` the sink was given a prefix of the log.
pub fn write_basic<S: Sink>(trace: &Trace, sink: &mut S) -> Result<(), WriteFault>
    requires { first_wide (thread_events trace.now.blocks) ≡ None }
    ensures writes { WritesText S.written S.faults S.along sink.old sink.new
        (basic_bytes trace.now) result }
{
    write_text(&BasicText { trace }, sink)
}

/// Adds a log of the events that are still to come.
pub(crate) fn add_log<S: Sink, E: EventSource>(
    text: &mut Text<S>,
    header: &Header,
    events: &mut E,
) -> Result<(), WriteFault>
    requires { first_wide (E.left events.old) ≡ None }
    ensures { AddsText S.written S.faults S.along text.old text.new
        (log_bytes header.now (E.left events.old)) result }
{
    add_header(text, header)?;
    add_records(text, events)
}

/// Adds the header.
fn add_header<S: Sink>(text: &mut Text<S>, header: &Header) -> Result<(), WriteFault>
    ensures { AddsText S.written S.faults S.along text.old text.new
        (basic_header_bytes header.now) result }
{
    let version = BASIC_VERSION.to_le_bytes();
    let form = BASIC_TYPE.to_le_bytes();
    let flags = (CONSTANT + NONSTOP).to_le_bytes();
    let frequency = header.frequency.to_le_bytes();
    text.pieces(&[
        Piece::Bytes(&version),
        Piece::Bytes(&form),
        Piece::Bytes(&flags),
        Piece::Bytes(&frequency),
        Piece::Bytes(&RESERVED),
    ])
}

/// Adds the records of these events.
fn add_records<S: Sink, E: EventSource>(
    text: &mut Text<S>,
    events: &mut E,
) -> Result<(), WriteFault>
    requires { first_wide (E.left events.old) ≡ None }
    ensures { AddsText S.written S.faults S.along text.old text.new
        (flat_map event_bytes (E.left events.old)) result }
{
    'records: while let Some((thread, pid, event)) = events.next_event() {
        add_record(text, thread, pid, &event)?;
    }
    Ok(())
}

/// Adds the record of an event.
fn add_record<S: Sink>(
    text: &mut Text<S>,
    thread: u32,
    pid: u32,
    event: &Event,
) -> Result<(), WriteFault>
    requires { event.now.cpu < 256 }
    ensures { AddsText S.written S.faults S.along text.old text.new
        (event_bytes (event_given (thread, pid, event.now))) result }
{
    let place = [event.cpu as u8, number_of(event.kind)];
    let func = event.func.to_le_bytes();
    let tsc = event.tsc.to_le_bytes();
    let thread = thread.to_le_bytes();
    let pid = pid.to_le_bytes();
    let arg = arg_logged(event.kind, event.arg).to_le_bytes();
    text.pieces(&[
        Piece::Bytes(&TAG),
        Piece::Bytes(&place),
        Piece::Bytes(&func),
        Piece::Bytes(&tsc),
        Piece::Bytes(&thread),
        Piece::Bytes(&pid),
        Piece::Bytes(&arg),
    ])
}

/// The number of a kind.
fn number_of(kind: Kind) -> u8
    ensures { result ≡ action_of kind }
{
    match kind {
        Kind::Entry => 0,
        Kind::Exit => 1,
        Kind::TailExit => 2,
        Kind::EntryArgs => 3,
    }
}
