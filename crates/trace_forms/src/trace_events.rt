//! Trace events as JSON.

ghost use Rattle.std.specs.{Prelude.{◌≡◌, ◌+◌, ◌<◌, ◌≤◌, ◌↔◌, [], ◌++◌, ⊤, Err, IfOk, IfSome, IsTrue, MatchBool, length}, Option.{option_map}};
ghost use Rattle.fdr_file.specs.ThreadEvents.{event_given, thread_events};
ghost use Rattle.function_names.specs.Name.{image_names, naming};
ghost use Rattle.xray_io.specs.Text.{AddsText};
ghost use Rattle.trace_forms.specs.TraceEvents.{events_text, most_events, phase_text, trace_events_text};
ghost use Rattle.trace_forms.specs.private.Texts.{arg_shown, arg_start, event_end, event_json, event_start, later_json, list_json};

use crate::escaped::add_escaped_name;
use crate::gathered::Gathered;
use crate::row::{ROOM, Row};
use fdr_file::{EventSource, Trace, TraceCursor};
use fdr_record::{Event, Kind};
use function_names::Names;
use std::alloc::Global;
use thiserror::Error;
use xray_image::Image;
use xray_io::{Printed, Sink, Text, WriteFault, write_text};

/// The most events that a text of trace events may have.
pub const MOST_EVENTS: u32 = 1_048_576;

/// The length of the longest text between two objects.
const MOST_BEFORE: usize = 1;

/// The length of the longest start of an object up to the CPU of its event.
const MOST_OF_ARG: usize = 43;

/// The length of the letter for a kind of events.
const MOST_OF_PHASE: usize = 1;

/// Why a trace has no text of trace events.
#[derive(Clone, Copy, Debug, PartialEq, Eq, Error)]
pub enum EventFault {
    /// It has more than 1,048,576 events.
    #[error("a trace has more than 1048576 events")]
    Many,
    /// Memory for the text was refused.
    #[error("out of memory")]
    NoMemory,
}

/// The events of a trace as one JSON object, in the form of Chrome's trace events: a member
/// `traceEvents`, whose array has an object for each event, in the order of the file, and then a line
/// feed. It is the compact text that `serde_json` writes of this object.
///
/// `ph` is `B` for an entry, and `E` for an exit and a tail exit. `ts` is the counter, in cycles,
/// though viewers take it for microseconds. `cpu` is the CPU, `pid` the process and `tid` the thread.
/// An entry that logs its argument has it in `args`, as `arg`.
#[derive(Clone, Copy)]
pub struct EventsText<'a> {
    /// The trace.
    pub trace: &'a Trace,
    /// What names the functions of the events. If a name isn't known, it is `#` and the id.
    pub names: Names<'a>,
}

impl Printed for EventsText<'_> {
    ghost text = { λ t. trace_events_text (naming t.names) t.trace.now };

    ghost ready = { λ _. ⊤ };

    fn add_to<S: Sink>(&self, to: &mut Text<S>) -> Result<(), WriteFault> {
        add_events(to, &mut TraceCursor::new(self.trace), self.names)
    }
}

/// Whether more than 1,048,576 events are still to come. Some of them are taken from the source.
pub fn has_too_many<E: EventSource>(events: &mut E) -> bool
    ensures { IsTrue result ↔ (most_events < length (E.left events.old)) }
{
    'counting: for _ in 0..MOST_EVENTS {
        if !take_event(events) {
            return false;
        }
    }
    take_event(events)
}

/// Takes the next event from the source. Whether there was one.
fn take_event<E: EventSource>(events: &mut E) -> bool
    ensures { MatchBool result (length (E.left events.old) ≡ length (E.left events.new) + 1)
        (E.left events.old ≡ []) }
{
    events.next_event().is_some()
}

/// The text of the events of a trace, which [`EventsText`] describes, with the names that an image
/// gives to its functions.
///
/// `Many` is returned exactly if the trace has more than 1,048,576 events. `NoMemory` may come in
/// place of a text.
pub fn event_text(
    alloc: Global,
    trace: &Trace,
    image: Option<&Image>,
) -> Result<Vec<u8>, EventFault>
    ensures text { IfOk result (λ text. text.items
        ≡ trace_events_text (image_names (option_map (λ image. image.now) image.entry)) trace.now) }
    ensures many { (result ≡ Err EventFault.Many)
        ↔ (most_events < length (thread_events trace.now.blocks)) }
{
    if has_too_many(&mut TraceCursor::new(trace)) {
        return Err(EventFault::Many);
    }
    let names = Names::of_image(image);
    match gather(alloc, &EventsText { trace, names }) {
        Some(text) => Ok(text),
        None => Err(EventFault::NoMemory),
    }
}

/// The text of these events, if memory isn't refused.
fn gather(alloc: Global, events: &EventsText) -> Option<Vec<u8>>
    ensures { IfSome result (λ text. text.items
        ≡ trace_events_text (naming events.now.names) events.now.trace.now) }
{
    let mut sink = Gathered::new(alloc);
    match write_text(events, &mut sink) {
        Ok(()) => Some(sink.into_vec()),
        Err(_) => None,
    }
}

/// Adds the text of the events that are still to come.
pub(crate) fn add_events<S: Sink, E: EventSource>(
    text: &mut Text<S>,
    events: &mut E,
    names: Names,
) -> Result<(), WriteFault>
    ensures { AddsText S.written S.faults S.along text.old text.new
        (events_text (naming names.entry) (E.left events.old)) result }
{
    text.bytes(b"{\"traceEvents\":[")?;
    add_list(text, events, names)?;
    text.bytes(b"]}\n")
}

/// Adds the objects of these events, with commas between them.
fn add_list<S: Sink, E: EventSource>(
    text: &mut Text<S>,
    events: &mut E,
    names: Names,
) -> Result<(), WriteFault>
    ensures { AddsText S.written S.faults S.along text.old text.new
        (list_json (naming names.entry) (E.left events.old)) result }
{
    match events.next_event() {
        None => Ok(()),
        Some((thread, pid, event)) => {
            add_event(text, b"", names, thread, pid, &event)?;
            add_later(text, events, names)
        }
    }
}

/// Adds the objects of these events, with a comma before each.
fn add_later<S: Sink, E: EventSource>(
    text: &mut Text<S>,
    events: &mut E,
    names: Names,
) -> Result<(), WriteFault>
    ensures { AddsText S.written S.faults S.along text.old text.new
        (later_json (naming names.entry) (E.left events.old)) result }
{
    'objects: while let Some((thread, pid, event)) = events.next_event() {
        add_event(text, b",", names, thread, pid, &event)?;
    }
    Ok(())
}

/// Adds the object of an event, after a comma or after nothing.
#[inline(always)]
fn add_event<S: Sink>(
    text: &mut Text<S>,
    before: &[u8],
    names: Names,
    thread: u32,
    pid: u32,
    event: &Event,
) -> Result<(), WriteFault>
    requires { length before.now ≤ MOST_BEFORE }
    ensures { AddsText S.written S.faults S.along text.old text.new
        (before.now ++ event_json (naming names.entry)
        (event_given (thread, pid, event.now))) result }
{
    let mut row = Row::new();
    put_start(&mut row, before, event);
    text.bytes(row.as_slice())?;
    add_escaped_name(text, names, event.func)?;
    add_end(text, thread, pid, event)
}

/// Adds the object of an event from the end of its name on.
#[inline(always)]
fn add_end<S: Sink>(
    text: &mut Text<S>,
    thread: u32,
    pid: u32,
    event: &Event,
) -> Result<(), WriteFault>
    ensures { AddsText S.written S.faults S.along text.old text.new
        (event_end (event_given (thread, pid, event.now))) result }
{
    let mut row = Row::new();
    put_end(&mut row, thread, pid, event);
    text.bytes(row.as_slice())
}

/// Puts the object of an event up to its name into an empty row, after a comma or after nothing.
#[inline(always)]
fn put_start(row: &mut Row, before: &[u8], event: &Event)
    requires none { row.old ≡ [] }
    requires few { length before.now ≤ MOST_BEFORE }
    ensures { row.new ≡ before.now ++ event_start event.now }
{
    row.put(b",\"name\":\"");
    row.put_number(u64::from(event.cpu));
    put_arg(row, event);
    row.put(before);
}

/// Puts the start of an object up to the CPU of its event before the row. It begins with the
/// argument, if the event logs one.
#[inline(always)]
fn put_arg(row: &mut Row, event: &Event)
    requires { MOST_OF_ARG + length row.old ≤ ROOM }
    ensures text { row.new ≡ arg_start (arg_shown event.now.kind event.now.arg) ++ row.old }
    ensures short { length row.new ≤ MOST_OF_ARG + length row.old }
{
    match arg_of(event) {
        None => row.put(b"{\"cpu\":"),
        Some(arg) => {
            row.put(b"},\"cpu\":");
            row.put_number(arg);
            row.put(b"{\"args\":{\"arg\":");
        }
    }
}

/// The argument of an event, if it logs one.
#[inline(always)]
fn arg_of(event: &Event) -> Option<u64>
    ensures { result ≡ arg_shown event.now.kind event.now.arg }
{
    match event.kind {
        Kind::Entry | Kind::Exit | Kind::TailExit => None,
        Kind::EntryArgs => Some(event.arg),
    }
}

/// Puts the object of an event from the end of its name on into an empty row.
#[inline(always)]
fn put_end(row: &mut Row, thread: u32, pid: u32, event: &Event)
    requires { row.old ≡ [] }
    ensures { row.new ≡ event_end (event_given (thread, pid, event.now)) }
{
    row.put(b"}");
    row.put_number(event.tsc);
    row.put(b",\"ts\":");
    row.put_number(u64::from(thread));
    row.put(b",\"tid\":");
    row.put_number(u64::from(pid));
    row.put(b"\",\"pid\":");
    put_phase(row, event.kind);
    row.put(b"\",\"ph\":\"");
}

/// Puts the letter for a kind of events before the row: `B` begins a call, and `E` ends one.
#[inline(always)]
fn put_phase(row: &mut Row, kind: Kind)
    requires { MOST_OF_PHASE + length row.old ≤ ROOM }
    ensures text { row.new ≡ phase_text kind ++ row.old }
    ensures short { length row.new ≤ MOST_OF_PHASE + length row.old }
{
    match kind {
        Kind::Entry | Kind::EntryArgs => row.put(b"B"),
        Kind::Exit | Kind::TailExit => row.put(b"E"),
    }
}
