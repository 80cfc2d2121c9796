//! The events of a trace, one after the other, from its bytes.

ghost use Rattle.std.specs.Prelude.{◌≡◌, ◌<◌, [], ◌∷◌, Ok, None, IfSome, MatchOption, length, drop};
ghost use Rattle.fdr_file.specs.declared.trace.Trace.{Trace};
ghost use Rattle.fdr_file.specs.ThreadEvents.{event_given, thread_events};
ghost use Rattle.fdr_file.specs.Traces.{trace_of};
ghost use Rattle.fdr_file.specs.EventsLeft.{cursor_header, events_left};
ghost use Rattle.fdr_file.specs.private.Cursor.{cursor_passed, cursor_told, event_said};

use crate::events::take_step;
use crate::header::{HEADER_BYTES, read_header};
use crate::records::{record_len, record_of};
use crate::stage::{Inside, Stage, Told, end_among, judge, stage_at, within_events};
use crate::{Header, Version};
use fdr_record::Event;

/// Gives the events of a trace from its bytes, in the order of the file. It takes no memory.
#[derive(Drop)]
pub struct EventCursor<'a> {
    bytes: &'a [u8],
    version: Version,
    header: Header,
    /// The place of the next record.
    at: usize,
    stage: Stage,
    /// The thread and the process of the last block that was begun.
    thread: u32,
    pid: u32,
    /// An event of the records before that place that wasn't given yet.
    pending: Option<Event>,
}

/// The header of a file that isn't a trace.
const NO_HEADER: (Version, Header) = (
    Version::Three,
    Header {
        version: 0,
        constant: false,
        nonstop: false,
        frequency: 0,
        size: 0,
    },
);

impl<'a> EventCursor<'a> {
    /// A cursor before the first event of these bytes, which have to be a trace: `TraceScan` and
    /// `read_trace` say whether they are.
    pub fn new(bytes: &'a [u8]) -> EventCursor<'a>
        requires { (trace : Trace) × (trace_of bytes.now ≡ Ok trace) }
        ensures events { (trace : Trace) → trace_of bytes.now ≡ Ok trace
            → events_left result ≡ thread_events trace.blocks }
        ensures header { (trace : Trace) → trace_of bytes.now ≡ Ok trace
            → cursor_header result ≡ trace.header }
    {
        let (version, header) = read_header(bytes).unwrap_or(NO_HEADER);
        EventCursor {
            bytes,
            version,
            header,
            at: HEADER_BYTES,
            stage: Stage::Due,
            thread: 0,
            pid: 0,
            pending: None,
        }
    }

    /// The header of the trace.
    pub fn header(&self) -> Header
        ensures { result ≡ cursor_header self.now }
    {
        self.header
    }

    /// The next event, with its thread and its process. `None` after the last event.
    pub fn next(&mut self) -> Option<(u32, u32, Event)>
        ensures next { MatchOption result (events_left self.old ≡ [])
            (λ x. events_left self.old ≡ event_given x ∷ events_left self.new) }
        ensures header { cursor_header self.new ≡ cursor_header self.old }
    {
        match self.pending.take() {
            Some(event) => Some((self.thread, self.pid, event)),
            None => self.read_on(),
        }
    }

    /// The next event that the records from the cursor's place on say.
    fn read_on(&mut self) -> Option<(u32, u32, Event)>
        requires { self.old.pending ≡ None }
        ensures next { MatchOption result (events_left self.old ≡ [])
            (λ x. events_left self.old ≡ event_given x ∷ events_left self.new) }
        ensures header { cursor_header self.new ≡ cursor_header self.old }
    {
        'going: while self.at < self.bytes.len() {
            if let Some(event) = self.pass() {
                return Some((self.thread, self.pid, event));
            }
        }
        None
    }

    /// The stage after the next record, the place after it, and what it says, if it is a whole record
    /// among the events of a block.
    fn step(&self) -> Option<(Stage, usize, Told)>
        requires { self.now.at < length self.now.bytes.now }
        ensures passes { IfSome result (λ x. (cursor_told (record self.now { at = x.1; stage = x.0 }) x.2, x.2)
            ≡ cursor_passed self.now (drop self.now.at self.now.bytes.now)) }
        ensures further { IfSome result (λ x. self.now.at < x.1) }
    {
        let (span, base) = within_events(self.stage)?;
        let end = end_among(span, 0, self.bytes);
        let place = self.at as u64;
        let ((known, entry, event), next) = take_step(self.bytes, self.at, place, end, base)?;
        if next as u128 > span.end {
            return None;
        }
        let inside = Inside::Events { base: Some(known) };
        let stage = stage_at(span, next as u128, inside);
        Some((stage, next, Told::Noted { entry, event }))
    }

    /// Goes past a record. Returns the first event that it says, if it says one.
    fn pass(&mut self) -> Option<Event>
        requires { self.old.at < length self.old.bytes.now }
        ensures passes { let passed = cursor_passed self.old (drop self.old.at self.old.bytes.now) in
            (self.new ≡ passed.0) × (result ≡ event_said passed.1) }
        ensures further { self.old.at < self.new.at }
    {
        let Some((stage, next, told)) = self.step() else {
            return self.pass_any();
        };
        self.stage = stage;
        self.at = next;
        self.hear(told)
    }

    /// The same, for any record.
    fn pass_any(&mut self) -> Option<Event>
        requires { self.old.at < length self.old.bytes.now }
        ensures passes { let passed = cursor_passed self.old (drop self.old.at self.old.bytes.now) in
            (self.new ≡ passed.0) × (result ≡ event_said passed.1) }
        ensures further { self.old.at < self.new.at }
    {
        let bytes = &self.bytes[self.at..];
        let len = record_len(bytes);
        let (stage, told) = judge(
            self.version,
            self.stage,
            self.at as u64,
            len,
            record_of(bytes),
        );
        self.stage = stage;
        self.at += len;
        self.hear(told)
    }

    /// Keeps what a record says of the blocks. Returns the first event that it says, if it says one.
    fn hear(&mut self, told: Told) -> Option<Event>
        ensures cursor { self.new ≡ cursor_told self.old told }
        ensures event { result ≡ event_said told }
    {
        match told {
            Told::Nothing => None,
            Told::Begun { thread, pid, .. } => {
                self.thread = thread;
                self.pid = pid;
                None
            }
            Told::Noted { entry: None, event } => event,
            Told::Noted {
                entry: Some(entry),
                event,
            } => {
                self.pending = event;
                Some(entry)
            }
        }
    }
}
