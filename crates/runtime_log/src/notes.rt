//! What the events that are taken say, one after the other.
ghost use Rattle.std.specs.Prelude.{◌≡◌, ◌≤◌, ◌<◌, ◌+◌, ◌++◌, ◌^◌, [], ◌∷◌, List, None, if◌then◌else◌, min, max};
ghost use Rattle.std.specs.Option.{option_map_or};
ghost use Rattle.fdr_file.specs.ThreadEvents.{ThreadEvent};
ghost use Rattle.fdr_file.specs.Traces.{logs_arg};
ghost use Rattle.runtime_log.specs.private.Notes.{AreFew, EndsWith, HasNoted, NotesCounter, SameLog, does_fall, is_number, is_of, noted_to};

use crate::facts::Facts;
use fdr_record::{Event, Kind};

/// The last event: its thread and its counter.
#[derive(Clone, Copy)]
struct LastEvent {
    thread: u32,
    tsc: u64,
}

/// What the events so far say.
#[derive(Clone, Copy)]
pub(crate) struct Notes {
    /// The facts.
    pub(crate) facts: Facts,
    /// The last event.
    last: Option<LastEvent>,
    /// The thread of the last event with a lower counter than the event before it.
    fallen: Option<u32>,
}

/// The lower of two counters, if there is another one.
#[inline(always)]
fn least(first: Option<u64>, tsc: u64) -> u64
    ensures { result ≡ option_map_or (λ n. min n tsc) first tsc }
{
    match first {
        Some(first) => first.min(tsc),
        None => tsc,
    }
}

/// The higher of two counters, if there is another one.
#[inline(always)]
fn greatest(last: Option<u64>, tsc: u64) -> u64
    ensures { result ≡ option_map_or (λ n. max n tsc) last tsc }
{
    match last {
        Some(last) => last.max(tsc),
        None => tsc,
    }
}

/// How many arguments an event of this kind logs.
#[inline(always)]
fn arguments_of(kind: Kind) -> u64
    ensures { result ≡ (if logs_arg kind then 1 else 0) }
{
    match kind {
        Kind::Entry | Kind::Exit | Kind::TailExit => 0,
        Kind::EntryArgs => 1,
    }
}

/// Whether the last event is of this thread.
#[inline(always)]
fn is_of(last: Option<LastEvent>, thread: u32) -> bool
    ensures { result ≡ is_of last thread }
{
    match last {
        Some(last) => last.thread == thread,
        None => false,
    }
}

/// Whether a counter is lower than that of the last event, which is of the same thread.
#[inline(always)]
fn does_fall(last: Option<LastEvent>, thread: u32, tsc: u64) -> bool
    ensures { result ≡ does_fall last thread tsc }
{
    match last {
        Some(last) => last.thread == thread && tsc < last.tsc,
        None => false,
    }
}

/// Whether a number is this one.
#[inline(always)]
fn is_number(number: Option<u32>, thread: u32) -> bool
    ensures { result ≡ is_number number thread }
{
    match number {
        Some(number) => number == thread,
        None => false,
    }
}

impl Notes {
    /// Before the first event.
    pub(crate) fn new(facts: Facts) -> Notes
        requires { (facts.events ≡ 0) × (facts.arguments ≡ 0) × (facts.threads ≡ 0) × (facts.back ≡ 0)
            × (facts.first ≡ None) × (facts.last ≡ None) }
        ensures facts { result.facts ≡ facts }
        ensures few { AreFew result.facts }
        ensures notes { HasNoted [] result }
    {
        Notes {
            facts,
            last: None,
            fallen: None,
        }
    }

    /// Takes an event of a thread, and its counter.
    #[inline(always)]
    fn note_counter(&mut self, thread: u32, tsc: u64)
        requires few { (self.old.facts.threads < 2 ^ 63) × (self.old.facts.back < 2 ^ 63) }
        ensures notes { NotesCounter self.old thread tsc self.new }
    {
        if does_fall(self.last, thread, tsc) {
            if !is_number(self.fallen, thread) {
                self.facts.back += 1;
            }
            self.fallen = Some(thread);
        }
        if !is_of(self.last, thread) {
            self.facts.threads += 1;
        }
        self.facts.first = Some(least(self.facts.first, tsc));
        self.facts.last = Some(greatest(self.facts.last, tsc));
        self.last = Some(LastEvent { thread, tsc });
    }

    /// Takes an event of a thread.
    #[inline(always)]
    pub(crate) fn note(&mut self, thread: u32, event: &Event)
        requires few { AreFew self.old.facts }
        requires room { self.old.facts.events < 2 ^ 63 }
        ensures few { AreFew self.new.facts }
        ensures events { self.new.facts.events ≡ self.old.facts.events + 1 }
        ensures ends { EndsWith self.new thread event.now.tsc }
        ensures notes { (events : List ThreadEvent) (e : ThreadEvent) → HasNoted events self.old
            → e.thread ≡ thread → e.event ≡ event.now → HasNoted (events ++ e ∷ []) self.new }
        ensures log { SameLog self.old.facts self.new.facts }
    {
        self.facts.events += 1;
        self.facts.arguments += arguments_of(event.kind);
        self.note_counter(thread, event.tsc);
    }

    /// Takes so many events of the last event's thread. Their counters rise to this one, and none logs
    /// an argument.
    #[inline(always)]
    pub(crate) fn note_stretch(&mut self, thread: u32, count: u32, tsc: u64)
        requires room { self.old.facts.events + count < 2 ^ 64 }
        ensures { self.new ≡ noted_to self.old thread count tsc }
    {
        self.facts.events += u64::from(count);
        self.facts.last = Some(greatest(self.facts.last, tsc));
        self.last = Some(LastEvent { thread, tsc });
    }
}
