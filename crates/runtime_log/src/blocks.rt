//! The blocks of a log, by their places.
ghost use Rattle.std.specs.Prelude.{◌≡◌, ◌<◌, ◌+◌, ◌++◌, ◌^◌, ◌≤◌, ℕ, All, List, IfSome, None, [], ◌∷◌, length, map, option_to_list};
ghost use Rattle.fdr_record.specs.Recordable.{IsRecordable};
ghost use Rattle.runtime_log.specs.Logs.{LogBlock as SaidBlock};
ghost use Rattle.fdr_file.specs.declared.trace.Block.{Block as TheBlock};
ghost use Rattle.runtime_log.specs.private.{Choices.{IsAt, LiesWithin, Shows}, Coming.{MayGive, events_to_come, recorder_events}, Packings.{Heads}, Passings.{event_at}, Stretches.{SaysStretch}, Walks.{settled, walk_events}};

use crate::basic::{BasicEvents, Passing};
use crate::stretch::Stretch;
use crate::version::{BasicVersion, LogVersion};
use crate::walk::BlockWalk;
use fdr_file::Told;
use fdr_record::Event;
use xray_io::Wall;

/// The mode that a log was written in.
#[derive(Clone, Copy)]
pub(crate) enum Mode {
    /// The Flight Data Recorder mode, in a version.
    Recorder(LogVersion),
    /// The basic mode, in a version.
    Basic(BasicVersion),
}

/// A block of the Flight Data Recorder mode: where it is, and what it says without its events.
#[derive(Clone, Copy)]
pub(crate) struct LogBlock {
    /// The place where it begins.
    pub(crate) begin: usize,
    /// The place after it.
    pub(crate) end: usize,
    /// The thread.
    pub(crate) thread: u32,
    /// The process.
    pub(crate) pid: u32,
    /// When it was begun.
    pub(crate) wall: Wall,
    /// The counter of its first event, if it has events.
    pub(crate) first: Option<u64>,
}

/// What a block says without its events.
#[derive(Clone, Copy)]
pub(crate) struct Head {
    /// The thread.
    pub(crate) thread: u32,
    /// The process.
    pub(crate) pid: u32,
    /// When it was begun.
    pub(crate) wall: Wall,
}

impl LogBlock {
    /// What it says without its events.
    pub(crate) fn head(&self) -> Head
        ensures { (b : TheBlock) → Shows self.now b → Heads result b }
    {
        Head {
            thread: self.thread,
            pid: self.pid,
            wall: self.wall,
        }
    }
}

/// The blocks of a log of the Flight Data Recorder mode, in the order of the file, how many events of
/// the program's own they have, and how many records are cut at their ends.
#[derive(Drop)]
pub(crate) struct LogBlocks {
    pub(crate) blocks: Vec<LogBlock>,
    pub(crate) custom: u64,
    pub(crate) typed: u64,
    pub(crate) cut: u64,
}

/// The events of a block of the Flight Data Recorder mode, one after the other.
#[derive(Clone, Copy)]
pub(crate) struct RecorderEvents<'a> {
    /// The way through the records that are left.
    walk: BlockWalk<'a>,
    /// The event that comes before theirs.
    pending: Option<Event>,
}

/// The events of a block of a log that was read, one after the other.
#[derive(Clone, Copy)]
pub(crate) enum BlockEvents<'a> {
    /// Of the Flight Data Recorder mode.
    Recorder(RecorderEvents<'a>),
    /// Of the basic mode.
    Basic(BasicEvents<'a>),
    /// None is left.
    Done,
}

/// The first event that a record settles, and the one after it.
#[inline(always)]
fn settled(told: Told) -> (Option<Event>, Option<Event>)
    ensures events { settled told ≡ option_to_list result.0 ++ option_to_list result.1 }
    ensures none { result.0 ≡ None → result.1 ≡ None }
{
    match told {
        Told::Nothing | Told::Begun { .. } => (None, None),
        Told::Noted { entry, event } => {
            if entry.is_some() {
                (entry, event)
            } else {
                (event, None)
            }
        }
    }
}

/// The next event of a block's records, and the one after it if it is known.
#[inline(always)]
fn next_told(walk: &mut BlockWalk) -> (Option<Event>, Option<Event>)
    requires few { walk.old.at + length walk.old.rest.now < 2 ^ 32 }
    ensures few { walk.new.at + length walk.new.rest.now < 2 ^ 32 }
    ensures gives { walk_events walk.old
        ≡ option_to_list result.0 ++ (option_to_list result.1 ++ walk_events walk.new) }
    ensures ends { result.0 ≡ None → walk_events walk.old ≡ [] }
{
    'records: while walk.left() > 0 {
        let told = match walk.step() {
            Ok((told, _)) => told,
            Err(_) => return (None, None),
        };
        let (first, later) = settled(told);
        if first.is_some() {
            return (first, later);
        }
    }
    (None, None)
}

impl<'a> RecorderEvents<'a> {
    /// The next event.
    #[inline(always)]
    fn next(&mut self) -> Option<Event>
        requires few { self.old.walk.at + length self.old.walk.rest.now < 2 ^ 32 }
        ensures few { self.new.walk.at + length self.new.walk.rest.now < 2 ^ 32 }
        ensures gives { recorder_events self.old ≡ option_to_list result ++ recorder_events self.new }
        ensures ends { result ≡ None → recorder_events self.old ≡ [] }
    {
        if let Some(event) = self.pending.take() {
            return Some(event);
        }
        let (event, later) = next_told(&mut self.walk);
        self.pending = later;
        event
    }

    /// The stretch that is next after an event, with at most so many bytes, if the last record is that of
    /// the event. Its events are gone past.
    #[inline(always)]
    fn stretch(&mut self, after: &Event, most: usize) -> Option<Stretch<'a>>
        requires few { self.old.walk.at + length self.old.walk.rest.now < 2 ^ 32 }
        ensures few { self.new.walk.at + length self.new.walk.rest.now < 2 ^ 32 }
        ensures gives { IfSome result (λ stretch. (bytes : List ℕ)
            × SaysStretch after.now stretch bytes (recorder_events self.old) (recorder_events self.new)) }
        ensures none { result ≡ None → recorder_events self.new ≡ recorder_events self.old }
        ensures within { IfSome result (λ stretch. length stretch.records.now ≤ most) }
    {
        if self.pending.is_some() || !self.walk.is_at(after) {
            return None;
        }
        let (stretch, walk) = self.walk.stretch(most)?;
        self.walk = walk;
        Some(stretch)
    }
}

impl<'a> BlockEvents<'a> {
    /// All events of a block of the Flight Data Recorder mode.
    pub(crate) fn of(bytes: &'a [u8], version: LogVersion, block: &LogBlock) -> BlockEvents<'a>
        requires few { length bytes.now < 2 ^ 30 }
        requires within { LiesWithin bytes.now block.now }
        ensures may { MayGive result }
        ensures all { (b : SaidBlock) → IsAt bytes.entry.now version block.now b
            → events_to_come result ≡ b.block.events }
        ensures recordable { All IsRecordable (events_to_come result) }
        ensures few { length (events_to_come result) < 2 ^ 31 }
    {
        match BlockWalk::open(version, block.begin as u64, &bytes[block.begin..]) {
            Ok(opened) => BlockEvents::Recorder(RecorderEvents {
                walk: opened.walk,
                pending: None,
            }),
            Err(_) => BlockEvents::Done,
        }
    }

    /// The events of passings of a basic log.
    pub(crate) fn of_passings(
        version: BasicVersion,
        bytes: &'a [u8],
        passings: &'a [Passing],
    ) -> BlockEvents<'a>
        ensures may { MayGive result }
        ensures all { events_to_come result ≡ map (λ p. event_at version bytes.entry.now p.at) passings.entry.now }
        ensures recordable { All IsRecordable (events_to_come result) }
    {
        BlockEvents::Basic(BasicEvents::new(version, bytes, passings))
    }

    /// The next event.
    #[inline(always)]
    pub(crate) fn next(&mut self) -> Option<Event>
        requires may { MayGive self.old }
        ensures may { MayGive self.new }
        ensures gives { IfSome result (λ event. events_to_come self.old ≡ event ∷ events_to_come self.new) }
        ensures ends { result ≡ None → events_to_come self.old ≡ [] }
    {
        match self {
            BlockEvents::Recorder(events) => events.next(),
            BlockEvents::Basic(events) => events.next(),
            BlockEvents::Done => None,
        }
    }

    /// The stretch that is next after an event, with at most so many bytes. Its events are gone past.
    /// `None` if no stretch is next, or if the last record isn't that of the event.
    #[inline(always)]
    pub(crate) fn stretch(&mut self, after: &Event, most: usize) -> Option<Stretch<'a>>
        requires may { MayGive self.old }
        ensures may { MayGive self.new }
        ensures gives { IfSome result (λ stretch. (bytes : List ℕ)
            × SaysStretch after.now stretch bytes (events_to_come self.old) (events_to_come self.new)) }
        ensures none { result ≡ None → events_to_come self.new ≡ events_to_come self.old }
        ensures within { IfSome result (λ stretch. length stretch.records.now ≤ most) }
    {
        match self {
            BlockEvents::Recorder(events) => events.stretch(after, most),
            BlockEvents::Basic(_) | BlockEvents::Done => None,
        }
    }
}
