//! A recorder over the buffers of a pool.

ghost use Rattle.std.specs.Prelude.{◌≡◌, ◌<◌, ◌-◌, ◌^◌, [], ◌∷◌, ◌++◌, List, IsTrue, length, true, false};
ghost use Rattle.fdr_record.specs.declared.event.Event.{Event};
ghost use Rattle.fdr_record.specs.Recordable.{IsRecordable};
ghost use Rattle.fdr_buffer.specs.Segments.{has_room};
ghost use Rattle.buffer_queue.specs.Passes.{new_hand, IsOf};

use crate::exchange::{Preamble, next_segment};
use buffer_queue::{Pool, PoolPass};
use fdr_buffer::Buffer;
use fdr_record::{Event, Recorder};
use machine_step::Setup;
use std::marker::Model;
use std::sync::Wait;

/// Records the events of one thread in the buffers of a pool that all threads share.
///
/// The thread fills the buffer in its hand. If an event has no room there, the thread seals the
/// buffer, gets another one by `Pool::turn`, and begins its next segment in it. So the thread
/// always has its last segment, and the pool has the earlier ones that weren't overwritten.
#[derive(Drop)]
pub struct FdrRecorder<'p, T> {
    rt: &'p T,
    pool: &'p Pool,
    pass: PoolPass,
    /// The buffer in the thread's hand. It is missing only within `turn`.
    hand: Option<Buffer>,
    preamble: Preamble,
}

impl<'p, T> Model for FdrRecorder<'p, T> {
    ghost use Rattle.std.specs.Prelude.{◌≡◌, ◌<◌, ◌-◌, ◌^◌, length, IsSome};
    ghost use Rattle.buffer_queue.specs.Passes.{IsOf};
    ghost use Rattle.thread_run.specs.Recordings.{Recording};
    ghost use Rattle.thread_run.specs.private.Segments.{in_hand, IsPreambleOf};

    ghost Value = { Recording };

    ghost view = { λ r. record { pass = r.pass; hand = in_hand r.hand } };

    ghost invariant = { λ r. IsSome r.hand × IsOf r.pool.now r.pass × IsPreambleOf r.pass r.preamble
        × (length r.pass.sealed < 2 ^ 32 - 1) };
}

impl<'p, T> FdrRecorder<'p, T> {
    ghost use Rattle.thread_run.specs.Recordings.{segments_begun, segments_in, StandsFor};

    /// The recorder of a thread, with what the pool gave the thread: its pass and a fresh buffer. It
    /// stands for no event.
    ///
    /// It keeps the runtime, through which its `note` may wait.
    pub fn new(
        rt: &'p T,
        pool: &'p Pool,
        pass: PoolPass,
        hand: Buffer,
        thread: u32,
        setup: &Setup,
    ) -> FdrRecorder<'p, T>
        requires setup { pool.now.setup ≡ setup.now }
        requires hand { (pass, hand) ≡ new_hand pool.now thread }
        ensures pass { result.pass ≡ pass }
        ensures hand { result.hand ≡ hand }
        ensures no_events { StandsFor result [] }
    {
        let preamble = Preamble {
            thread,
            wall: setup.wall,
            pid: setup.pid,
        };
        FdrRecorder {
            rt,
            pool,
            pass,
            hand: Some(hand),
            preamble,
        }
    }

    /// Into how many segments the events were cut.
    pub fn segments(&self) -> u32
        ensures begun { result ≡ segments_begun self.now }
        ensures count { (events : List Event) → StandsFor self.now events
            → result ≡ length (segments_in self.now events) }
    {
        match &self.hand {
            Some(hand) => self.pass.sealed() + u32::from(hand.begun()),
            None => unreachable!(),
        }
    }

    /// Whether a segment is begun that has room for the event.
    fn has_room(&self, event: &Event) -> bool
        ensures room { (result ≡ true) → (self.now.hand.begun ≡ true)
            × (has_room self.now.hand.size (self.now.hand.events ++ event.now ∷ []) ≡ true) }
        ensures full { (result ≡ false) → (self.now.hand.begun ≡ true)
            → has_room self.now.hand.size (self.now.hand.events ++ event.now ∷ []) ≡ false }
    {
        match &self.hand {
            Some(hand) => hand.begun() && hand.fits(event),
            None => unreachable!(),
        }
    }

    /// Adds an event to the segment in hand.
    fn put(&mut self, event: &Event)
        requires begun { IsTrue self.old.hand.begun }
        requires room { IsTrue (has_room self.old.hand.size (self.old.hand.events ++ event.now ∷ [])) }
        requires recordable { IsRecordable event.now }
        ensures { self.new
            ≡ record self.old { hand = record self.old.hand { events = self.old.hand.events ++ event.now ∷ [] } } }
    {
        match &mut self.hand {
            Some(hand) => hand.put(event),
            None => unreachable!(),
        }
    }

    /// The thread's pass and the buffer in its hand.
    pub fn parts(self) -> (PoolPass, Buffer)
        ensures pass { result.0 ≡ self.entry.pass }
        ensures hand { result.1 ≡ self.entry.hand }
    {
        let FdrRecorder {
            rt: _,
            pool: _,
            pass,
            hand,
            preamble: _,
        } = self;
        match hand {
            Some(hand) => (pass, hand),
            None => unreachable!(),
        }
    }
}

impl<'p, T: Wait> FdrRecorder<'p, T> {
    ghost use Rattle.thread_run.specs.Recordings.{StandsFor};
    ghost use Rattle.thread_run.specs.private.Segments.{CutsAnew, StandsForMore};

    /// Begins a segment with an event. The hand has no room for the event, or there is no segment yet.
    fn turn(&mut self, event: &Event)
        requires recordable { IsRecordable event.now }
        requires room { (events : List Event) × StandsFor self.old events × (length events < 2 ^ 32 - 1) }
        requires anew { (events : List Event) → StandsFor self.old events → CutsAnew self.old events event.now }
        ensures { StandsForMore self.old self.new event.now }
    {
        let hand = match self.hand.take() {
            Some(hand) => hand,
            None => unreachable!(),
        };
        let next = next_segment(
            self.rt,
            self.pool,
            &mut self.pass,
            hand,
            &self.preamble,
            event,
        );
        self.hand = Some(next);
    }
}

impl<'p, T: Wait> Recorder for FdrRecorder<'p, T> {
    ghost use Rattle.thread_run.specs.Recordings.{HasSameOwner, StandsFor, same_along, same_itself};

    ghost stands = { StandsFor };

    ghost follows = { HasSameOwner };

    ghost follows_itself = { same_itself };

    ghost follows_along = { same_along };

    fn note(&mut self, event: Event) {
        if self.has_room(&event) {
            self.put(&event);
        } else {
            self.turn(&event);
        }
    }
}
