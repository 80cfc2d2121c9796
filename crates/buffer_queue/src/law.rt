//! The rule that the queue and the views of all passes keep, and the steps that keep it.

ghost use Rattle.std.specs.Prelude.{◌≡◌, ◌<◌, length};

use crate::view::View;
use crossbeam_queue::RuledArrayQueue;
use crossbeam_queue::protocol::{Join, Lesson, Outcome, Protocol, Split};
use fdr_buffer::Buffer;
use std::marker::{Brand, PhantomData};

/// The rule of the pool: what is queued and what all passes know, between any two steps.
pub struct PoolRule;

impl Protocol<Buffer, View> for PoolRule {
    ghost use Rattle.buffer_queue.specs.{Rule.{KeepsPool}, Views.{opener}};

    ghost holds = { KeepsPool };

    ghost first = { opener };
}

/// The queue of a pool, which keeps its rule.
pub(crate) type Queue = RuledArrayQueue<Buffer, View, PoolRule>;

/// The setup that a pool is opened with. The call that opens the pool chooses it.
pub(crate) trait Opening {
    ghost use Rattle.machine_step.specs.declared.setup.Setup.{Setup};

    ghost setup: { Setup };
}

impl Opening for Brand {
    ghost use Rattle.buffer_queue.specs.Views.{no_setup};

    ghost setup = { no_setup };
}

/// The pass that the queue was made with makes pass 1, and is spent.
pub(crate) struct Opens<O: Opening> {
    of: PhantomData<O>,
}

impl<O: Opening> Split<View> for Opens<O> {
    ghost use Rattle.buffer_queue.specs.Views.{spent};
    ghost use Rattle.buffer_queue.specs.private.Changes.{head_view};

    ghost left = { λ v. spent };

    ghost right = { λ v. head_view O.setup 1 0 };
}

/// Pass 1 makes the pass of the next thread.
pub(crate) struct Gives;

impl Split<View> for Gives {
    ghost use Rattle.std.specs.Prelude.{◌+◌};
    ghost use Rattle.buffer_queue.specs.private.Changes.{giving, new_view};

    ghost left = { giving };

    ghost right = { λ v. new_view v.setup (v.given + 1) };
}

/// Pass 1 queues a fresh buffer.
pub(crate) struct Stocks;

impl Outcome<Buffer, View> for Stocks {
    ghost use Rattle.buffer_queue.specs.private.Changes.{stocking};

    ghost then = { λ v buffer w. w ≡ stocking v };
}

impl Lesson<Buffer, View> for Stocks {
    ghost fact = { λ v items. length items < v.setup.max };
}

/// A thread puts its full buffer at the back.
pub(crate) struct Puts;

impl Outcome<Buffer, View> for Puts {
    ghost use Rattle.buffer_queue.specs.private.Changes.{putting};

    ghost then = { λ v buffer w. w ≡ putting v buffer };
}

impl Lesson<Buffer, View> for Puts {
    ghost fact = { λ v items. length items < v.setup.max };
}

/// A thread that has put a buffer takes the one at the front.
pub(crate) struct Takes;

impl Outcome<Buffer, View> for Takes {
    ghost use Rattle.buffer_queue.specs.private.Changes.{taking};

    ghost then = { λ v buffer w. (w ≡ taking v) × (buffer.size ≡ v.setup.size) };
}

impl Lesson<Buffer, View> for Takes {
    ghost fact = { λ v items. 0 < length items };
}

/// Pass 1 is handed the pass of the next thread back.
pub(crate) struct TakesIn;

impl Join<View> for TakesIn {
    ghost use Rattle.buffer_queue.specs.Views.{spent};
    ghost use Rattle.buffer_queue.specs.private.Changes.{taking_in};

    ghost both = { λ v w. taking_in v w.sealed };

    ghost spent = { spent };
}

/// Pass 1 drains the buffer at the front.
pub(crate) struct Drains;

impl Outcome<Buffer, View> for Drains {
    ghost use Rattle.buffer_queue.specs.private.Changes.{draining};

    ghost then = { λ v buffer w. w ≡ draining v buffer };
}

impl Lesson<Buffer, View> for Drains {
    ghost fact = { λ v items. 0 < length items };
}

/// Pass 1 learns what it has drained.
pub(crate) struct HasDrained;

impl Lesson<Buffer, View> for HasDrained {
    ghost use Rattle.std.specs.Prelude.{◌∷◌};
    ghost use Rattle.buffer_queue.specs.Left.{IsLeft};

    ghost fact = { λ v items. IsLeft v.setup (v.sealed ∷ v.returned) v.drained };
}
