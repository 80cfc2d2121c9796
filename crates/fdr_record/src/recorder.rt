//! What a traced thread gives its events to.
ghost use Rattle.std.specs.Prelude.{◌<◌, ◌^◌, ◌-◌, [], ◌∷◌, ◌++◌, List, length};
ghost use Rattle.fdr_record.specs.declared.event.Event.{Event};
ghost use Rattle.fdr_record.specs.Recordable.{IsRecordable};

use crate::Event;

/// A place that takes the events of one thread, the first one first. It may keep all of them or only
/// the last ones: it stands for all that were noted.
pub trait Recorder {
    /// What the recorder holds is what it keeps of these events, which were noted in this order.
    ghost stands: { Self → List Event → Type 0 };

    /// What stays the same, from one state of the recorder to a later one, of what it was made with:
    /// as its thread, its size and the pool that its buffers come from.
    ghost follows: { Self → Self → Type 0 };

    /// Notes an event after the others. Its function's id has to be below 2^28, since a function
    /// record has 28 bits for it. Its argument has to be 0 if its kind logs none. Fewer than 2^32 - 1
    /// events may come before it.
    fn note(&mut self, event: Event)
        requires recordable { IsRecordable event }
        requires room { (events : List Event) × stands self.old events × (length events < 2 ^ 32 - 1) }
        ensures noted { (events : List Event) → stands self.old events
            → stands self.new (events ++ event ∷ []) }
        ensures follows { follows self.old self.new };

    /// A recorder that nothing is done to follows itself.
    ghost follows_itself: { (recorder : Self) → follows recorder recorder };

    /// What follows a follower follows.
    ghost follows_along: { (first second third : Self) →
        follows first second → follows second third → follows first third };
}
