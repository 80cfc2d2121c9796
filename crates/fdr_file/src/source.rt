//! Where the events of a trace come from: the bytes of a file, or a trace that was read.

ghost use Rattle.std.specs.Prelude.{◌≡◌, [], ◌∷◌, List, MatchOption};
ghost use Rattle.fdr_file.specs.ThreadEvents.{ThreadEvent, event_given, thread_events};

use crate::{Block, EventCursor, Trace};
use fdr_record::Event;

/// Gives the events of a trace, one after the other, in the order of the file.
pub trait EventSource {
    /// The events that are still to come.
    ghost left: { Self → List ThreadEvent };

    /// The next event, with its thread and its process. `None` after the last event.
    fn next_event(&mut self) -> Option<(u32, u32, Event)>
        ensures { MatchOption result (left self.old ≡ [])
            (λ x. left self.old ≡ event_given x ∷ left self.new) };
}

impl EventSource for EventCursor<'_> {
    ghost use Rattle.fdr_file.specs.EventsLeft.{events_left};

    ghost left = { events_left };

    fn next_event(&mut self) -> Option<(u32, u32, Event)> {
        self.next()
    }
}

/// Gives the events of a trace that was read.
#[derive(Drop)]
pub struct TraceCursor<'a> {
    /// The thread and the process of the block that the cursor is in.
    thread: u32,
    pid: u32,
    /// The events of this block that it hasn't given yet.
    events: &'a [Event],
    /// The blocks after this one.
    blocks: &'a [Block],
}

impl<'a> TraceCursor<'a> {
    ghost use Rattle.fdr_file.specs.Sources.{cursor_left};

    /// A cursor before the first event of a trace.
    pub fn new(trace: &'a Trace) -> TraceCursor<'a>
        ensures { cursor_left result ≡ thread_events trace.now.blocks }
    {
        TraceCursor {
            thread: 0,
            pid: 0,
            events: &[],
            blocks: trace.blocks.as_slice(),
        }
    }
}

impl EventSource for TraceCursor<'_> {
    ghost use Rattle.fdr_file.specs.Sources.{cursor_left};

    ghost left = { cursor_left };

    fn next_event(&mut self) -> Option<(u32, u32, Event)> {
        'empty: while self.events.is_empty() {
            let (block, blocks) = self.blocks.split_first()?;
            self.thread = block.thread;
            self.pid = block.pid;
            self.events = block.events.as_slice();
            self.blocks = blocks;
        }
        let (event, events) = self.events.split_first()?;
        self.events = events;
        Some((self.thread, self.pid, *event))
    }
}
