//! The calls of events that come one after the other.

ghost use Rattle.std.specs.Prelude.{◌≡◌, ◌+◌, ◌++◌, ℕ, [], ◌∷◌, List, length, IfOk, OnOk};
ghost use Rattle.std.specs.Option.{option_to_list};
ghost use Rattle.fdr_file.specs.ThreadEvents.{ThreadEvent};
ghost use Rattle.stack_rebuild.specs.Histories.{thread_event};
ghost use Rattle.call_rows.specs.CallRows.{EndsAt, rows_after};
ghost use Rattle.call_rows.specs.private.Folding.{Follows, framed_in};

use crate::frames::ThreadFrames;
use crate::row::CallRow;
use fdr_record::Event;
use stack_rebuild::{a_thread_goes_on, each_pair_is_a_whole_call};
use std::alloc::Global;
use std::collections::HashMap;
use std::mem;
use xray_io::NoMemory;

/// Takes events, and returns the row of each call at its end. It keeps the open calls of each thread,
/// and neither events nor rows.
#[derive(Drop)]
pub struct CallFold {
    alloc: Global,
    /// The thread of the last event.
    thread: u32,
    /// Its open calls.
    own: ThreadFrames,
    /// Those of the other threads.
    others: HashMap<u32, ThreadFrames>,
    /// How many events there were.
    events: u64,
}

/// Takes the open calls of a thread out of the table.
fn take_out(alloc: Global, threads: &mut HashMap<u32, ThreadFrames>, thread: u32) -> ThreadFrames
    ensures taken { result ≡ framed_in threads.old thread }
    ensures others { (other : ℕ) → (thread ≡ other → ⊥)
        → framed_in threads.new other ≡ framed_in threads.old other }
{
    match threads.remove(&thread) {
        Some(frames) => frames,
        None => ThreadFrames::new(alloc),
    }
}

/// The number after a count. No trace in memory reaches a count beyond its type, so `NoMemory` stands
/// for that too.
fn one_more(count: u64) -> Result<u64, NoMemory>
    ensures { IfOk result (λ more. more ≡ count + 1) }
{
    count.checked_add(1).ok_or(NoMemory)
}

impl CallFold {
    /// Before the first event.
    pub fn new(alloc: Global) -> CallFold
        ensures { Follows result [] }
    {
        CallFold {
            alloc,
            thread: 0,
            own: ThreadFrames::new(alloc),
            others: HashMap::new(alloc),
            events: 0,
        }
    }

    /// Takes the next event of the trace. Returns the row of the call that it ends, if it ends one.
    /// `NoMemory` means that an allocation was refused, or that there are 2^64 events or more. After
    /// it no clause says where the fold is.
    #[inline(always)]
    pub fn next(
        &mut self,
        thread: u32,
        pid: u32,
        event: &Event,
    ) -> Result<Option<CallRow>, NoMemory>
        ensures row { IfOk result (λ row. (history : List ThreadEvent)
            → Follows self.old history
            → rows_after (thread_event thread pid event.now ∷ history)
            ≡ rows_after history ++ option_to_list row) }
        ensures end { IfOk result (λ row. (history : List ThreadEvent)
            → Follows self.old history → EndsAt (length history) row) }
        ensures follows { OnOk result ((history : List ThreadEvent) → Follows self.old history
            → Follows self.new (thread_event thread pid event.now ∷ history)) }
    {
        if thread != self.thread {
            self.go_to(thread)?;
        }
        self.take(pid, event)
    }

    /// Goes to another thread.
    fn go_to(&mut self, thread: u32) -> Result<(), NoMemory>
        ensures gone { OnOk result ((history : List ThreadEvent) → Follows self.old history
            → Follows self.new history) }
        ensures thread { OnOk result (self.new.thread ≡ thread) }
    {
        let own = mem::replace(&mut self.own, ThreadFrames::new(self.alloc));
        self.others.insert(self.thread, own)?;
        self.own = take_out(self.alloc, &mut self.others, thread);
        self.thread = thread;
        Ok(())
    }

    /// Takes an event of the thread at hand.
    #[inline(always)]
    fn take(&mut self, pid: u32, event: &Event) -> Result<Option<CallRow>, NoMemory>
        ensures row { IfOk result (λ row. (history : List ThreadEvent)
            → Follows self.old history
            → rows_after (thread_event self.old.thread pid event.now ∷ history)
            ≡ rows_after history ++ option_to_list row) }
        ensures end { IfOk result (λ row. (history : List ThreadEvent)
            → Follows self.old history → EndsAt (length history) row) }
        ensures follows { OnOk result ((history : List ThreadEvent) → Follows self.old history
            → Follows self.new (thread_event self.old.thread pid event.now ∷ history)) }
    {
        a_thread_goes_on();
        each_pair_is_a_whole_call();
        let number = self.events;
        self.events = one_more(number)?;
        self.own.take(self.thread, pid, number, event)
    }
}
