//! The calls of a thread.

ghost use Rattle.std.specs.Prelude.{◌≡◌, [], length, IfOk, OnOk};
ghost use Rattle.stack_rebuild.specs.Calls.{cycles_between, pair_at, standing_after, next_standing};

use crate::call::{Call, Pair};
use crate::open_calls::OpenCalls;
use fdr_record::{Event, Kind};
use std::alloc::Global;
use std::marker::Model;
use xray_io::NoMemory;

/// A thread after its events so far. In contracts it is how many events there were, and which calls
/// are open.
///
/// An entry opens a call. An exit or tail exit ends the innermost open call of its function. It
/// also ends the calls that were made in that call and are still open, whose exits were lost. If no
/// call of the function is open, it changes nothing.
#[derive(Drop)]
pub struct ThreadCalls {
    /// How many events there were.
    events: usize,
    calls: OpenCalls,
}

impl Model for ThreadCalls {
    ghost use Rattle.stack_rebuild.specs.Calls.{Standing};

    ghost Value = { Standing };

    ghost use Rattle.stack_rebuild.specs.private.ThreadCalls.{standing_in};

    ghost view = { standing_in };
}

impl ThreadCalls {
    /// A thread before its first event.
    pub fn new(alloc: Global) -> ThreadCalls
        ensures { result ≡ standing_after [] }
    {
        ThreadCalls {
            events: 0,
            calls: OpenCalls::new(alloc),
        }
    }

    /// How many calls are open.
    pub fn depth(&self) -> usize
        ensures { result ≡ length self.now.calls }
    {
        self.calls.depth()
    }

    /// Takes the thread's next event, and returns the pair that it makes. `NoMemory` means that an
    /// allocation was refused, or that there are more events than a `usize` counts. After it no
    /// clause says where the thread is.
    #[inline(always)]
    pub fn take(&mut self, event: &Event) -> Result<Option<Pair>, NoMemory>
        ensures pair { IfOk result (λ pair.
            pair ≡ pair_at event.now self.old.events self.old.calls) }
        ensures stands { OnOk result (self.new ≡ next_standing event.now self.old) }
    {
        let at = self.events;
        self.events = at.checked_add(1).ok_or(NoMemory)?;
        match event.kind {
            Kind::Entry | Kind::EntryArgs => {
                let call = Call {
                    entry: at,
                    func: event.func,
                    tsc: event.tsc,
                };
                self.calls.open_call(call)?;
                Ok(None)
            }
            Kind::Exit | Kind::TailExit => match self.calls.end_call(event.func)? {
                Some(call) => Ok(Some(pair_with(event, at, &call))),
                None => Ok(None),
            },
        }
    }
}

/// The pair that an exit at a position makes with the call that it ends.
fn pair_with(event: &Event, at: usize, ended: &Call) -> Pair
    ensures { result ≡ record {
      func = event.now.func;
      entry = ended.now.entry;
      exit = at;
      duration = cycles_between ended.now.tsc event.now.tsc;
    } }
{
    Pair {
        func: event.func,
        entry: ended.entry,
        exit: at,
        duration: event.tsc.wrapping_sub(ended.tsc),
    }
}
