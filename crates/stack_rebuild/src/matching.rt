//! The pairs of a thread's events, and the events of one thread.

ghost use Rattle.std.specs.Prelude.{◌≡◌, IfOk};
ghost use Rattle.stack_rebuild.specs.{Calls.{pairs_of}, Histories.{events_of_thread}};

use crate::call::Pair;
use crate::calls::ThreadCalls;
use fdr_file::Trace;
use fdr_record::Event;
use std::alloc::Global;
use xray_io::NoMemory;

/// The pairs that the events of a thread make, in the order of their exits. An exit or tail exit
/// belongs to the innermost open call of its function. Calls that were made in that call and are
/// still open end with it, and are in no pair. An exit of a function with no open call is in no
/// pair either. `NoMemory` means that an allocation was refused.
pub fn pairs(alloc: Global, events: &[Event]) -> Result<Vec<Pair>, NoMemory>
    ensures { IfOk result (λ pairs. pairs.items ≡ pairs_of events.now) }
{
    let mut thread = ThreadCalls::new(alloc);
    let mut pairs = Vec::new(alloc);
    'taking: for event in events {
        if let Some(pair) = thread.take(event)? {
            pairs.push(pair)?;
        }
    }
    Ok(pairs)
}

/// The events of a thread: those of its blocks, in the order of the file.
pub fn thread_events(alloc: Global, trace: &Trace, thread: u32) -> Result<Vec<Event>, NoMemory>
    ensures { IfOk result (λ events. events.items ≡ events_of_thread thread trace.now.blocks) }
{
    let mut events = Vec::new(alloc);
    'gathering: for block in trace.blocks.as_slice() {
        if block.thread == thread {
            events.extend_from_slice(block.events.as_slice())?;
        }
    }
    Ok(events)
}
