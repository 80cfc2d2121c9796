//! The open calls of a thread, with their paths.

ghost use Rattle.std.specs.Prelude.{◌≡◌, ◌<◌, ◌-◌, ◌++◌, List, [], ◌∷◌, length, reverse, take, OnOk, slice_index_or};
ghost use Rattle.fdr_record.specs.declared.event.Event.{Event};
ghost use Rattle.stack_rebuild.specs.Calls.{next_standing, standing_after};
ghost use Rattle.stack_rebuild.specs.PathSums.{AreSums, path_at};
ghost use Rattle.stack_rebuild.specs.declared.thread_stack.Frame.{Frame};
ghost use Rattle.stack_rebuild.specs.private.Scanning.{AreWithin, Follows, Keeps, Opens, spending, timed_now, top_of, with_spent};
ghost use Rattle.stack_rebuild.specs.Stacks.{Timed};

use crate::calls::ThreadCalls;
use crate::path_sums::PathSums;
use crate::totals::added;
use fdr_record::{Event, Kind};
use std::alloc::Global;
use xray_io::NoMemory;

/// What is kept of an open call.
#[derive(Clone, Copy)]
pub(crate) struct Frame {
    /// The number of its path.
    path: usize,
    /// The durations of the pairs that were made directly in it.
    spent: u128,
}

impl Frame {
    /// Adds a duration to what was spent.
    fn spend(&mut self, duration: u64) -> Result<(), NoMemory>
        ensures { OnOk result (self.new ≡ spending duration self.old) }
    {
        self.spent = added(self.spent, u128::from(duration))?;
        Ok(())
    }
}

/// A thread after its events so far, and a frame for each open call, outermost first.
#[derive(Drop)]
pub(crate) struct ThreadStack {
    pub(crate) calls: ThreadCalls,
    pub(crate) frames: Vec<Frame>,
}

impl ThreadStack {
    /// A thread before its first event.
    pub(crate) fn new(alloc: Global) -> ThreadStack
        ensures calls { result.calls ≡ standing_after [] }
        ensures frames { result.frames.items ≡ [] }
    {
        ThreadStack {
            calls: ThreadCalls::new(alloc),
            frames: Vec::new(alloc),
        }
    }

    /// Takes the thread's next event.
    #[inline(always)]
    pub(crate) fn take(&mut self, sums: &mut PathSums, event: &Event) -> Result<(), NoMemory>
        requires { AreWithin sums.old.paths self.old.frames.items }
        ensures within { OnOk result (AreWithin sums.new.paths self.new.frames.items) }
        ensures calls { OnOk result (self.new.calls ≡ next_standing event.now self.old.calls) }
        ensures follows { OnOk result ((pairs : List Timed) (history : List Event)
            → Follows self.old.calls self.old.frames.items sums.old.paths sums.old.tallies
            pairs history
            → Follows self.new.calls self.new.frames.items sums.new.paths sums.new.tallies
            (pairs ++ timed_now event.now history) (event.now ∷ history)) }
        ensures keeps { OnOk result (Keeps sums.old.paths sums.new.paths) }
    {
        let pair = self.calls.take(event)?;
        let depth = self.calls.depth();
        match pair {
            Some(pair) => end_frame(&mut self.frames, sums, depth, pair.duration),
            None => match event.kind {
                Kind::Entry | Kind::EntryArgs => { open_frame(&mut self.frames, sums, event.func) }
                Kind::Exit | Kind::TailExit => Ok(()),
            },
        }
    }
}

/// Opens a frame for a call of a function, inside the innermost one.
#[inline(always)]
fn open_frame(frames: &mut Vec<Frame>, sums: &mut PathSums, func: u32) -> Result<(), NoMemory>
    requires { AreWithin sums.old.paths frames.old.items }
    ensures within { OnOk result (AreWithin sums.new.paths frames.new.items) }
    ensures opened { OnOk result (
        Opens func frames.old.items frames.new.items sums.old.paths sums.new.paths) }
    ensures sums { OnOk result ((pairs : List Timed)
        → AreSums sums.old.paths sums.old.tallies pairs
        → AreSums sums.new.paths sums.new.tallies pairs) }
{
    let path = sums.number_of(innermost(frames), func)?;
    frames.push(Frame { path, spent: 0 })?;
    Ok(())
}

/// The number of the innermost frame's path, or that of the empty path if there is no frame.
fn innermost(frames: &[Frame]) -> usize
    ensures { result ≡ top_of (reverse frames.now) }
{
    match frames.last() {
        Some(frame) => frame.path,
        None => 0,
    }
}

/// Ends the frames from a depth on. The outermost of them has a pair, with this duration.
#[inline(always)]
fn end_frame(
    frames: &mut Vec<Frame>,
    sums: &mut PathSums,
    depth: usize,
    duration: u64,
) -> Result<(), NoMemory>
    requires { AreWithin sums.old.paths frames.old.items }
    ensures within { OnOk result (AreWithin sums.new.paths frames.new.items) }
    ensures paths { sums.new.paths ≡ sums.old.paths }
    ensures rest { OnOk result (depth < length frames.old.items
        → reverse frames.new.items ≡ with_spent duration (reverse (take depth frames.old.items))) }
    ensures sums { OnOk result ((pairs : List Timed) (frame : Frame)
        → AreSums sums.old.paths sums.old.tallies pairs
        → depth < length frames.old.items
        → AreSums sums.new.paths sums.new.tallies (pairs ++ record {
          path = path_at sums.old.paths (slice_index_or frames.old.items depth frame).path;
          duration = duration;
          own = duration - (slice_index_or frames.old.items depth frame).spent;
        } ∷ [])) }
{
    match frames.get(depth).copied() {
        None => Ok(()),
        Some(ended) => {
            frames.truncate(depth);
            spend(frames, duration)?;
            let own = u128::from(duration).saturating_sub(ended.spent);
            sums.add(ended.path, duration, own)
        }
    }
}

/// Adds a duration to what was spent in the innermost frame.
fn spend(frames: &mut Vec<Frame>, duration: u64) -> Result<(), NoMemory>
    ensures { OnOk result (
        reverse frames.new.items ≡ with_spent duration (reverse frames.old.items)) }
{
    match frames.last_mut() {
        Some(frame) => frame.spend(duration),
        None => Ok(()),
    }
}
