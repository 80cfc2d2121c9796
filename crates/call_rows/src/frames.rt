//! The open calls of a thread, with their entries.

ghost use Rattle.std.specs.Prelude.{◌≡◌, ◌+◌, ◌-◌, ◌++◌, [], ◌∷◌, reverse, slice_get, IfOk, OnOk};
ghost use Rattle.call_rows.specs.CallRows.{logged_arg};
ghost use Rattle.call_rows.specs.private.Frames.{first_number, framed_after, left_of, more_spent, next_framed, next_row, opened_frame, row_by, row_on};
ghost use Rattle.stack_rebuild.specs.Calls.{enters};

use crate::row::CallRow;
use fdr_record::{Event, Kind};
use stack_rebuild::{Pair, ThreadCalls};
use std::alloc::Global;
use std::marker::Model;
use xray_io::NoMemory;

/// What is kept of an open call.
#[derive(Clone, Copy)]
pub(crate) struct Frame {
    /// Its entry.
    pub(crate) event: Event,
    /// The number of the entry among all events of the trace, from 0.
    pub(crate) number: u64,
    /// The process of the entry.
    pub(crate) pid: u32,
    /// The durations of the pairs that were made directly in the call.
    pub(crate) spent: u128,
}

/// A thread after its events so far, and a frame for each open call, outermost first.
#[derive(Drop)]
pub(crate) struct ThreadFrames {
    calls: ThreadCalls,
    frames: Vec<Frame>,
}

impl Model for ThreadFrames {
    ghost use Rattle.call_rows.specs.private.Frames.{Framed};

    ghost Value = { Framed };

    ghost view = { λ t. record { standing = t.calls; frames = t.frames.items } };
}

impl ThreadFrames {
    /// A thread before its first event.
    pub(crate) fn new(alloc: Global) -> ThreadFrames
        ensures { result ≡ framed_after [] 0 }
    {
        ThreadFrames {
            calls: ThreadCalls::new(alloc),
            frames: Vec::new(alloc),
        }
    }

    /// Takes the thread's next event, which has this number. Returns the row of the call that it
    /// ends, if it ends one.
    #[inline(always)]
    pub(crate) fn take(
        &mut self,
        thread: u32,
        pid: u32,
        number: u64,
        event: &Event,
    ) -> Result<Option<CallRow>, NoMemory>
        ensures row { IfOk result (λ row. row ≡ row_on thread number event.now self.old) }
        ensures next { OnOk result (self.new ≡ next_framed number pid event.now self.old) }
    {
        let pair = self.calls.take(event)?;
        let depth = self.calls.depth();
        match pair {
            Some(pair) => end_frame(&mut self.frames, thread, number, depth, &pair),
            None => {
                if is_entry(event.kind) {
                    open_frame(&mut self.frames, number, pid, event)?;
                }
                Ok(None)
            }
        }
    }
}

/// Whether events of a kind are entries.
fn is_entry(kind: Kind) -> bool
    ensures { result ≡ enters kind }
{
    match kind {
        Kind::Entry | Kind::EntryArgs => true,
        Kind::Exit | Kind::TailExit => false,
    }
}

/// Opens a frame inside the innermost one.
fn open_frame(frames: &mut Vec<Frame>, number: u64, pid: u32, event: &Event) -> Result<(), NoMemory>
    ensures { OnOk result (
        frames.new.items ≡ frames.old.items ++ opened_frame number pid event.now ∷ []) }
{
    frames.push(Frame {
        event: *event,
        number,
        pid,
        spent: 0,
    })?;
    Ok(())
}

/// Ends the frames from a depth on. The outermost of them is that of the pair's call.
#[inline(always)]
fn end_frame(
    frames: &mut Vec<Frame>,
    thread: u32,
    number: u64,
    depth: usize,
    pair: &Pair,
) -> Result<Option<CallRow>, NoMemory>
    ensures row { IfOk result (λ row.
        row ≡ next_row thread number (Some pair.now) depth frames.old.items) }
    ensures left { OnOk result (frames.new.items
        ≡ left_of pair.now depth (slice_get frames.old.items depth) frames.old.items) }
{
    match frames.get(depth).copied() {
        None => Ok(None),
        Some(ended) => {
            frames.truncate(depth);
            let row = row_of(thread, number, pair, frames, &ended);
            spend(frames, pair.duration)?;
            Ok(Some(row))
        }
    }
}

/// The row of a pair, by the number of its exit, the frame of its call and those outside it.
fn row_of(thread: u32, number: u64, pair: &Pair, outer: &[Frame], frame: &Frame) -> CallRow
    ensures { result ≡ row_by thread number pair.now outer.now frame.now }
{
    CallRow {
        call: frame.number,
        parent: innermost_number(outer),
        thread,
        process: frame.pid,
        cpu: frame.event.cpu,
        start: frame.event.tsc,
        duration: pair.duration,
        own: less(pair.duration, frame.spent),
        depth: outer.len() as u64,
        arg: arg_of(&frame.event),
        func: pair.func,
        end: number,
    }
}

/// The number of the innermost frame's entry.
fn innermost_number(frames: &[Frame]) -> Option<u64>
    ensures { result ≡ first_number (reverse frames.now) }
{
    match frames.last() {
        Some(frame) => Some(frame.number),
        None => None,
    }
}

/// A duration less what was spent of it, or 0 if more was.
fn less(duration: u64, spent: u128) -> u64
    ensures { result ≡ duration - spent }
{
    match u64::try_from(spent) {
        Ok(spent) => duration.saturating_sub(spent),
        Err(_) => 0,
    }
}

/// The argument of an event, if events of its kind log one.
fn arg_of(event: &Event) -> Option<u64>
    ensures { result ≡ logged_arg event.now }
{
    match event.kind {
        Kind::EntryArgs => Some(event.arg),
        Kind::Entry | Kind::Exit | Kind::TailExit => None,
    }
}

/// Adds a duration to what was spent in the innermost frame. No trace of fewer than 2^64 bytes has a
/// sum beyond the type, so `NoMemory` stands for that too.
fn spend(frames: &mut Vec<Frame>, duration: u64) -> Result<(), NoMemory>
    ensures { OnOk result (
        reverse frames.new.items ≡ more_spent duration (reverse frames.old.items)) }
{
    match frames.last_mut() {
        None => Ok(()),
        Some(frame) => frame.spend(duration),
    }
}

impl Frame {
    /// Adds a duration to what was spent.
    fn spend(&mut self, duration: u64) -> Result<(), NoMemory>
        ensures { OnOk result (self.new ≡ record self.old { spent = self.old.spent + duration }) }
    {
        self.spent = self
            .spent
            .checked_add(u128::from(duration))
            .ok_or(NoMemory)?;
        Ok(())
    }
}
