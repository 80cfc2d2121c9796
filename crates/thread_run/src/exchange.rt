//! How a thread begins its next segment.

ghost use Rattle.std.specs.Prelude.{◌≡◌, ◌<◌, ◌-◌, [], ◌∷◌, length, true};
ghost use Rattle.fdr_record.specs.Recordable.{IsRecordable};
ghost use Rattle.buffer_queue.specs.Passes.{IsOf};
ghost use Rattle.traced_run.specs.Kept.{buffer_of, stamp_of};
ghost use Rattle.thread_run.specs.private.Segments.{sealed_with, IsPreambleOf, IsNextOf};

use buffer_queue::{Pool, PoolPass};
use fdr_buffer::Buffer;
use fdr_record::Event;
use std::sync::Wait;
use xray_io::Wall;

/// What all segments of a thread begin with.
#[derive(Drop)]
pub(crate) struct Preamble {
    /// The thread's number, from 1.
    pub(crate) thread: u32,
    /// The wall time of the run, which is the same for all segments.
    pub(crate) wall: Wall,
    /// The number of the process.
    pub(crate) pid: u32,
}

/// A buffer for the thread's next segment. If the hand holds a segment, it is sealed. Otherwise the
/// hand itself is that buffer.
fn exchange<T: Wait>(rt: &T, pool: &Pool, pass: &mut PoolPass, hand: Buffer) -> Buffer
    requires pass { IsOf pool.now pass.old }
    requires size { hand.size ≡ pool.now.setup.size }
    requires next { hand.begun ≡ true → IsNextOf pass.old hand }
    ensures size { result.size ≡ pool.now.setup.size }
    ensures pass { pass.new ≡ sealed_with pass.old hand }
{
    if hand.begun() {
        pool.turn(rt, pass, hand)
    } else {
        hand
    }
}

/// Begins the thread's next segment with an event, in another buffer if the hand holds a segment.
pub(crate) fn next_segment<T: Wait>(
    rt: &T,
    pool: &Pool,
    pass: &mut PoolPass,
    hand: Buffer,
    preamble: &Preamble,
    event: &Event,
) -> Buffer
    requires pass { IsOf pool.now pass.old }
    requires preamble { IsPreambleOf pass.old preamble.now }
    requires size { hand.size ≡ pool.now.setup.size }
    requires next { hand.begun ≡ true → IsNextOf pass.old hand }
    requires recordable { IsRecordable event.now }
    ensures pass { pass.new ≡ sealed_with pass.old hand }
    ensures next { result
        ≡ buffer_of (stamp_of pass.old.setup) pass.old.thread (length pass.new.sealed, event.now ∷ []) }
{
    let mut next = exchange(rt, pool, pass, hand);
    next.begin(preamble.thread, pass.sealed(), preamble.wall, preamble.pid);
    next.put(event);
    next
}
