//! The order of a flush.

ghost use Rattle.std.specs.Prelude.{◌≡◌, All, List, IsPermutation, IsTrue, AllPairs, filter};
ghost use Rattle.fdr_buffer.specs.Filled.{Filled, has_event};
ghost use Rattle.machine_step.specs.declared.setup.Setup.{Setup};
ghost use Rattle.traced_run.specs.{Kept.{kept_buffers}, Runs.{ThreadRun}};
ghost use Rattle.trace_flush.specs.Arranged.{IsBefore};

use fdr_buffer::Buffer;
use traced_run::kept_buffers_hold_events;

/// Drops the buffers that hold no event, and puts the rest in the order of a trace: thread by
/// thread, and those of a thread by segment.
///
/// If two buffers have the same thread and segment, either may come first.
pub fn arrange(buffers: &mut Vec<Buffer>)
    ensures kept { IsPermutation (filter has_event buffers.old.items) buffers.new.items }
    ensures order { AllPairs (λ first second. IsBefore second first → ⊥) buffers.new.items }
    // If a list has the same buffers in strict order, it is what is left.
    ensures exact { (wanted : List Filled) → AllPairs IsBefore wanted
        → IsPermutation (filter has_event buffers.old.items) wanted → buffers.new.items ≡ wanted }
    // For a run, what is left are the buffers of the segments that are left, in order. It doesn't
    // matter in which order they were before.
    ensures run { (setup : Setup) (runs : List ThreadRun)
        → IsPermutation (filter has_event buffers.old.items) (kept_buffers setup runs)
        → buffers.new.items ≡ kept_buffers setup runs }
    ensures stay { (setup : Setup) (runs : List ThreadRun) → buffers.old.items ≡ kept_buffers setup runs
        → buffers.new.items ≡ kept_buffers setup runs }
    // Each of them was begun, as a block of a trace has to be.
    ensures begun { (setup : Setup) (runs : List ThreadRun) → buffers.old.items ≡ kept_buffers setup runs
        → All (λ buffer. IsTrue buffer.begun) buffers.new.items }
{
    kept_buffers_hold_events();
    buffers.retain(|buffer| buffer.events() > 0);
    buffers.sort_unstable_by_key(|buffer| (buffer.thread(), buffer.serial()));
}
