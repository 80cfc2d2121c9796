//! The replay of a schedule.

ghost use Rattle.std.specs.Prelude.{◌≡◌, ℕ, All, fold, length};
ghost use Rattle.machine_step.specs.declared.limits.Limits.{Limits};
ghost use Rattle.step_sim.specs.Replay.{Cast, Moment};
ghost use Rattle.step_sim.specs.private.Turns.{AllRunOut, line_turns};
ghost use Rattle.step_sim.specs.Pool.{Pooled};
ghost use Rattle.step_sim.specs.private.Turns.{AllPooledRunOut};
ghost use Rattle.step_sim.specs.private.Recording.{AllRecord, AllRecordAt, Recording, line_in, pooling_in};
ghost use Rattle.step_sim.specs.Schedules.{AreTurnsOf};
ghost use Rattle.step_sim.specs.private.Standing.{AllStandAt, Rests};

use crate::patcher::Patcher;
use crate::pool::Pool;
use crate::schedule::Schedule;
use crate::thread::{make_loads, run_out};
use crate::turns::Turns;
use fdr_buffer::Buffer;
use machine_step::Cpu;

/// What a replay leaves.
#[derive(Drop)]
pub struct SimEnd<'a> {
    /// The threads, in order. Each has ended.
    pub cpus: Vec<Cpu<'a>>,
    /// How many buffers each thread has put into the queue, in the order of the threads.
    pub sealed: Vec<u32>,
    /// How many segments the events of each thread were cut into: those that it has put into the
    /// queue, and the one that it holds. A thread without events has none.
    pub segments: Vec<u32>,
    /// How many of each thread's segments are lost, because their buffers were taken out of the
    /// queue again. Segments count from 0, so this is the number of the first one that is left.
    pub first: Vec<u32>,
    /// The buffers that hold an event, thread by thread. Those of a thread are in the order of its
    /// segments.
    pub buffers: Vec<Buffer>,
}

/// Takes the lines of a schedule, and after them runs each thread to its end.
pub(crate) fn play(cpus: &mut Vec<Cpu>, patcher: &mut Patcher, pool: &mut Pool, lines: &[Turns])
    requires records { AllRecord patcher.old cpus.old.items pool.old }
    requires lines { All (AreTurnsOf (length cpus.old.items)) lines.now }
    ensures at { (cast : Cast) (threads : ℕ) (limits : Limits) (moment : Moment)
        → AllStandAt cast threads limits moment patcher.old cpus.old.items
        → (last : Moment)
        × AllRunOut cast (length cpus.old.items) 1 (fold (line_turns cast) moment lines.now) last
        × AllStandAt cast threads limits last patcher.new cpus.new.items }
    ensures records { (r : Recording) (pooled : Pooled)
        → AllRecordAt r pooled patcher.old cpus.old.items pool.old
        → (last : Pooled)
        × AllPooledRunOut r.cast (pooling_in r) (length cpus.old.items) 1 (fold (line_in r) pooled lines.now) last
        × AllRecordAt r last patcher.new cpus.new.items pool.new }
    ensures ended { All Rests cpus.new.items }
{
    for turns in lines {
        take_turns(cpus, patcher, pool, *turns);
    }
    run_all_out(cpus, patcher, pool);
}

/// Takes the turns of a line.
fn take_turns(cpus: &mut Vec<Cpu>, patcher: &mut Patcher, pool: &mut Pool, turns: Turns)
    requires records { AllRecord patcher.old cpus.old.items pool.old }
    requires line { AreTurnsOf (length cpus.old.items) turns }
    ensures at { (cast : Cast) (threads : ℕ) (limits : Limits) (moment : Moment)
        → AllStandAt cast threads limits moment patcher.old cpus.old.items
        → AllStandAt cast threads limits (line_turns cast moment turns) patcher.new cpus.new.items }
    ensures records { (r : Recording) (pooled : Pooled)
        → AllRecordAt r pooled patcher.old cpus.old.items pool.old
        → AllRecordAt r (line_in r pooled turns) patcher.new cpus.new.items pool.new }
{
    match turns {
        Turns::Thread { thread, count } => make_loads(
            &mut cpus[thread as usize - 1],
            patcher,
            pool,
            count,
        ),
        Turns::Patcher { count } => patcher.make_steps(u64::from(count)),
    }
}

/// Runs each thread to its end, thread 1 first.
fn run_all_out(cpus: &mut Vec<Cpu>, patcher: &Patcher, pool: &mut Pool)
    requires records { AllRecord patcher.now cpus.old.items pool.old }
    ensures at { (cast : Cast) (threads : ℕ) (limits : Limits) (moment : Moment)
        → AllStandAt cast threads limits moment patcher.now cpus.old.items
        → (last : Moment) × AllRunOut cast (length cpus.old.items) 1 moment last
        × AllStandAt cast threads limits last patcher.now cpus.new.items }
    ensures records { (r : Recording) (pooled : Pooled)
        → AllRecordAt r pooled patcher.now cpus.old.items pool.old
        → (last : Pooled)
        × AllPooledRunOut r.cast (pooling_in r) (length cpus.old.items) 1 pooled last
        × AllRecordAt r last patcher.now cpus.new.items pool.new }
    ensures ended { All Rests cpus.new.items }
{
    for i in 0..cpus.len() {
        run_out(&mut cpus[i], patcher, pool);
    }
}
