//! All threads of a run, and the patcher.

ghost use Rattle.std.specs.{Prelude.{All}, Thread.{IsSend, IsSync}};
ghost use Rattle.sled_rule.specs.{Plans.{total_in}, Seats.{patch_view, script_of, IsPatcherOf}};
ghost use Rattle.sled_patch.specs.Runs.{HasRun};
ghost use Rattle.thread_run.specs.{Each.{HaveChanged}, Workers.{HaveRun, IsGoing}};

use crate::work::Work;
use crate::worker::Worker;
use fdr_record::Recorder;
use sled_patch::run_script;
use sled_rule::{CodeTable, PatchSeat};
use sled_words::MAX_THREADS;
use std::sync::Wait;
use std::thread::{Threads, for_each_mut, join_mut};
use xray_io::Gate;

/// Does all works, each in its own thread if one can be started.
fn do_all<T: Threads + Wait + Sync, W: Work + Send, G: Gate + Sync>(
    rt: &T,
    gate: &G,
    works: &mut [W],
)
    requires { All W.ready works.old }
    ensures works { HaveChanged W.worked works.old works.new }
{
    let one = |_place: usize, work: &mut W|
        requires { W.ready work.now }
        ensures { W.worked work.entry.now work.exit.now }
    { work.work(rt, gate) };
    for_each_mut(rt, works, MAX_THREADS as usize, &one);
}

/// Runs the script, and does all works at the same time.
fn run_beside<T: Threads + Wait + Sync, W: Work + Send, G: Gate + Sync>(
    rt: &T,
    table: &CodeTable,
    seat: &mut PatchSeat,
    works: &mut [W],
    gate: &G,
)
    requires own { IsPatcherOf table.now seat.old }
    requires ready { All W.ready works.old }
    ensures own { IsPatcherOf table.now seat.new }
    ensures script { HasRun (patch_view seat.old) (total_in (script_of table.now)) (patch_view seat.new) }
    ensures works { HaveChanged W.worked works.old works.new }
{
    join_mut(
        rt,
        &mut ||
            requires { IsPatcherOf table.now seat.now }
            ensures own { IsPatcherOf table.entry.now seat.exit.now }
            ensures script { HasRun (patch_view seat.entry.now) (total_in (script_of table.entry.now))
                (patch_view seat.exit.now) }
        { run_script(rt, table, seat, gate) },
        &mut ||
            requires { All W.ready works.now × IsSync T.row × IsSync G.row × IsSend W.row }
            ensures { HaveChanged W.worked works.entry.now works.exit.now }
        { do_all(rt, gate, works) },
    );
}

/// Runs the script and all workers at the same time, until each of them is at its end.
///
/// Each runs in its own thread. If a thread can't be started, the caller runs its worker. That
/// worker may then wait for one that doesn't run yet, so no clause says that the call returns. It
/// joins every thread.
pub fn run_threads<T: Threads + Wait + Sync, R: Recorder + Send, G: Gate + Sync>(
    rt: &T,
    table: &CodeTable,
    seat: &mut PatchSeat,
    workers: &mut [Worker<'_, '_, R>],
    gate: &G,
)
    requires own { IsPatcherOf table.now seat.old }
    requires going { All (IsGoing R.stands) workers.old }
    ensures own { IsPatcherOf table.now seat.new }
    ensures script { HasRun (patch_view seat.old) (total_in (script_of table.now)) (patch_view seat.new) }
    ensures workers { HaveRun R.stands R.follows workers.old workers.new }
{
    run_beside(rt, table, seat, workers, gate);
}
