//! A run of threads beside a script, whatever records their events.

ghost use Rattle.std.specs.Prelude.{◌≡◌, ◌≤◌, ◌+◌, ◌-◌, [], All, IfOk, OnErr, OnOk, length, map, true, vec_capacity};
ghost use Rattle.machine_step.specs.Setups.{AreLimits};
ghost use Rattle.machine_step.specs.declared.limits.Limits.{Limits};
ghost use Rattle.sled_rule.specs.{Plans.{start_in}, Seats.{patch_view, script_of, work_view, IsPatcherOf, IsWorkerOf}};
ghost use Rattle.sled_patch.specs.Runs.{at_place};
ghost use Rattle.thread_run.specs.Recorded.{HaveRecorded, IsAtStart};
ghost use Rattle.thread_run.specs.Runs.{HasPatched};
ghost use Rattle.thread_run.specs.Starters.{has_started};
ghost use Rattle.thread_run.specs.Workers.{recorder_of};
ghost use Rattle.thread_run.specs.private.Rooms.{IsGathered, IsRoom};
ghost use Rattle.thread_run.specs.private.Starting.{AreFreshThreads, AreStarted, HaveWorked};

use crate::running::run_threads;
use crate::starter::Starter;
use crate::thread::new_cpu;
use crate::worker::Worker;
use fdr_record::Recorder;
use machine_step::{Cpu, Limits, Steps};
use sled_patch::run_prefix;
use sled_rule::{CodeTable, PatchSeat, WorkSeat};
use sled_words::MAX_THREADS;
use std::alloc::Global;
use std::marker::Model;
use std::sync::Wait;
use std::thread::Threads;
use xray_io::{Gate, NoMemory};

/// What threads have when they have ended, thread 1 first.
#[derive(Drop)]
pub struct RecordedEnd<'s, R> {
    /// The threads at their ends.
    pub cpus: Vec<Cpu<'s>>,
    /// The seats of the threads at their ends, with all loads that they have made.
    pub seats: Vec<WorkSeat>,
    /// The recorders of the threads.
    pub recorders: Vec<R>,
}

/// Threads that are ready to run beside a script, whatever records their events. All memory of their
/// run is taken, and none of them has run.
///
/// A thread can't run without a seat of the table. `new` isn't given the patcher, from which seats
/// come. So no thread has run if it runs out of memory. `go` has no such answer.
#[derive(Drop)]
pub struct ReadyThreads<'s, 't, R> {
    table: &'t CodeTable,
    limits: Limits,
    /// The threads before their first loads, thread 1 first.
    cpus: Vec<Cpu<'s>>,
    /// Room for the workers.
    workers: Vec<Worker<'s, 't, R>>,
    /// Room for what they have when they have ended.
    end: RecordedEnd<'s, R>,
}

impl<'s, 't, R> Model for ReadyThreads<'s, 't, R> {
    ghost use Rattle.thread_run.specs.Ready.{ReadyThreads as Ready};
    ghost use Rattle.thread_run.specs.private.Rooms.{HasThreads};

    ghost Value = { Ready };

    ghost view = { λ r. record { table = r.table.now; limits = r.limits } };

    ghost invariant = { λ r. HasThreads r.table.now r.limits r.cpus.items r.workers r.end };
}

impl<'s, 't, R: Recorder + Send + Drop> ReadyThreads<'s, 't, R> {
    /// Takes all memory for the threads of a table's script, which are `threads`. `NoMemory` means
    /// that an allocation was refused.
    pub fn new(
        alloc: Global,
        steps: &'s Steps<'s>,
        table: &'t CodeTable,
        threads: u32,
        limits: Limits,
    ) -> Result<ReadyThreads<'s, 't, R>, NoMemory>
        requires program { (script_of table.now).program ≡ steps.now }
        requires threads { (script_of table.now).threads ≡ threads }
        requires few { threads ≤ MAX_THREADS }
        requires limits { AreLimits limits }
        ensures table { IfOk result (λ ready. ready.table ≡ table.now) }
        ensures limits { IfOk result (λ ready. ready.limits ≡ limits) }
    {
        let cpus = new_cpus(alloc, steps, table, threads, limits)?;
        let workers = Vec::with_capacity(alloc, threads as usize)?;
        let end = room_for(alloc, threads as usize)?;
        Ok(ReadyThreads {
            table,
            limits,
            cpus,
            workers,
            end,
        })
    }

    /// Runs all threads, thread 1 with the first recorder, and the rest of the script beside them. The
    /// patcher is where threads start. No clause says that the call returns.
    pub fn go<T: Threads + Wait + Sync, G: Gate + Sync>(
        self,
        starter: &mut Starter<'_, T, G>,
        patcher: &mut PatchSeat,
        recorders: Vec<R>,
    ) -> RecordedEnd<'s, R>
        requires own { IsPatcherOf self.table patcher.old }
        requires starts { IsAtStart (script_of self.table) (patch_view patcher.old) }
        requires count { length recorders.items ≡ (script_of self.table).threads }
        requires no_events { All (λ recorder. R.stands recorder []) recorders.items }
        ensures started { has_started starter.new ≡ true }
        ensures own { IsPatcherOf self.entry.table patcher.new }
        ensures script { HasPatched (script_of self.entry.table) (patch_view patcher.new) }
        ensures seats { All (IsWorkerOf self.entry.table) result.seats.items }
        ensures recorded { HaveRecorded R.stands R.follows (script_of self.entry.table) self.entry.limits
            recorders.items result.cpus.items (map work_view result.seats.items) result.recorders.items }
    {
        self.run_workers(starter, patcher, recorders)
    }

    /// Makes the micro steps before the place where threads start.
    pub(crate) fn run_prefix(&self, patcher: &mut PatchSeat)
        requires own { IsPatcherOf self.now.table patcher.old }
        requires begins { (patch_view patcher.old).place ≡ 0 }
        ensures own { IsPatcherOf self.now.table patcher.new }
        ensures view { patch_view patcher.new
            ≡ at_place (patch_view patcher.old) (start_in (script_of self.now.table)) }
    {
        run_prefix(self.table, patcher);
    }

    /// Does what `go` does. Its contract says more: what the threads leave is what workers have.
    pub(crate) fn run_workers<T: Threads + Wait + Sync, G: Gate + Sync>(
        self,
        starter: &mut Starter<'_, T, G>,
        patcher: &mut PatchSeat,
        recorders: Vec<R>,
    ) -> RecordedEnd<'s, R>
        requires own { IsPatcherOf self.table patcher.old }
        requires starts { IsAtStart (script_of self.table) (patch_view patcher.old) }
        requires count { length recorders.items ≡ (script_of self.table).threads }
        requires no_events { All (λ recorder. R.stands recorder []) recorders.items }
        ensures started { has_started starter.new ≡ true }
        ensures own { IsPatcherOf self.entry.table patcher.new }
        ensures script { HasPatched (script_of self.entry.table) (patch_view patcher.new) }
        ensures seats { All (IsWorkerOf self.entry.table) result.seats.items }
        ensures worked { HaveWorked R.stands R.follows (script_of self.entry.table) self.entry.limits
            recorders.items result.cpus.items result.seats.items result.recorders.items }
    {
        let ReadyThreads {
            table,
            limits: _,
            cpus,
            workers,
            end,
        } = self;
        let mut workers = start_workers(table, patcher, cpus, recorders, workers);
        let (rt, gate) = starter.start();
        run_threads(rt, table, patcher, &mut workers, gate);
        gather(workers, end)
    }
}

/// Runs a thread for each recorder, thread 1 with the first one, and the rest of the script beside
/// them. The patcher is where threads start. It is both calls of `ReadyThreads`, one after the other.
///
/// `NoMemory` means that an allocation was refused. No seat was given then, and no thread has run. No
/// clause says that the call returns.
pub fn run_recorded<'s, T: Threads + Wait + Sync, R: Recorder + Send + Drop, G: Gate + Sync>(
    rt: &T,
    alloc: Global,
    steps: &'s Steps<'s>,
    table: &CodeTable,
    patcher: &mut PatchSeat,
    limits: Limits,
    recorders: Vec<R>,
    gate: &G,
) -> Result<RecordedEnd<'s, R>, NoMemory>
    requires own { IsPatcherOf table.now patcher.old }
    requires starts { IsAtStart (script_of table.now) (patch_view patcher.old) }
    requires program { (script_of table.now).program ≡ steps.now }
    requires threads { (script_of table.now).threads ≡ length recorders.items }
    requires few { length recorders.items ≤ MAX_THREADS }
    requires limits { AreLimits limits }
    requires no_events { All (λ recorder. R.stands recorder []) recorders.items }
    ensures own { IsPatcherOf table.now patcher.new }
    ensures script { OnOk result (HasPatched (script_of table.now) (patch_view patcher.new)) }
    ensures unmoved { OnErr result (patch_view patcher.new ≡ patch_view patcher.old) }
    ensures seats { IfOk result (λ end. All (IsWorkerOf table.now) end.seats.items) }
    ensures recorded { IfOk result (λ end. HaveRecorded R.stands R.follows (script_of table.now) limits
        recorders.items end.cpus.items (map work_view end.seats.items) end.recorders.items) }
{
    let ready = ReadyThreads::new(alloc, steps, table, recorders.len() as u32, limits)?;
    Ok(ready.go(&mut Starter::new(rt, gate), patcher, recorders))
}

/// All threads of a table's script before their first loads, thread 1 first.
fn new_cpus<'s>(
    alloc: Global,
    steps: &'s Steps<'s>,
    table: &CodeTable,
    threads: u32,
    limits: Limits,
) -> Result<Vec<Cpu<'s>>, NoMemory>
    requires program { (script_of table.now).program ≡ steps.now }
    requires threads { (script_of table.now).threads ≡ threads }
    requires few { threads ≤ MAX_THREADS }
    requires limits { AreLimits limits }
    ensures count { IfOk result (λ cpus. length cpus.items ≡ threads) }
    ensures fresh { IfOk result (λ cpus. AreFreshThreads (script_of table.now) limits cpus.items) }
{
    let mut cpus = Vec::with_capacity(alloc, threads as usize)?;
    for number in 0..threads {
        let cpu = new_cpu(alloc, steps, table.script(), threads, number + 1, limits)?;
        cpus.push(cpu)?;
    }
    Ok(cpus)
}

/// The workers of all threads, thread 1 first, each with its recorder, in the room for them. Each gets
/// the next seat of the table.
fn start_workers<'s, 't, R: Recorder + Drop>(
    table: &'t CodeTable,
    patcher: &mut PatchSeat,
    cpus: Vec<Cpu<'s>>,
    recorders: Vec<R>,
    mut workers: Vec<Worker<'s, 't, R>>,
) -> Vec<Worker<'s, 't, R>>
    requires own { IsPatcherOf table.now patcher.old }
    requires starts { IsAtStart (script_of table.now) (patch_view patcher.old) }
    requires fresh { (limits : Limits) × AreFreshThreads (script_of table.now) limits cpus.items }
    requires threads { length cpus.items ≡ (script_of table.now).threads }
    requires count { length recorders.items ≡ length cpus.items }
    requires no_events { All (λ recorder. R.stands recorder []) recorders.items }
    requires none { workers.items ≡ [] }
    requires room { length cpus.items ≤ vec_capacity workers }
    ensures own { IsPatcherOf table.now patcher.new }
    ensures starts { (patch_view patcher.new).place ≡ start_in (script_of table.now) }
    ensures given { (patch_view patcher.new).given ≡ (script_of table.now).threads }
    ensures none_met { (patch_view patcher.new).met ≡ [] }
    ensures workers { (limits : Limits) → AreFreshThreads (script_of table.now) limits cpus.entry.items
        → AreStarted R.stands table.now limits result.items }
    ensures recorders { map (λ worker. recorder_of worker) result.items ≡ recorders.items }
{
    let mut recorders = recorders.into_iter();
    for cpu in cpus {
        match recorders.next() {
            Some(recorder) => workers.push_reserved(Worker::start(cpu, table, patcher, recorder)),
            None => unreachable!(),
        }
    }
    workers
}

/// Room for what so many threads have when they have ended, with nothing in it.
fn room_for<'s, R>(alloc: Global, threads: usize) -> Result<RecordedEnd<'s, R>, NoMemory>
    ensures { IfOk result (IsRoom threads) }
{
    Ok(RecordedEnd {
        cpus: Vec::with_capacity(alloc, threads)?,
        seats: Vec::with_capacity(alloc, threads)?,
        recorders: Vec::with_capacity(alloc, threads)?,
    })
}

/// What the workers have, in the room for it.
fn gather<'s, R: Recorder + Drop>(
    workers: Vec<Worker<'s, '_, R>>,
    mut room: RecordedEnd<'s, R>,
) -> RecordedEnd<'s, R>
    requires { IsRoom (length workers.items) room }
    ensures { IsGathered workers.entry.items result }
{
    for worker in workers {
        let (cpu, seat, recorder) = worker.parts();
        room.cpus.push_reserved(cpu);
        room.seats.push_reserved(seat);
        room.recorders.push_reserved(recorder);
    }
    room
}
