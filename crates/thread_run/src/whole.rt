//! A whole run in two calls: all memory first, then the threads and the script.

ghost use Rattle.std.specs.Prelude.{◌≡◌, ◌≤◌, ◌+◌, ◌-◌, ◌==◌, ◌++◌, [], All, List, IfOk, OnErr, OnOk, count_by, length, map, true, vec_capacity, vec_len};
ghost use Rattle.buffer_queue.specs.{Left.{IsLeft}, Passes.{sealed_of, AreNew, AreOf}};
ghost use Rattle.fdr_buffer.specs.Filled.{Filled};
ghost use Rattle.machine_step.specs.Setups.{IsSetup};
ghost use Rattle.patch_script.specs.Refusals.{commands_of};
ghost use Rattle.sled_rule.specs.{Seats.{patch_view, script_of, work_view, IsPatcherOf, IsWorkerOf}};
ghost use Rattle.sled_rule.specs.Views.{first_patch};
ghost use Rattle.thread_run.specs.Runs.{HasPatched, HaveRunBeside};
ghost use Rattle.thread_run.specs.Starters.{has_started};
ghost use Rattle.thread_run.specs.private.Pooled.{lost_beside, AreNewRecorders};
ghost use Rattle.thread_run.specs.private.Rooms.{AreParts, IsPoolRoom};

use crate::recorded::{ReadyThreads, RecordedEnd};
use crate::recorder::FdrRecorder;
use crate::starter::Starter;
use buffer_queue::{Pool, PoolPass};
use fdr_buffer::Buffer;
use machine_step::{Cpu, Setup, Steps};
use sled_rule::{CodeTable, PatchSeat, WorkSeat};
use sled_words::MAX_THREADS;
use std::alloc::Global;
use std::marker::Model;
use std::sync::Wait;
use std::thread::Threads;
use traced_run::kept_buffers_hold_events;
use xray_io::{Gate, NoMemory};

/// What a run leaves.
#[derive(Drop)]
pub struct RunEnd<'s> {
    /// The threads at their ends, thread 1 first.
    pub cpus: Vec<Cpu<'s>>,
    /// The seats of the threads at their ends, with all loads that they have made.
    pub seats: Vec<WorkSeat>,
    /// Into how many segments the events of each thread were cut.
    pub segments: Vec<u32>,
    /// How many of these are lost. Segments count from 0, so this is the number of the first one that
    /// is left.
    pub first: Vec<u32>,
    /// All buffers. Those with an event hold the segments that are left. They are in no order.
    pub buffers: Vec<Buffer>,
}

/// What the recorders of threads have of their pool, thread 1 first.
#[derive(Drop)]
struct PoolParts {
    /// Into how many segments the events of each thread were cut.
    segments: Vec<u32>,
    passes: Vec<PoolPass>,
    /// The buffer in each thread's hand.
    hands: Vec<Buffer>,
}

/// What threads have when they have ended, thread 1 first.
#[derive(Drop)]
struct Gathered<'s> {
    cpus: Vec<Cpu<'s>>,
    seats: Vec<WorkSeat>,
    parts: PoolParts,
}

/// A run that is ready, from the first micro step on: the threads of a table's script, and a pool of
/// buffers that they share. All memory of the run is taken, and no thread has run.
///
/// A thread can't run without a seat of the table. `new` isn't given the patcher, from which seats
/// come. So no thread has run if it runs out of memory. `go` has no such answer.
#[derive(Drop)]
pub struct ReadyRun<'s, 't, 'p, T> {
    setup: Setup,
    threads: ReadyThreads<'s, 't, FdrRecorder<'p, T>>,
    pool: Pool,
    /// The pass of each thread, and its first buffer.
    hands: Vec<(PoolPass, Buffer)>,
    /// Room for the recorders. Only `go` fills it, since they borrow the pool.
    recorders: Vec<FdrRecorder<'p, T>>,
    /// Room for what they have of the pool when the threads have ended.
    parts: PoolParts,
    /// Room for how many segments of each thread are lost.
    first: Vec<u32>,
    /// Room for all buffers.
    buffers: Vec<Buffer>,
}

impl<'s, 't, 'p, T> Model for ReadyRun<'s, 't, 'p, T> {
    ghost use Rattle.thread_run.specs.Ready.{ReadyRun as Ready};
    ghost use Rattle.thread_run.specs.private.Rooms.{HasPool, IsRunRoom};

    ghost Value = { Ready };

    ghost view = { λ r. record { table = r.threads.table; setup = r.setup } };

    ghost invariant = { λ r. HasPool r.threads r.setup r.pool r.hands.items
        × IsRunRoom r.setup r.recorders r.parts r.first r.buffers };
}

impl<'s, 't, 'p, T: Threads + Wait + Sync> ReadyRun<'s, 't, 'p, T> {
    /// Takes all memory of a run. The threads will start through the starter. `NoMemory` means that an
    /// allocation was refused.
    pub fn new<G>(
        starter: &Starter<'_, T, G>,
        alloc: Global,
        steps: &'s Steps<'s>,
        table: &'t CodeTable,
        setup: &Setup,
    ) -> Result<ReadyRun<'s, 't, 'p, T>, NoMemory>
        requires program { (script_of table.now).program ≡ steps.now }
        requires threads { (script_of table.now).threads ≡ setup.now.threads }
        requires setup { IsSetup setup.now }
        ensures table { IfOk result (λ ready. ready.table ≡ table.now) }
        ensures setup { IfOk result (λ ready. ready.setup ≡ setup.now) }
    {
        let threads = setup.threads as usize;
        let first = Vec::with_capacity(alloc, threads)?;
        let buffers = Vec::with_capacity(alloc, setup.max as usize)?;
        let recorders = Vec::with_capacity(alloc, threads)?;
        let parts = room_for(alloc, setup.threads)?;
        let (pool, hands) = Pool::new(starter.runtime(), alloc, setup)?;
        let threads = ReadyThreads::new(alloc, steps, table, setup.threads, setup.limits)?;
        Ok(ReadyRun {
            setup: *setup,
            threads,
            pool,
            hands,
            recorders,
            parts,
            first,
            buffers,
        })
    }

    /// Makes the micro steps before the place where threads start. Then runs all threads, and the rest
    /// of the script beside them. No clause says that the call returns.
    pub fn go<G: Gate + Sync>(
        self,
        starter: &mut Starter<'_, T, G>,
        patcher: &mut PatchSeat,
    ) -> RunEnd<'s>
        requires own { IsPatcherOf self.table patcher.old }
        requires begins { patch_view patcher.old ≡ first_patch (script_of self.table) }
        ensures started { has_started starter.new ≡ true }
        ensures own { IsPatcherOf self.entry.table patcher.new }
        ensures script { HasPatched (script_of self.entry.table) (patch_view patcher.new) }
        ensures seats { All (IsWorkerOf self.entry.table) result.seats.items }
        ensures left { HaveRunBeside (script_of self.entry.table).program
            (commands_of (script_of self.entry.table).lines) self.entry.setup
            result.cpus.items (map work_view result.seats.items) result.segments.items result.first.items
            result.buffers.items }
    {
        kept_buffers_hold_events();
        let ReadyRun {
            setup,
            threads,
            pool,
            hands,
            recorders,
            parts,
            first,
            buffers,
        } = self;
        threads.run_prefix(patcher);
        let rt = starter.runtime();
        let recorders = new_recorders(rt, &pool, hands, &setup, recorders);
        let end = threads.run_workers(starter, patcher, recorders);
        let gathered = gathered_of(end, parts);
        left_by(rt, &setup, pool, gathered, first, buffers)
    }
}

/// Runs all threads of a table's script, and the script beside them, from the first micro step on. It
/// is both calls of `ReadyRun`, one after the other.
///
/// `NoMemory` means that an allocation was refused. The patcher has made no micro step then, no seat
/// was given, and no thread has run. No clause says that the call returns.
pub fn run<'s, T: Threads + Wait + Sync, G: Gate + Sync>(
    rt: &T,
    alloc: Global,
    steps: &'s Steps<'s>,
    table: &CodeTable,
    patcher: &mut PatchSeat,
    setup: &Setup,
    gate: &G,
) -> Result<RunEnd<'s>, NoMemory>
    requires own { IsPatcherOf table.now patcher.old }
    requires begins { patch_view patcher.old ≡ first_patch (script_of table.now) }
    requires program { (script_of table.now).program ≡ steps.now }
    requires threads { (script_of table.now).threads ≡ setup.now.threads }
    requires setup { IsSetup setup.now }
    ensures own { IsPatcherOf table.now patcher.new }
    ensures script { OnOk result (HasPatched (script_of table.now) (patch_view patcher.new)) }
    ensures unmoved { OnErr result (patch_view patcher.new ≡ patch_view patcher.old) }
    ensures seats { IfOk result (λ end. All (IsWorkerOf table.now) end.seats.items) }
    ensures left { IfOk result (λ end. HaveRunBeside steps.now (commands_of (script_of table.now).lines) setup.now
        end.cpus.items (map work_view end.seats.items) end.segments.items end.first.items end.buffers.items) }
{
    let mut starter = Starter::new(rt, gate);
    let ready = ReadyRun::new(&starter, alloc, steps, table, setup)?;
    Ok(ready.go(&mut starter, patcher))
}

/// The recorders of all threads, thread 1 first, in the room for them. Each begins with its pass of the
/// pool and its buffer.
fn new_recorders<'p, T>(
    rt: &'p T,
    pool: &'p Pool,
    hands: Vec<(PoolPass, Buffer)>,
    setup: &Setup,
    mut recorders: Vec<FdrRecorder<'p, T>>,
) -> Vec<FdrRecorder<'p, T>>
    requires pool { pool.now.setup ≡ setup.now }
    requires hands { AreNew pool.now 1 setup.now.threads hands.items }
    requires setup { IsSetup setup.now }
    requires none { recorders.items ≡ [] }
    requires room { length hands.items ≤ vec_capacity recorders }
    ensures count { length result.items ≡ setup.now.threads }
    ensures recorders { AreNewRecorders pool.now result.items }
{
    let mut number = 0;
    for (pass, hand) in hands {
        number += 1;
        recorders.push_reserved(FdrRecorder::new(rt, pool, pass, hand, number, setup));
    }
    recorders
}

/// What the threads have when they have ended. `room` is the room for what their recorders have.
fn gathered_of<'s, T>(end: RecordedEnd<'s, FdrRecorder<'_, T>>, room: PoolParts) -> Gathered<'s>
    requires { IsPoolRoom (length end.recorders.items) room }
    ensures cpus { result.cpus ≡ end.entry.cpus }
    ensures seats { result.seats ≡ end.entry.seats }
    ensures parts { AreParts end.entry.recorders.items result.parts }
{
    let RecordedEnd {
        cpus,
        seats,
        recorders,
    } = end;
    let parts = take_apart(recorders, room);
    Gathered { cpus, seats, parts }
}

/// Room for what the recorders of threads have of their pool, with nothing in it.
fn room_for(alloc: Global, threads: u32) -> Result<PoolParts, NoMemory>
    ensures { IfOk result (IsPoolRoom threads) }
{
    let threads = threads as usize;
    Ok(PoolParts {
        segments: Vec::with_capacity(alloc, threads)?,
        passes: Vec::with_capacity(alloc, threads)?,
        hands: Vec::with_capacity(alloc, threads)?,
    })
}

/// What the recorders have of their pool, in the room for it.
fn take_apart<T>(recorders: Vec<FdrRecorder<'_, T>>, mut room: PoolParts) -> PoolParts
    requires { IsPoolRoom (length recorders.items) room }
    ensures { AreParts recorders.entry.items result }
{
    for recorder in recorders {
        room.segments.push_reserved(recorder.segments());
        let (pass, hand) = recorder.parts();
        room.passes.push_reserved(pass);
        room.hands.push_reserved(hand);
    }
    room
}

/// What a run leaves. Drains the pool, and adds the buffers in the threads' hands. `first` and
/// `buffers` are empty, with room for all threads and all buffers.
fn left_by<'s, R: Wait>(
    rt: &R,
    setup: &Setup,
    pool: Pool,
    gathered: Gathered<'s>,
    mut first: Vec<u32>,
    mut buffers: Vec<Buffer>,
) -> RunEnd<'s>
    requires pool { pool.setup ≡ setup.now }
    requires passes { AreOf pool 1 gathered.parts.passes.items }
    requires count { (length gathered.parts.segments.items ≡ setup.now.threads)
        × (length gathered.parts.passes.items ≡ setup.now.threads)
        × (length gathered.parts.hands.items ≡ setup.now.threads) }
    requires setup { IsSetup setup.now }
    requires no_first { first.items ≡ [] }
    requires no_buffer { buffers.items ≡ [] }
    requires room { (setup.now.threads ≤ vec_capacity first) × (setup.now.max ≤ vec_capacity buffers) }
    ensures cpus { result.cpus.items ≡ gathered.entry.cpus.items }
    ensures seats { result.seats.items ≡ gathered.entry.seats.items }
    ensures segments { result.segments.items ≡ gathered.entry.parts.segments.items }
    ensures first { result.first.items ≡ lost_beside result.buffers.items 1 gathered.entry.parts.segments.items }
    ensures buffers { (left : List Filled) × IsLeft setup.now (sealed_of gathered.entry.parts.passes.items) left
        × (result.buffers.items ≡ left ++ gathered.entry.parts.hands.items) }
{
    let Gathered { cpus, seats, parts } = gathered;
    let PoolParts {
        segments,
        passes,
        hands,
    } = parts;
    pool.drain(rt, passes, &mut buffers);
    add_hands(hands, &mut buffers);
    add_lost(&segments, &buffers, &mut first);
    RunEnd {
        cpus,
        seats,
        segments,
        first,
        buffers,
    }
}

/// Moves the buffers of the threads' hands to the end of others.
fn add_hands(hands: Vec<Buffer>, buffers: &mut Vec<Buffer>)
    requires room { vec_len buffers.old + vec_len hands ≤ vec_capacity buffers.old }
    ensures { buffers.new.items ≡ buffers.old.items ++ hands.items }
{
    for hand in hands {
        buffers.push_reserved(hand);
    }
}

/// Adds for each thread how many of its segments are in none of the buffers. `segments` says how many
/// there were, thread 1 first.
fn add_lost(segments: &[u32], buffers: &[Buffer], lost: &mut Vec<u32>)
    requires few { length segments.now ≤ MAX_THREADS }
    requires room { vec_len lost.old + length segments.now ≤ vec_capacity lost.old }
    ensures { lost.new.items ≡ lost.old.items ++ lost_beside buffers.now 1 segments.now }
{
    let mut thread = 0;
    for segments in segments {
        thread += 1;
        lost.push_reserved(lost_of(thread, *segments, buffers));
    }
}

/// How many of a thread's segments are in none of the buffers.
fn lost_of(thread: u32, segments: u32, buffers: &[Buffer]) -> u32
    ensures { result ≡ segments - count_by (λ buffer. buffer.thread == thread) buffers.now }
{
    let left = buffers
        .iter()
        .filter(|buffer| buffer.thread() == thread)
        .count();
    (segments as usize).saturating_sub(left) as u32
}
