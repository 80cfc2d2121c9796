//! The turns of one thread of a replay.

ghost use Rattle.std.specs.Prelude.{◌≡◌, ◌<◌, ◌≤◌, List, IfNone, IfOk, IfSome};
ghost use Rattle.std.specs.Bool.{OnFalse, OnTrue};
ghost use Rattle.patch_script.specs.Refusals.{commands_of};
ghost use Rattle.machine_step.specs.declared.want.Want.{Want};
ghost use Rattle.machine_step.specs.{Loads.{Load}, PlainStep.{Passing}, Setups.{IsSetup}};
ghost use Rattle.machine_step.specs.Traced.{HasLoaded, IsGate, IsSameThread, loads_left};
ghost use Rattle.machine_step.specs.Underway.{IsPassingOf, in_passing};
ghost use Rattle.step_sim.specs.{Plays.{turns}, Replay.{Cast, Moment, thread_turn}};
ghost use Rattle.step_sim.specs.private.{Turns.{RunsOut}, Standing.{HasBegun, Rests, StandAt}};
ghost use Rattle.step_sim.specs.Pool.{Pooled};
ghost use Rattle.step_sim.specs.private.Turns.{PooledRunsOut};
ghost use Rattle.step_sim.specs.private.Recording.{IsFound, LeadsBy, RecordAt, Recording, Records, come_to, pooling_in, turn_in, underway_of};

use crate::along::a_replay_reads_along;
use crate::patcher::Patcher;
use crate::pool::Pool;
use machine_step::{Cpu, Setup, Steps, Underway, Want, some_end};
use patch_script::Script;
use std::alloc::Global;
use traced_run::{passings_are_few, some_file_holds};
use xray_io::NoMemory;

/// A thread before its first load.
pub(crate) fn new_thread<'a>(
    alloc: Global,
    steps: &'a Steps<'a>,
    script: &Script,
    setup: &Setup,
    number: u32,
) -> Result<Cpu<'a>, NoMemory>
    requires number { (1 ≤ number) × (number ≤ setup.now.threads) }
    requires setup { IsSetup setup.now }
    ensures { IfOk result
        (HasBegun steps.now (commands_of script.now.lines) setup.now.threads setup.now.limits number) }
{
    some_file_holds(steps);
    some_end();
    let hold = script.hold_of(number);
    Cpu::new(alloc, steps, number, setup.threads, hold, setup.limits)
}

/// Lets a thread into its next passing, if it is before one.
#[inline(always)]
fn let_in(cpu: &mut Cpu)
    ensures thread { IsSameThread cpu.old cpu.new }
    ensures loads { (passed : List Passing) (loads : List Load)
        → HasLoaded cpu.old passed loads → HasLoaded cpu.new passed loads }
    ensures no_gate { IsGate cpu.new.want → ⊥ }
    ensures nearer { loads_left cpu.new ≤ loads_left cpu.old }
{
    if let Want::Gate(_) = cpu.want() {
        cpu.opened();
    }
}

/// The word that a thread loads next. The thread is let into its passing for that. `None` if it has
/// ended.
#[inline(always)]
fn next_word(cpu: &mut Cpu) -> Option<u32>
    ensures thread { IsSameThread cpu.old cpu.new }
    ensures loads { (passed : List Passing) (loads : List Load)
        → HasLoaded cpu.old passed loads → HasLoaded cpu.new passed loads }
    ensures word { IfSome result (λ word. cpu.new.want ≡ Want.Load word) }
    ensures ended { IfNone result (Rests cpu.new) }
    ensures nearer { loads_left cpu.new ≤ loads_left cpu.old }
{
    let_in(cpu);
    passings_are_few(cpu);
    match cpu.want() {
        Want::Load(word) => Some(word),
        Want::Gate(_) | Want::Done(_) => None,
    }
}

/// A turn of a thread: its next load. Returns whether there was one. A thread that has ended makes
/// none.
#[inline(always)]
fn make_load(cpu: &mut Cpu, patcher: &Patcher, pool: &mut Pool) -> bool
    requires records { Records patcher.now cpu.old pool.old }
    ensures thread { IsSameThread cpu.old cpu.new }
    ensures at { (cast : Cast) (moment : Moment) → StandAt cast moment patcher.now cpu.old
        → StandAt cast (thread_turn cast cpu.old.thread moment) patcher.now cpu.new }
    ensures records { (r : Recording) (pooled : Pooled) → RecordAt r pooled patcher.now cpu.old pool.old
        → RecordAt r (turn_in r cpu.old.thread pooled) patcher.now cpu.new pool.new }
    ensures ended { OnFalse result (Rests cpu.new) }
    ensures nearer { OnTrue result (loads_left cpu.new < loads_left cpu.old) }
{
    a_replay_reads_along();
    match next_word(cpu) {
        Some(word) => {
            passings_are_few(cpu);
            let thread = cpu.thread();
            let event = cpu.give(patcher.load(word));
            pool.note_any(thread, event);
            true
        }
        None => false,
    }
}

/// Makes this many turns of a thread, or all turns up to its end if there are fewer.
pub(crate) fn make_loads(cpu: &mut Cpu, patcher: &Patcher, pool: &mut Pool, count: u32)
    requires records { Records patcher.now cpu.old pool.old }
    ensures thread { IsSameThread cpu.old cpu.new }
    ensures at { (cast : Cast) (moment : Moment) → StandAt cast moment patcher.now cpu.old
        → StandAt cast (turns count (thread_turn cast cpu.old.thread) moment) patcher.now cpu.new }
    ensures records { (r : Recording) (pooled : Pooled) → RecordAt r pooled patcher.now cpu.old pool.old
        → RecordAt r (turns count (turn_in r cpu.old.thread) pooled) patcher.now cpu.new pool.new }
{
    for _load in 0..count {
        if !make_load(cpu, patcher, pool) {
            return;
        }
    }
}

/// Where a passing is whose loads the thread hasn't been given yet.
#[derive(Clone, Copy)]
pub(crate) enum Found {
    /// Before a load.
    More(Underway),
    /// Before its last load.
    Last(Underway),
}

/// A turn of a thread for which it isn't given the value: the load at which its passing is, unless it is
/// the last one. Returns where the passing is then.
#[inline(always)]
fn load_word(cpu: &Cpu, underway: Underway, patcher: &Patcher, pool: &mut Pool) -> Found
    requires of { IsPassingOf cpu.now underway }
    requires records { Records patcher.now (in_passing cpu.now underway) pool.old }
    ensures found { IsFound patcher.now cpu.now pool.new result }
    ensures leads { LeadsBy patcher.now (in_passing cpu.now underway) pool.old (come_to cpu.now result) pool.new }
    ensures nearer { loads_left (come_to cpu.now result) ≤ loads_left (in_passing cpu.now underway) }
{
    a_replay_reads_along();
    passings_are_few(cpu);
    let word = cpu.word(underway);
    let value = patcher.load(word);
    match cpu.after(underway, value) {
        Some(next) => {
            pool.note_any(cpu.thread(), None);
            Found::More(next)
        }
        None => Found::Last(underway),
    }
}

/// A turn of a thread in its passing, unless only the last load is left.
#[inline(always)]
fn load_next(cpu: &Cpu, found: Found, patcher: &Patcher, pool: &mut Pool) -> Found
    requires found { IsFound patcher.now cpu.now pool.old found }
    ensures found { IsFound patcher.now cpu.now pool.new result }
    ensures leads { LeadsBy patcher.now (come_to cpu.now found) pool.old (come_to cpu.now result) pool.new }
    ensures nearer { loads_left (come_to cpu.now result) ≤ loads_left (come_to cpu.now found) }
{
    match found {
        Found::More(underway) => load_word(cpu, underway, patcher, pool),
        Found::Last(_) => found,
    }
}

/// Lets a thread come to where its passing is.
#[inline(always)]
fn come_to(cpu: &mut Cpu, found: Found)
    requires { IsPassingOf cpu.old (underway_of found) }
    ensures { cpu.new ≡ come_to cpu.old found }
{
    match found {
        Found::More(underway) | Found::Last(underway) => cpu.come_to(underway),
    }
}

/// The turns of a thread from the head of a sled up to the last load of its passing. The thread learns
/// only where they bring it, so that the loads are straight code.
#[inline(always)]
fn load_to_last(cpu: &mut Cpu, head: Underway, patcher: &Patcher, pool: &mut Pool)
    requires of { IsPassingOf cpu.old head }
    requires at { in_passing cpu.old head ≡ cpu.old }
    requires records { Records patcher.now cpu.old pool.old }
    ensures thread { IsSameThread cpu.old cpu.new }
    ensures leads { LeadsBy patcher.now cpu.old pool.old cpu.new pool.new }
    ensures nearer { loads_left cpu.new ≤ loads_left cpu.old }
{
    let head = load_next(cpu, Found::More(head), patcher, pool);
    let id = load_next(cpu, head, patcher, pool);
    let opcode = load_next(cpu, id, patcher, pool);
    let offset = load_next(cpu, opcode, patcher, pool);
    let handler = load_next(cpu, offset, patcher, pool);
    let last = load_next(cpu, handler, patcher, pool);
    come_to(cpu, last);
}

/// The turns of a thread before the last one of its passing, if it wants the head of a sled. Otherwise none.
#[inline(always)]
fn load_all_but_last(cpu: &mut Cpu, patcher: &Patcher, pool: &mut Pool)
    requires { Records patcher.now cpu.old pool.old }
    ensures thread { IsSameThread cpu.old cpu.new }
    ensures leads { LeadsBy patcher.now cpu.old pool.old cpu.new pool.new }
    ensures nearer { loads_left cpu.new ≤ loads_left cpu.old }
{
    if let Some(head) = cpu.underway() {
        load_to_last(cpu, head, patcher, pool);
    }
}

/// Turns of a thread: all loads of its passing, or its next load. Returns whether there was one. A thread
/// that has ended makes none.
fn make_passing(cpu: &mut Cpu, patcher: &Patcher, pool: &mut Pool) -> bool
    requires records { Records patcher.now cpu.old pool.old }
    ensures thread { IsSameThread cpu.old cpu.new }
    ensures leads { LeadsBy patcher.now cpu.old pool.old cpu.new pool.new }
    ensures ended { OnFalse result (Rests cpu.new) }
    ensures nearer { OnTrue result (loads_left cpu.new < loads_left cpu.old) }
{
    let_in(cpu);
    load_all_but_last(cpu, patcher, pool);
    make_load(cpu, patcher, pool)
}

/// Makes all turns of a thread up to its end.
pub(crate) fn run_out(cpu: &mut Cpu, patcher: &Patcher, pool: &mut Pool)
    requires records { Records patcher.now cpu.old pool.old }
    ensures thread { IsSameThread cpu.old cpu.new }
    ensures at { (cast : Cast) (moment : Moment) → StandAt cast moment patcher.now cpu.old
        → (last : Moment) × RunsOut cast cpu.old.thread moment last × StandAt cast last patcher.now cpu.new }
    ensures records { (r : Recording) (pooled : Pooled) → RecordAt r pooled patcher.now cpu.old pool.old
        → (last : Pooled) × PooledRunsOut r.cast (pooling_in r) cpu.old.thread pooled last
        × RecordAt r last patcher.now cpu.new pool.new }
    ensures ended { Rests cpu.new }
{
    'passings: while make_passing(cpu, patcher, pool) {}
}
