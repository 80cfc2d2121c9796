//! The loads of all threads, put in one order with the micro steps.

ghost use Rattle.std.specs.Prelude.{◌≡◌, ◌<◌, ◌≤◌, ◌+◌, ◌^◌, ◌∷◌, ◌++◌, [], ℕ, All, List, IfOk, OnOk, length, map};
ghost use Rattle.step_sim.specs.declared.turns.Turns.{Turns as Line};
ghost use Rattle.patch_script.specs.Limits.{most_micros};
ghost use Rattle.run_order.specs.private.Ordered.{ordered, load_line, turns_at};
ghost use Rattle.run_order.specs.private.Lines.{HasJoined};
ghost use Rattle.audit_check.specs.Stops.{places_of};
ghost use Rattle.run_order.specs.private.Stops.{AllFrom, ArePassed, AreStops, Passes, loads_at, places_in};

use crate::lines::ScheduleLines;
use audit_check::Stop;
use std::alloc::Global;
use step_sim::Turns;
use xray_io::NoMemory;

/// The schedule of the loads of threads, thread 1 first, and of the micro steps from the start of the
/// threads up to the end of the script. At a place the threads come in their order, and then the patcher
/// goes on. Takes time in proportion to the stops.
pub(crate) fn schedule_lines(
    alloc: Global,
    threads: &[Vec<Stop>],
    start: u32,
    total: u32,
) -> Result<Vec<Turns>, NoMemory>
    requires few { length threads.now ≤ 16 }
    requires start { start ≤ total }
    requires total { total ≤ most_micros }
    requires stops { All (λ stops. AreStops start stops.items) threads.now }
    ensures { IfOk result (λ lines. lines.items
        ≡ ordered start total (map (λ stops. places_of stops.items) threads.now)) }
{
    let mut left = all_left(alloc, threads)?;
    let mut lines = ScheduleLines::new(alloc);
    let mut place = start;
    let mut next = next_place(&left);
    'stops: while next <= total {
        lines.micro_steps(next - place);
        add_turns(&mut left, next, &mut lines)?;
        place = next;
        next = next_place(&left);
    }
    lines.micro_steps(total - place);
    lines.done()
}

/// The first place at which loads are left, or the last place that there may be.
fn next_place(left: &[&[Stop]]) -> u32
    ensures next { (from : ℕ) → AllFrom from left.now → AllFrom result left.now }
    ensures late { (from : ℕ) → from ≤ u32.MAX → AllFrom from left.now → from ≤ result }
{
    let mut next = u32::MAX;
    for stops in left {
        if let Some(stop) = stops.first() {
            next = next.min(stop.place);
        }
    }
    next
}

/// The stops of each thread that are left, before the first place.
fn all_left<'a>(alloc: Global, threads: &'a [Vec<Stop>]) -> Result<Vec<&'a [Stop]>, NoMemory>
    ensures count { IfOk result (λ left. length left.items ≡ length threads.now) }
    ensures left { IfOk result (λ left. map (λ stops. stops.now) left.items ≡ map (λ stops. stops.items) threads.now) }
{
    let mut left = Vec::with_capacity(alloc, threads.len())?;
    for stops in threads {
        left.push(&stops[..])?;
    }
    Ok(left)
}

/// Adds the turns at a place, thread by thread, whether or not loads are left there.
fn add_turns(left: &mut Vec<&[Stop]>, place: u32, lines: &mut ScheduleLines) -> Result<(), NoMemory>
    requires few { length left.old.items ≤ 16 }
    requires stops { AllFrom place left.old.items }
    ensures passed { OnOk result (ArePassed place (length left.old.items) left.old.items left.new.items) }
    ensures added { OnOk result ((turns : List Line) → HasJoined turns lines.old
        → HasJoined (turns ++ turns_at (places_in left.old.items) place) lines.new) }
    ensures steps { OnOk result (lines.new.steps ≤ lines.old.steps) }
{
    for i in 0..left.len() {
        let later = add_loads(left[i], place, i as u32 + 1, lines)?;
        left[i] = later;
    }
    Ok(())
}

/// Adds the loads of a thread at a place, if it makes some there. Returns the stops that are left.
fn add_loads<'a>(
    left: &'a [Stop],
    place: u32,
    thread: u32,
    lines: &mut ScheduleLines,
) -> Result<&'a [Stop], NoMemory>
    requires { AreStops place left.now }
    ensures passed { IfOk result (λ later. Passes place left.now later.now) }
    ensures added { OnOk result ((turns : List Line) → HasJoined turns lines.old
        → HasJoined (turns ++ load_line thread (loads_at place left.now)) lines.new) }
    ensures steps { OnOk result (lines.new.steps ≤ lines.old.steps) }
{
    let Some((stop, later)) = left.split_first() else {
        return Ok(left);
    };
    if stop.place != place {
        return Ok(left);
    }
    lines.loads(thread, stop.loads)?;
    Ok(later)
}
