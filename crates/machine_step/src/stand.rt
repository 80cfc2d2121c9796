//! Where a thread is, and how it runs from one sled to the next.

ghost use Rattle.std.specs.Prelude.{◌≡◌, ◌<◌, ℕ, List};
ghost use Rattle.xray_image.specs.Program.{IsAccepted};
ghost use Rattle.machine_step.specs.private.Machine.{IsWithin};
ghost use Rattle.machine_step.specs.private.Standing.{IsAtSled, PassesTo, RunsOnTo, due_sled};
ghost use Rattle.machine_step.specs.private.Steps.{IsPlaceOf};

use crate::end::End;
use crate::limits::Limits;
use crate::machine::Machine;
use crate::stage::Stage;
use crate::step::{Step, Way};
use crate::steps::Steps;

/// Where a thread is between two loads.
#[derive(Clone, Copy)]
pub(crate) enum Stand {
    /// Before a sled that it has a passing for. `place` is the sled's place among the steps, and
    /// `sled` its number in the map.
    Gate {
        place: usize,
        sled: u32,
    },
    /// In the passing of that sled, before a load.
    Loading {
        place: usize,
        sled: u32,
        stage: Stage,
    },
    /// At its end.
    Ended {
        end: End,
    },
}

/// Runs a machine from a place to the next sled that it has a passing for, or to its end.
#[inline(always)]
pub(crate) fn run_to_sled(
    machine: &mut Machine,
    steps: &Steps,
    limits: Limits,
    start: usize,
) -> Stand
    requires accepted { (bytes : List ℕ) × IsAccepted bytes steps.now }
    requires within { IsWithin limits machine.old }
    requires placed { (address : ℕ) × IsPlaceOf steps.now.units address start }
    ensures runs { (address : ℕ) → IsPlaceOf steps.now.units address start
        → RunsOnTo steps.now limits address machine.old result machine.new }
    ensures within { IsWithin limits machine.new }
{
    let mut place = start;
    'steps: loop {
        let step = steps.at(place);
        if let Some(sled) = due_sled(machine, step, limits) {
            return Stand::Gate { place, sled };
        }
        match machine.step(step, place, limits) {
            Way::To(next) => place = next,
            Way::Back(address) => place = steps.place_of(address),
            Way::Ends(end) => return Stand::Ended { end },
        }
    }
}

/// The sled of a step, if it has one and a passing is left for it.
#[inline]
fn due_sled(machine: &Machine, step: &Step, limits: Limits) -> Option<u32>
    ensures { result ≡ due_sled limits machine.now step.now }
{
    if machine.passings == limits.passings {
        return None;
    }
    step.sled()
}

/// Lets a machine before a sled pass it, and run on to the next one or to its end.
#[inline(always)]
pub(crate) fn pass_sled(machine: &mut Machine, steps: &Steps, limits: Limits, place: usize) -> Stand
    requires accepted { (bytes : List ℕ) × IsAccepted bytes steps.now }
    requires within { IsWithin limits machine.old }
    requires at { (sled : ℕ) × (address : ℕ) × IsAtSled steps.now limits address place sled machine.old }
    ensures passes { (address sled : ℕ) → IsAtSled steps.now limits address place sled machine.old
        → PassesTo steps.now limits address machine.old result machine.new }
    ensures within { IsWithin limits machine.new }
{
    match machine.step_over(steps.at(place), place, limits) {
        Way::To(next) => run_to_sled(machine, steps, limits, next),
        Way::Back(address) => {
            let next = steps.place_of(address);
            run_to_sled(machine, steps, limits, next)
        }
        Way::Ends(end) => Stand::Ended { end },
    }
}
