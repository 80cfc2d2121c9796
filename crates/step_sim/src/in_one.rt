//! A replay in one call.

ghost use Rattle.std.specs.Prelude.{◌≡◌, ◌≤◌, ◌↔◌, ℕ, All, Err, Some, IfOk};
ghost use Rattle.machine_step.specs.Setups.{IsSetup};
ghost use Rattle.patch_script.specs.{Plans.{waiting_line}, Refusals.{commands_of}};
ghost use Rattle.step_sim.specs.declared.sim_fault.SimFault.TheVariants.{Waits};
ghost use Rattle.step_sim.specs.{Replayed.{IsSimulated}, Schedules.{AreTurnsOf}};

use crate::replay::SimEnd;
use crate::schedule::Schedule;
use crate::sim_fault::SimFault;
use crate::start::SimStart;
use machine_step::{Setup, Steps};
use patch_script::Script;
use std::alloc::Global;

/// Replays a schedule over the image of these steps, beside a script. The threads that are left
/// borrow the steps.
///
/// `Waits` comes exactly when the script has a line at which a thread or the patcher may wait. It
/// has the number of the first such line. `NoMemory` means that an allocation was refused. All
/// memory is taken before the first step.
pub fn simulate<'a>(
    alloc: Global,
    steps: &'a Steps<'a>,
    script: &Script,
    schedule: &Schedule,
    setup: &Setup,
) -> Result<SimEnd<'a>, SimFault>
    requires program { script.now.program ≡ steps.now }
    requires threads { script.now.threads ≡ setup.now.threads }
    requires setup { IsSetup setup.now }
    requires turns { All (AreTurnsOf setup.now.threads) schedule.now }
    ensures waits { (line : ℕ) → (result ≡ Err (Waits line)) ↔ (waiting_line script.now.lines ≡ Some line) }
    ensures left { IfOk result (λ end. IsSimulated steps.now (commands_of script.now.lines) schedule.now setup.now
        end.cpus.items end.sealed.items end.segments.items end.first.items end.buffers.items) }
{
    let start = SimStart::new(alloc, steps, script, setup)?;
    Ok(start.play(schedule))
}
