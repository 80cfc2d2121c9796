//! A replay before its first turn. All its memory is asked for here.

ghost use Rattle.std.specs.Prelude.{◌≡◌, ◌≤◌, ◌↔◌, ℕ, All, Err, Some, IfOk, length};
ghost use Rattle.machine_step.specs.Setups.{IsSetup};
ghost use Rattle.patch_script.specs.{Plans.{waiting_line}, Refusals.{commands_of}};
ghost use Rattle.step_sim.specs.declared.sim_fault.SimFault.TheVariants.{Waits};
ghost use Rattle.step_sim.specs.{Replayed.{IsSimulated}, Schedules.{AreTurnsOf}};
ghost use Rattle.step_sim.specs.private.Standing.{AllHaveBegun};

use crate::patcher::Patcher;
use crate::pool::{Left, Pool, room_for};
use crate::replay::{SimEnd, play};
use crate::schedule::Schedule;
use crate::sim_fault::SimFault;
use crate::thread::new_thread;
use fdr_buffer::{Buffer, segments_hold_all};
use machine_step::{Cpu, Setup, Steps, a_traced_thread_ends_as_its_plain_run};
use patch_script::Script;
use std::alloc::Global;
use std::marker::Model;
use traced_run::passings_fit;
use xray_io::NoMemory;

/// A replay before its first turn, with all that it needs: the words as they are when the threads
/// start, the threads before their first loads, the buffers, and room for what is left at the end.
/// `new` may run out of memory, and `play` can't.
#[derive(Drop)]
pub struct SimStart<'a, 's> {
    patcher: Patcher<'s>,
    cpus: Vec<Cpu<'a>>,
    pool: Pool,
    /// Room for the buffers that are left.
    kept: Vec<Buffer>,
    /// Room for the number of segments of each thread.
    segments: Vec<u32>,
    setup: Setup,
}

impl<'a, 's> Model for SimStart<'a, 's> {
    ghost use Rattle.step_sim.specs.Starts.{Start};

    ghost Value = { Start };

    ghost use Rattle.step_sim.specs.private.Starting.{start_in, IsAtStart};

    ghost view = { start_in };

    ghost invariant = { IsAtStart };
}

impl<'a, 's> SimStart<'a, 's> {
    /// Prepares a replay of this script over the image of these steps. `Waits` comes exactly when
    /// the script has a line at which a thread or the patcher may wait. It has the number of the
    /// first such line. `NoMemory` means that an allocation was refused.
    pub fn new(
        alloc: Global,
        steps: &'a Steps<'a>,
        script: &'s Script,
        setup: &Setup,
    ) -> Result<SimStart<'a, 's>, SimFault>
        requires program { script.now.program ≡ steps.now }
        requires threads { script.now.threads ≡ setup.now.threads }
        requires setup { IsSetup setup.now }
        ensures waits { (line : ℕ) → (result ≡ Err (Waits line)) ↔ (waiting_line script.now.lines ≡ Some line) }
        ensures start { IfOk result (λ start. start
            ≡ record { program = steps.now; script = commands_of script.now.lines; setup = setup.now }) }
    {
        if let Some(line) = script.waits() {
            return Err(SimFault::Waits(line));
        }
        let image = steps.image();
        let patcher = Patcher::new(alloc, image, script, setup.threads)?;
        let cpus = new_threads(alloc, steps, script, setup)?;
        let pool = Pool::new(alloc, setup)?;
        let kept = room_for(alloc, setup.max)?;
        let segments = room_for(alloc, setup.threads)?;
        Ok(SimStart {
            patcher,
            cpus,
            pool,
            kept,
            segments,
            setup: *setup,
        })
    }

    /// Replays a schedule. Its lines are taken in order. Their turns are loads of the threads and
    /// micro steps of the patcher. After them thread 1 runs to its end, then thread 2, and so on.
    /// The threads start after the micro steps before the script's `go`. The turns of a thread that
    /// has ended do nothing, and neither do those of the patcher after the script's last step.
    /// Micro steps that are left when all threads have ended aren't made, since no load would see
    /// them. A replay always comes to an end.
    pub fn play(self, schedule: &Schedule) -> SimEnd<'a>
        requires { All (AreTurnsOf self.setup.threads) schedule.now }
        ensures { IsSimulated self.entry.program self.entry.script schedule.now self.entry.setup
            result.cpus.items result.sealed.items result.segments.items result.first.items
            result.buffers.items }
    {
        a_traced_thread_ends_as_its_plain_run();
        passings_fit();
        segments_hold_all();
        let SimStart {
            mut patcher,
            mut cpus,
            mut pool,
            kept,
            segments,
            setup,
        } = self;
        play(&mut cpus, &mut patcher, &mut pool, schedule.lines());
        let Left {
            sealed,
            segments,
            first,
            kept,
        } = pool.collect(setup.threads, kept, segments);
        SimEnd {
            cpus,
            sealed,
            segments,
            first,
            buffers: kept,
        }
    }
}

/// All threads before their first loads, in order.
fn new_threads<'a>(
    alloc: Global,
    steps: &'a Steps<'a>,
    script: &Script,
    setup: &Setup,
) -> Result<Vec<Cpu<'a>>, NoMemory>
    requires { IsSetup setup.now }
    ensures count { IfOk result (λ cpus. length cpus.items ≡ setup.now.threads) }
    ensures begun { IfOk result (λ cpus. AllHaveBegun steps.now (commands_of script.now.lines)
        setup.now.threads setup.now.limits cpus.items) }
{
    let mut cpus = Vec::with_capacity(alloc, setup.threads as usize)?;
    for number in 0..setup.threads {
        cpus.push(new_thread(alloc, steps, script, setup, number + 1)?)?;
    }
    Ok(cpus)
}
