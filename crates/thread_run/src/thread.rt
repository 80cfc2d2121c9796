//! Threads before their first load.

ghost use Rattle.std.specs.Prelude.{◌≡◌, ◌≤◌, IfOk};
ghost use Rattle.machine_step.specs.Setups.{AreLimits};
ghost use Rattle.thread_run.specs.Workers.{IsFreshThread};

use machine_step::{Cpu, Limits, Steps, some_end};
use patch_script::Script;
use sled_words::MAX_THREADS;
use std::alloc::Global;
use traced_run::some_file_holds;
use xray_io::NoMemory;

/// The thread of this number, for a script that was read for an image and a number of threads. The
/// script holds it where it says. All threads of the image borrow its steps. `NoMemory` means that
/// an allocation was refused.
pub fn new_cpu<'a>(
    alloc: Global,
    steps: &'a Steps<'a>,
    script: &Script,
    threads: u32,
    number: u32,
    limits: Limits,
) -> Result<Cpu<'a>, NoMemory>
    requires program { script.now.program ≡ steps.now }
    requires threads { script.now.threads ≡ threads }
    requires few { threads ≤ MAX_THREADS }
    requires number { (1 ≤ number) × (number ≤ threads) }
    requires limits { AreLimits limits }
    ensures fresh { IfOk result (IsFreshThread script.now) }
    ensures number { IfOk result (λ cpu. cpu.thread ≡ number) }
    ensures limits { IfOk result (λ cpu. cpu.limits ≡ limits) }
{
    some_file_holds(steps);
    some_end();
    let hold = script.hold_of(number);
    Cpu::new(alloc, steps, number, threads, hold, limits)
}
