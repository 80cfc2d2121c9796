//! What workers know of scripts and threads, as laws.

ghost use Rattle.std.specs.Prelude.{◌≤◌};
ghost use Rattle.patch_script.specs.{Micros.{start_of, total_of}, Refusals.{commands_of}};
ghost use Rattle.machine_step.specs.Traced.{StandsAs};

use machine_step::Cpu;
use patch_script::Script;

/// Threads start within the script.
pub(crate) fn threads_start_within(script: &Script)
    ensures { start_of script.now.program script.now.threads (commands_of script.now.lines)
        ≤ total_of script.now.program script.now.threads (commands_of script.now.lines) }
{
    script.start();
}

/// Before a passing, a thread is where its plain run comes to it. At its end, it is where its plain
/// run ends.
pub(crate) fn a_thread_stands_as_it_wants(cpu: &Cpu)
    ensures { StandsAs cpu.now cpu.now.want }
{
    cpu.want();
}
