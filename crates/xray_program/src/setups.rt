//! What threads are run with, by the options of the words.
ghost use Rattle.std.specs.Prelude.{◌≡◌};
ghost use Rattle.command_words.specs.Ranges.{AreProfileOptions, AreRunOptions};
ghost use Rattle.machine_step.specs.Setups.{AreLimits, IsSetup};
ghost use Rattle.xray_program.specs.Setups.{limits_of, plain_limits, setup_of};

use command_words::{Bounds, ProfileOptions, RunOptions, Stamps};
use machine_step::{Limits, Setup};

/// The stamps of a plain run. No event of it is seen, so the counter stands still, on one CPU.
const UNSTAMPED: Stamps = Stamps {
    tick: 0,
    tsc: 0,
    cpus: 1,
    migrate: 1,
};

/// The limits of each thread, and how its passings are stamped.
fn limits_of(bounds: Bounds, stamps: Stamps) -> Limits
    ensures { result ≡ limits_of bounds stamps }
{
    Limits {
        fuel: bounds.fuel,
        passings: bounds.passings,
        tick: stamps.tick,
        tsc: stamps.tsc,
        cpus: stamps.cpus,
        migrate: stamps.migrate,
    }
}

/// The limits of a plain run.
pub(crate) fn plain_limits(bounds: Bounds) -> Limits
    ensures { result ≡ plain_limits bounds }
{
    limits_of(bounds, UNSTAMPED)
}

/// The limits of the threads of a profile.
pub(crate) fn profile_limits(options: ProfileOptions) -> Limits
    requires { AreProfileOptions options }
    ensures options { result ≡ limits_of options.bounds options.stamps }
    ensures are_limits { AreLimits result }
{
    limits_of(options.bounds, options.stamps)
}

/// What a run of traced threads is made with.
pub(crate) fn setup_of(options: RunOptions) -> Setup
    requires { AreRunOptions options }
    ensures options { result ≡ setup_of options }
    ensures is_setup { IsSetup result }
{
    Setup {
        threads: options.bounds.threads,
        size: options.buffers.size,
        max: options.buffers.max,
        limits: limits_of(options.bounds, options.stamps),
        pid: options.pid,
        wall: options.wall,
        frequency: options.frequency,
    }
}
