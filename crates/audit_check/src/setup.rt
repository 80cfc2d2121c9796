//! The row of an audit that says what the run was made with.

ghost use Rattle.std.specs.Prelude.{◌≡◌, ◌<◌, ◌↔◌, ◌^◌, ◌++◌, Some, IfSome, IsTrue};
ghost use Rattle.machine_step.specs.declared.limits.Limits.{Limits};
ghost use Rattle.machine_step.specs.declared.setup.Setup.{Setup};
ghost use Rattle.machine_step.specs.Setups.{AreLimits, IsSetup};
ghost use Rattle.audit_check.specs.private.Parts.{AreBuffers, AreStamps, setup_row};
ghost use Rattle.audit_check.specs.private.Taking.{Gives, buffers_in, cpus_in, limits_in, setup_by, setup_in, stamps_in};

use crate::row::{ROW_END, take_field, take_short};
use fdr_buffer::{LARGEST_SIZE, LEAST_SIZE, MOST_BUFFERS, TRACE_LIMIT};
use machine_step::{Limits, Setup};
use sled_words::MAX_THREADS;
use text_lines::a_written_number_is_itself;
use xray_io::Wall;

/// The most instructions that a thread may be limited to.
const MOST_FUEL: u64 = 1_000_000_000;

/// The most passings that a thread may be limited to, and the most after which it moves.
const MOST_PASSINGS: u32 = 1_048_576;

/// How many process numbers there are.
const PROCESSES: u32 = 1 << 31;

/// How many microseconds a second has.
const SECOND: u32 = 1_000_000;

/// How many bytes of a file come before each of its buffers, and before all of them.
const BLOCK_HEAD: u64 = 16;

const FILE_HEAD: u64 = 32;

/// The threads and the buffers.
#[derive(Clone, Copy)]
struct Buffers {
    threads: u32,
    size: u32,
    max: u32,
}

/// What every buffer and the header of the trace say.
#[derive(Clone, Copy)]
struct Stamps {
    pid: u32,
    wall: Wall,
    frequency: u64,
}

/// The setup of a row, if the row prints one that a run may have.
pub(crate) fn read_setup(row: &[u8]) -> Option<Setup>
    ensures found { IfSome result (λ setup. IsSetup setup × (row.now ≡ setup_row setup)) }
    ensures only { (setup : Setup) → IsSetup setup → row.now ≡ setup_row setup → result ≡ Some setup }
{
    a_written_number_is_itself();
    let setup = printed_setup(row)?;
    accepted(setup)
}

/// The setup that a row prints.
#[tactic(auto, unfolding(crate::specs::private::Taking::setup_in))]
fn printed_setup(row: &[u8]) -> Option<Setup>
    ensures { result ≡ setup_in row.now }
{
    let (buffers, row) = take_buffers(row)?;
    let (limits, row) = take_limits(row)?;
    let (stamps, row) = take_stamps(row)?;
    if row == ROW_END {
        Some(setup_of(buffers, limits, stamps))
    } else {
        None
    }
}

/// A setup of its parts.
fn setup_of(buffers: Buffers, limits: Limits, stamps: Stamps) -> Setup
    ensures { result ≡ setup_by buffers limits stamps }
{
    Setup {
        threads: buffers.threads,
        size: buffers.size,
        max: buffers.max,
        limits,
        pid: stamps.pid,
        wall: stamps.wall,
        frequency: stamps.frequency,
    }
}

/// The setup, if a run may have it.
fn accepted(setup: Setup) -> Option<Setup>
    ensures found { IfSome result (λ accepted. (accepted ≡ setup) × IsSetup setup) }
    ensures only { IsSetup setup → result ≡ Some setup }
{
    if are_buffers(setup) && are_limits(setup.limits) && are_stamps(setup) {
        Some(setup)
    } else {
        None
    }
}

/// Whether the threads and the buffers of a setup are those of a run.
fn are_buffers(setup: Setup) -> bool
    ensures { IsTrue result ↔ AreBuffers setup }
{
    1 <= setup.threads
        && setup.threads <= MAX_THREADS
        && LEAST_SIZE <= setup.size
        && setup.size <= LARGEST_SIZE
        && setup.threads <= setup.max
        && setup.max <= MOST_BUFFERS
        && u64::from(setup.max) * (u64::from(setup.size) + BLOCK_HEAD) + FILE_HEAD <= TRACE_LIMIT
}

/// Whether threads may have these limits.
fn are_limits(limits: Limits) -> bool
    ensures { IsTrue result ↔ AreLimits limits }
{
    limits.fuel <= MOST_FUEL
        && limits.passings <= MOST_PASSINGS
        && 1 <= limits.cpus
        && 1 <= limits.migrate
        && limits.migrate <= MOST_PASSINGS
}

/// Whether the process and the wall time of a setup are those of a run.
fn are_stamps(setup: Setup) -> bool
    ensures { IsTrue result ↔ AreStamps setup }
{
    setup.pid < PROCESSES && setup.wall.micros < SECOND
}

/// Takes the threads and the buffers.
#[tactic(auto, unfolding(crate::specs::private::Taking::buffers_in))]
fn take_buffers(row: &[u8]) -> Option<(Buffers, &[u8])>
    ensures { Gives (λ x. (x.0, x.1.now)) result (buffers_in row.now) }
{
    let (threads, row) = take_short(row, b"threads=")?;
    let (size, row) = take_short(row, b" buffer-size=")?;
    let (max, row) = take_short(row, b" buffer-max=")?;
    Some((Buffers { threads, size, max }, row))
}

/// Takes the limits of each thread, and how its passings are stamped.
#[tactic(auto, unfolding(crate::specs::private::Taking::limits_in))]
fn take_limits(row: &[u8]) -> Option<(Limits, &[u8])>
    ensures { Gives (λ x. (x.0, x.1.now)) result (limits_in row.now) }
{
    let (fuel, row) = take_field(row, b" fuel=")?;
    let (passings, row) = take_short(row, b" passings=")?;
    let (tick, row) = take_field(row, b" tick=")?;
    let (tsc, row) = take_field(row, b" tsc=")?;
    let (cpus, row) = take_cpus(row)?;
    let (migrate, row) = take_short(row, b" migrate=")?;
    let limits = Limits {
        fuel,
        passings,
        tick,
        tsc,
        cpus,
        migrate,
    };
    Some((limits, row))
}

/// Takes how many CPUs there are.
#[tactic(auto, unfolding(crate::specs::private::Taking::cpus_in))]
fn take_cpus(row: &[u8]) -> Option<(u16, &[u8])>
    ensures { Gives (λ x. (x.0, x.1.now)) result (cpus_in row.now) }
{
    let (number, rest) = take_short(row, b" cpus=")?;
    let cpus = u16::try_from(number).ok()?;
    Some((cpus, rest))
}

/// Takes the process, the wall time and the counter's frequency.
#[tactic(auto, unfolding(crate::specs::private::Taking::stamps_in))]
fn take_stamps(row: &[u8]) -> Option<(Stamps, &[u8])>
    ensures { Gives (λ x. (x.0, x.1.now)) result (stamps_in row.now) }
{
    let (pid, row) = take_short(row, b" pid=")?;
    let (secs, row) = take_field(row, b" wall=")?;
    let (micros, row) = take_short(row, b".")?;
    let (frequency, row) = take_field(row, b" frequency=")?;
    let stamps = Stamps {
        pid,
        wall: Wall { secs, micros },
        frequency,
    };
    Some((stamps, row))
}
