//! The events of passings.
ghost use Rattle.std.specs.Prelude.{◌≡◌, ◌<◌, ◌≤◌, ◌+◌, ◌*◌, ◌/◌, ◌%◌, ◌^◌, ℕ, length, slice_get, Some};
ghost use Rattle.xray_image.specs.declared.sled.Sled.{Sled};
ghost use Rattle.machine_step.specs.Events.{event_kind, event_of, stamped};
ghost use Rattle.machine_step.specs.private.Machine.{state_at};
ghost use Rattle.machine_step.specs.{PlainStep.{passing_at}, Setups.{AreLimits}};

use crate::limits::Limits;
use crate::machine::Machine;
use fdr_record::{Event, Kind};
use handler_word::Mark;
use xray_image::{Image, SledKind};

/// The event of the passing of a sled that a machine is about to make, if its mark says that it is
/// recorded: with its argument, or without.
#[inline]
pub(crate) fn event_at(
    image: &Image,
    sled: u32,
    thread: u32,
    machine: &Machine,
    limits: Limits,
    mark: Mark,
) -> Option<Event>
    requires limits { AreLimits limits }
    requires sled { sled < length image.now.sleds }
    ensures { (address k : ℕ) (at : Sled) → slice_get image.now.sleds sled ≡ Some at
        → result ≡ event_of (passing_at limits thread (state_at address machine.now) k at) mark }
{
    match mark {
        Mark::Skipped | Mark::NoHandler | Mark::NotLogging => None,
        Mark::Recorded => Some(plain_event(image, sled, thread, machine, limits)),
        Mark::RecordedArg => Some(Event {
            kind: Kind::EntryArgs,
            arg: machine.registers.first_argument(),
            ..plain_event(image, sled, thread, machine, limits)
        }),
    }
}

/// The event of the passing of a sled that a machine is about to make, without an argument.
#[inline]
fn plain_event(image: &Image, sled: u32, thread: u32, machine: &Machine, limits: Limits) -> Event
    requires limits { AreLimits limits }
    requires sled { sled < length image.now.sleds }
    ensures { (address k : ℕ) (at : Sled) → slice_get image.now.sleds sled ≡ Some at
        → result ≡ stamped (passing_at limits thread (state_at address machine.now) k at) (event_kind at.kind) 0 }
{
    let sled = image.sled(sled);
    Event {
        tsc: counter_at(machine.instructions, limits),
        arg: 0,
        func: sled.id,
        cpu: cpu_at(thread, machine.passings, limits),
        kind: event_kind(sled.kind),
    }
}

/// The number of the CPU on which a thread is in its passing of this number. It is the thread's
/// number plus how often the thread has moved, modulo the number of CPUs. It divides only if the
/// thread has moved, or if its number isn't below that of the CPUs.
fn cpu_at(thread: u32, passing: u32, limits: Limits) -> u16
    requires limits { AreLimits limits }
    ensures { result ≡ (thread + passing / limits.migrate) % limits.cpus }
{
    if limits.cpus == 1 {
        return 0;
    }
    let moved = u64::from(thread) + u64::from(moves_before(passing, limits.migrate));
    if moved < u64::from(limits.cpus) {
        moved as u16
    } else {
        (moved % u64::from(limits.cpus)) as u16
    }
}

/// How often a thread has moved to the next CPU before its passing of this number.
fn moves_before(passing: u32, migrate: u32) -> u32
    requires { 1 ≤ migrate }
    ensures { result ≡ passing / migrate }
{
    if passing < migrate {
        0
    } else {
        passing / migrate
    }
}

/// The counter after this many instructions. It wraps at 2^64.
fn counter_at(instructions: u64, limits: Limits) -> u64
    ensures { result ≡ (limits.tsc + limits.tick * instructions) % 2 ^ 64 }
{
    limits
        .tsc
        .wrapping_add(limits.tick.wrapping_mul(instructions))
}

/// The kind of an event without an argument at a sled of this kind.
fn event_kind(kind: SledKind) -> Kind
    ensures { result ≡ event_kind kind }
{
    match kind {
        SledKind::Entry | SledKind::Args => Kind::Entry,
        SledKind::Exit => Kind::Exit,
        SledKind::Tail => Kind::TailExit,
    }
}
