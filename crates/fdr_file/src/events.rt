//! The events of a block.

ghost use Rattle.std.specs.Prelude.{◌≡◌, ◌≤◌, ◌<◌, ◌+◌, ◌==◌, ◌++◌, length, drop, None, Ok, IfNone, IfSome, IsErr, OnOk, option_to_list};
ghost use Rattle.fdr_file.specs.private.Reading.{Gives, events_on};
ghost use Rattle.fdr_file.specs.Scanning.{argument_on, counted_on, entry_with, event_on, function_on, step_on};
ghost use Rattle.fdr_file.specs.Traces.{logs_arg, record_length, standings};

use crate::records::taken_at;
use crate::{Events, TraceFault};
use fdr_record::{Event, Kind, Rec};
use std::alloc::Global;
use xray_io::NoMemory;

/// Whether the next record may be an argument.
#[derive(Clone, Copy)]
pub enum Argument {
    /// It may not.
    Barred,
    /// It may. The last record is an entry of this function, which logs its argument.
    Awaited {
        /// The function's id.
        func: u32,
    },
    /// It may, but it has no meaning, since another argument stands before it.
    Known,
}

/// The CPU and the counter by the records so far, and whether an argument may follow them.
#[derive(Clone, Copy)]
pub struct Base {
    /// The number of the CPU.
    pub cpu: u16,
    /// The counter at the last record, in cycles.
    pub tsc: u64,
    /// Whether an argument may follow.
    pub argument: Argument,
}

/// What is known after a record, and the events that it settles: the entry before it, whose argument
/// it may have, and its own event.
pub type Step = (Base, Option<Event>, Option<Event>);

/// The entry whose argument the next record may be, with this argument.
fn entry_with(base: Option<Base>, arg: u64) -> Option<Event>
    ensures { result ≡ entry_with base arg }
{
    let Base { cpu, tsc, argument } = base?;
    match argument {
        Argument::Barred | Argument::Known => None,
        Argument::Awaited { func } => Some(Event {
            tsc,
            arg,
            func,
            cpu,
            kind: Kind::EntryArgs,
        }),
    }
}

/// Whether an event of this kind logs an argument.
fn logs_arg(kind: Kind) -> bool
    ensures { result ≡ logs_arg kind }
{
    match kind {
        Kind::Entry | Kind::Exit | Kind::TailExit => false,
        Kind::EntryArgs => true,
    }
}

/// The step after a record with a CPU or a counter.
fn after_counter(cpu: u16, tsc: u64, base: Option<Base>) -> Step
    ensures { result ≡ counted_on cpu tsc base }
{
    let argument = Argument::Barred;
    (Base { cpu, tsc, argument }, entry_with(base, 0), None)
}

/// The step after a function record with this counter. `ends` says whether it is the last record of
/// its block.
fn after_function(ends: bool, kind: Kind, func: u32, tsc: u64, base: Base) -> Step
    ensures { result ≡ function_on ends kind func tsc base }
{
    let cpu = base.cpu;
    let entry = entry_with(Some(base), 0);
    if logs_arg(kind) && !ends {
        let argument = Argument::Awaited { func };
        return (Base { cpu, tsc, argument }, entry, None);
    }
    let event = Event {
        tsc,
        arg: 0,
        func,
        cpu,
        kind,
    };
    let argument = Argument::Barred;
    (Base { cpu, tsc, argument }, entry, Some(event))
}

/// The step after an argument.
fn after_argument(at: u64, value: u64, base: Base) -> Result<Step, TraceFault>
    ensures { result ≡ argument_on at value base base.argument }
{
    match base.argument {
        Argument::Barred => Err(TraceFault::Order(at)),
        Argument::Awaited { .. } => {
            let argument = Argument::Known;
            let entry = entry_with(Some(base), value);
            Ok((Base { argument, ..base }, entry, None))
        }
        Argument::Known => Ok((base, None, None)),
    }
}

/// What is known after the record at this place, and the events that it settles. `ends` says whether
/// it is the last record of its block.
pub(crate) fn step(ends: bool, at: u64, rec: Rec, base: Option<Base>) -> Result<Step, TraceFault>
    ensures { result ≡ step_on ends at rec base }
{
    match rec {
        Rec::NewCpu { cpu, tsc } => Ok(after_counter(cpu, tsc, base)),
        Rec::TscWrap { tsc } => {
            let counted = base.ok_or(TraceFault::NoBase(at))?;
            Ok(after_counter(counted.cpu, tsc, Some(counted)))
        }
        Rec::Function { kind, func, delta } => {
            let before = base.ok_or(TraceFault::NoBase(at))?;
            let tsc = before.tsc.wrapping_add(u64::from(delta));
            Ok(after_function(ends, kind, func, tsc, before))
        }
        Rec::CallArg { value } => {
            let counted = base.ok_or(TraceFault::Order(at))?;
            after_argument(at, value, counted)
        }
        Rec::NewBuffer { .. } | Rec::WallTime { .. } | Rec::Pid { .. } | Rec::Extents { .. } => {
            Err(TraceFault::Order(at))
        }
    }
}

/// The record at a place of a block's bytes, after a record with a CPU and a counter: what is known
/// after it, the events that it settles, and the place after it. `None` exactly if it isn't whole, or may
/// not stand there. `place` is its place in the file. The block ends at the place `end` of the bytes.
#[inline(always)]
pub fn take_step(
    bytes: &[u8],
    at: usize,
    place: u64,
    end: usize,
    base: Base,
) -> Option<(Step, usize)>
    requires { at ≤ length bytes.now }
    ensures says { IfSome result (λ x. event_on (x.1 == end) place base (drop at bytes.now) ≡ Ok x.0) }
    ensures none { IfNone result (IsErr (event_on (at + record_length (drop at bytes.now) == end) place base
        (drop at bytes.now))) }
    ensures next { IfSome result (λ x. (x.1 ≡ at + record_length (drop at bytes.now))
        × (at < x.1) × (x.1 ≤ length bytes.now)) }
{
    let Ok((rec, next)) = taken_at(bytes, at) else {
        return None;
    };
    let Ok(step) = step(next == end, place, rec, Some(base)) else {
        return None;
    };
    Some((step, next))
}
