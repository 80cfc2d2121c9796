//! Stretches of function records.
ghost use Rattle.std.specs.Prelude.{◌≡◌, ◌≤◌, ◌<◌, ◌*◌, ◌^◌, All, IfSome, length};
ghost use Rattle.runtime_log.specs.private.Stretches.{AreStretch, IsPlain, IsStretch, action_in, counter_in, event_in, last_counter};

use crate::argument::may_have_arg;
use byteorder::{ByteOrder, LittleEndian};
use fdr_record::{Event, FUNCTION_BYTES, Kind};

/// How many values the type of a record has: the lowest bit of its first byte.
const TYPES: u8 = 2;

/// The type of a function record.
const FUNCTION: u8 = 0;

/// The lowest bit of the action in the first byte of a function record.
const ACTION_SHIFT: u32 = 1;

/// How many values the action has.
const ACTIONS: u8 = 8;

/// The action of an entry.
const ENTER: u8 = 0;

/// The action of an exit.
const EXIT: u8 = 1;

/// The action of a tail exit. Those of the other events are above it.
const TAIL_EXIT: u8 = 2;

/// The lowest bit of the function's id in the first four bytes.
const ID_SHIFT: u32 = 4;

/// The place of the delta.
const DELTA_AT: usize = 4;

/// Function records that stand one after the other in a block. Each is of an entry without an argument,
/// of an exit or of a tail exit, and the counter doesn't go past 2^64 at it. No argument follows an entry
/// among them. Their events have exactly
/// these records in a trace, too, if they follow an event on the same CPU, at the counter before them.
#[derive(Clone, Copy)]
pub(crate) struct Stretch<'a> {
    /// The bytes of the records.
    pub(crate) records: &'a [u8],
    /// How many records there are.
    pub(crate) count: u32,
    /// The event of the last one.
    pub(crate) last: Event,
}

/// The action of the function record that bytes begin with.
#[inline(always)]
fn action_in(bytes: &[u8]) -> u8
    requires { 8 ≤ length bytes.now }
    ensures { result ≡ action_in bytes.now }
{
    (bytes[0] >> ACTION_SHIFT) % ACTIONS
}

/// The counter at the function record that bytes begin with, by the counter before it. `None` if it is
/// another record, or if it may not be in a stretch.
#[inline(always)]
fn counter_after(tsc: u64, bytes: &[u8]) -> Option<u64>
    requires { 8 ≤ length bytes.now }
    ensures { IfSome result (λ next. IsPlain tsc bytes.now × (next ≡ counter_in tsc bytes.now)) }
{
    if bytes[0] % TYPES != FUNCTION || action_in(bytes) > TAIL_EXIT || may_have_arg(bytes) {
        return None;
    }
    tsc.checked_add(u64::from(LittleEndian::read_u32(&bytes[DELTA_AT..])))
}

/// The event of the function record of a stretch that bytes begin with, at this counter.
fn event_in(cpu: u16, tsc: u64, bytes: &[u8]) -> Event
    requires { 8 ≤ length bytes.now }
    ensures { result ≡ event_in cpu tsc bytes.now }
{
    let kind = match action_in(bytes) {
        ENTER => Kind::Entry,
        EXIT => Kind::Exit,
        _ => Kind::TailExit,
    };
    Event {
        tsc,
        arg: 0,
        func: LittleEndian::read_u32(bytes) >> ID_SHIFT,
        cpu,
        kind,
    }
}

/// How many records the longest stretch has that these bytes begin with, and the counter at the last of
/// them. It has at most so many bytes.
fn longest_stretch(tsc: u64, bytes: &[u8], most: usize) -> (usize, u64)
    requires few { length bytes.now < 2 ^ 32 }
    ensures are { AreStretch result.0 tsc bytes.now }
    ensures counter { result.1 ≡ last_counter result.0 tsc bytes.now }
    ensures within { (result.0 * 8 ≤ length bytes.now) × (result.0 * 8 ≤ most) }
{
    let end = bytes.len().min(most);
    let mut count = 0;
    let mut counter = tsc;
    'records: while (count + 1) * FUNCTION_BYTES <= end {
        let Some(next) = counter_after(counter, &bytes[count * FUNCTION_BYTES..]) else {
            return (count, counter);
        };
        counter = next;
        count += 1;
    }
    (count, counter)
}

impl<'a> Stretch<'a> {
    /// The longest stretch that these bytes begin with, after a record on this CPU and at this counter.
    /// It has at most so many bytes. `None` if they begin with another record.
    pub(crate) fn of(cpu: u16, tsc: u64, bytes: &'a [u8], most: usize) -> Option<Stretch<'a>>
        requires few { length bytes.now < 2 ^ 32 }
        ensures is { IfSome result (IsStretch cpu tsc bytes.entry.now) }
        ensures fit { All (λ b. b < 256) bytes.entry.now × (cpu < 2 ^ 16) }
        ensures within { IfSome result (λ stretch. length stretch.records.now ≤ most) }
    {
        let (count, counter) = longest_stretch(tsc, bytes, most);
        if count == 0 {
            return None;
        }
        let last = &bytes[(count - 1) * FUNCTION_BYTES..];
        Some(Stretch {
            records: &bytes[..count * FUNCTION_BYTES],
            count: count as u32,
            last: event_in(cpu, counter, last),
        })
    }
}
