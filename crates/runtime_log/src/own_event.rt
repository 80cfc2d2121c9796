//! Events that a program logs itself.
ghost use Rattle.std.specs.Prelude.{◌≡◌, ◌≤◌, IfSome, length};
ghost use Rattle.runtime_log.specs.Logs.{one_typed};
ghost use Rattle.runtime_log.specs.OwnEvents.{first_kind, own_delta, own_kind, own_size};

use crate::version::LogVersion;
use byteorder::{ByteOrder, LittleEndian};
use fdr_record::METADATA_BYTES;

/// The first byte of a custom event: bit 0 is 1, and the kind 5 is above it (`CustomEventMarker`).
const CUSTOM: u8 = 11;

/// The first byte of a typed event: bit 0 is 1, and the kind 8 is above it (`TypedEventMarker`).
const TYPED: u8 = 17;

/// The place of the size in the record.
const SIZE_AT: usize = 1;

/// The place of the delta.
const DELTA_AT: usize = 5;

/// A kind of events that a program logs itself.
#[derive(Clone, Copy)]
pub enum OwnKind {
    /// By `__xray_customevent`.
    Custom,
    /// By `__xray_typedevent`.
    Typed,
}

/// The kind of event of the program's own whose record begins with a byte, if it is one.
fn first_kind(version: LogVersion, first: u8) -> Option<OwnKind>
    ensures { result ≡ first_kind version first }
{
    match first {
        CUSTOM => Some(OwnKind::Custom),
        TYPED => match version {
            LogVersion::Five => Some(OwnKind::Typed),
            LogVersion::Two | LogVersion::Three | LogVersion::Four => None,
        },
        _ => None,
    }
}

/// How many typed events a record is, by its first byte: one or none.
pub(crate) fn one_typed(version: LogVersion, first: u8) -> u64
    ensures is { result ≡ one_typed (first_kind version first) }
    ensures few { result ≤ 1 }
{
    match first_kind(version, first) {
        Some(OwnKind::Typed) => 1,
        Some(OwnKind::Custom) | None => 0,
    }
}

/// The kind of event of the program's own whose record bytes begin with, if they begin with a whole
/// one.
pub(crate) fn own_kind(version: LogVersion, bytes: &[u8]) -> Option<OwnKind>
    ensures kind { result ≡ own_kind version bytes.now }
    ensures whole { IfSome result (λ _. 16 ≤ length bytes.now) }
{
    if bytes.len() < METADATA_BYTES {
        return None;
    }
    first_kind(version, bytes[0])
}

/// How many bytes of the program's own stand behind the record that bytes begin with.
pub(crate) fn own_size(bytes: &[u8]) -> u32
    requires { 16 ≤ length bytes.now }
    ensures { result ≡ own_size bytes.now }
{
    LittleEndian::read_u32(&bytes[SIZE_AT..])
}

/// How far the counter has advanced, by the record that bytes begin with.
pub(crate) fn own_delta(version: LogVersion, bytes: &[u8]) -> u32
    requires { 16 ≤ length bytes.now }
    ensures { result ≡ own_delta version bytes.now }
{
    match version {
        LogVersion::Two | LogVersion::Three | LogVersion::Four => 0,
        LogVersion::Five => LittleEndian::read_u32(&bytes[DELTA_AT..]),
    }
}
