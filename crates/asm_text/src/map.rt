//! The sled map of the image file.

ghost use Rattle.std.specs.Prelude.{◌≡◌, ◌≤◌, ◌<◌, ◌+◌, ◌^◌, ◌++◌, ◌∷◌, OnOk, length, map, replicate, option_map, if◌then◌else◌};
ghost use Rattle.xray_image.specs.Limits.{most_sleds};
ghost use Rattle.asm_text.specs.Layout.{map_entries, entry_in};
ghost use Rattle.asm_text.specs.Writing.{entry_bytes, fields_for, field_for, in_version, map_bytes, map_version};
ghost use Rattle.asm_text.specs.private.Laying.{line_placed, placed_in};
ghost use Rattle.asm_text.specs.private.Files.{entry_of_sled, is_relative};

use crate::fields::push_u64s;
use crate::file::kind_of;
use crate::layout::Laid;
use std::alloc::AllocError;
use xray_image::format::{
    ABSOLUTE_MAP_VERSION, BASE_LIMIT, FUNCTION_AT, MAP_DISTANCE, MAP_ENTRY_LENGTH,
    RELATIVE_MAP_VERSION,
};

/// The padding of a map entry.
const PADDING: [u8; 13] = [0; 13];

/// How the entries of a map say addresses.
#[derive(Clone, Copy)]
pub(crate) enum MapVersion {
    /// As they are, in version 0.
    Absolute,
    /// As distances from the fields that hold them, in version 2.
    Relative,
}

impl MapVersion {
    /// The version whose addresses are relative, or else the one whose addresses are absolute.
    pub(crate) fn new(relative: bool) -> MapVersion
        ensures { is_relative result ≡ relative }
    {
        if relative {
            MapVersion::Relative
        } else {
            MapVersion::Absolute
        }
    }

    /// The number of the version.
    fn number(self) -> u8
        ensures { result ≡ map_version (is_relative self) }
    {
        match self {
            MapVersion::Absolute => ABSOLUTE_MAP_VERSION,
            MapVersion::Relative => RELATIVE_MAP_VERSION,
        }
    }

    /// The number in a field that is itself at the address `at`, for the address that it says.
    fn field(self, at: u64, address: u64) -> u64
        ensures { result ≡ field_for (map_version (is_relative self)) at address }
    {
        match self {
            MapVersion::Absolute => address,
            MapVersion::Relative => address.wrapping_sub(at),
        }
    }
}

/// What the map says of a sled.
#[derive(Clone, Copy)]
struct SledEntry {
    /// The address of the sled.
    sled: u64,
    /// The address of its function.
    function: u64,
    kind: u8,
    /// Whether the function is always instrumented.
    always: bool,
}

/// What the map says of a line's sled, if it has one.
fn sled_entry(base: u64, line: &Laid) -> Option<SledEntry>
    requires { base ≤ BASE_LIMIT }
    ensures { option_map entry_of_sled result ≡ entry_in base (line_placed line.now) }
{
    let place = line.place;
    let owner = line.owner;
    if !owner.traced {
        return None;
    }
    let kind = kind_of(&line.statement)?;
    Some(SledEntry {
        sled: base + (u64::from(place) + u64::from(place % 2)),
        function: base + u64::from(owner.start),
        kind,
        always: owner.always,
    })
}

/// Adds an entry of this version whose first byte is at the address `at`.
fn push_entry(
    out: &mut Vec<u8>,
    version: MapVersion,
    at: u64,
    entry: &SledEntry,
) -> Result<(), AllocError>
    requires { at + FUNCTION_AT < 2 ^ 64 }
    ensures { OnOk result (out.new.items ≡ out.old.items ++ entry_bytes
        (fields_for at (in_version (map_version (is_relative version)) (entry_of_sled entry.now)))) }
{
    let sled = version.field(at, entry.sled);
    let function = version.field(at + FUNCTION_AT, entry.function);
    push_u64s(out, &[sled, function])?;
    out.extend_from_slice(&[entry.kind, u8::from(entry.always), version.number()])?;
    out.extend_from_slice(&PADDING)
}

/// Adds the sled map, in this version.
pub(crate) fn push_map(
    out: &mut Vec<u8>,
    version: MapVersion,
    base: u64,
    lines: &[Laid],
) -> Result<(), AllocError>
    requires base { base ≤ BASE_LIMIT }
    requires few { length (map_entries base (placed_in lines.now)) ≤ most_sleds }
    ensures { OnOk result (out.new.items ≡ out.old.items
        ++ map_bytes base (map (in_version (map_version (is_relative version)))
        (map_entries base (placed_in lines.now)))) }
{
    let mut at = base + MAP_DISTANCE;
    for line in lines {
        if let Some(entry) = sled_entry(base, line) {
            push_entry(out, version, at, &entry)?;
            at += MAP_ENTRY_LENGTH;
        }
    }
    Ok(())
}
