//! What the entries of the sled map say.

ghost use Rattle.std.specs.Prelude.{◌≡◌, ◌<◌, ◌+◌, ◌*◌, ◌^◌, length, map, IfOk};
ghost use Rattle.xray_image.specs.Container.{address_said, entries_from};
ghost use Rattle.xray_image.specs.private.Views.{entry_of, fields_of};

use crate::format::{FUNCTION_AT, MAP_ENTRY_LENGTH, RELATIVE_MAP_VERSION};
use std::alloc::{AllocError, Global};

/// An entry of the sled map, as the file has it.
#[derive(Clone, Copy)]
pub(crate) struct RawMapEntry {
    pub(crate) sled: u64,
    pub(crate) function: u64,
    pub(crate) kind: u8,
    pub(crate) always: u8,
    pub(crate) version: u8,
}

/// What an entry of the sled map says. Its addresses are absolute, whatever the version is.
#[derive(Clone, Copy)]
pub(crate) struct SledEntry {
    /// The address of the sled.
    pub(crate) sled: u64,
    /// The address of the function that the sled lies in.
    pub(crate) function: u64,
    pub(crate) kind: u8,
    pub(crate) always: u8,
    pub(crate) version: u8,
}

/// The address that a field says which is itself at the address `at`. In version 2 it counts from
/// the field, as in compiler-rt (`XRaySledEntry::address` and `function`).
fn address_said(version: u8, at: u64, field: u64) -> u64
    ensures { result ≡ address_said version at field }
{
    if version == RELATIVE_MAP_VERSION {
        at.wrapping_add(field)
    } else {
        field
    }
}

impl RawMapEntry {
    ghost use Rattle.xray_image.specs.Container.{entry_at};

    /// What the entry says if its first byte is at the address `at`.
    fn entry_at(&self, at: u64) -> SledEntry
        requires { at + FUNCTION_AT < 2 ^ 64 }
        ensures { entry_of result ≡ entry_at at (fields_of self.now) }
    {
        SledEntry {
            sled: address_said(self.version, at, self.sled),
            function: address_said(self.version, at + FUNCTION_AT, self.function),
            kind: self.kind,
            always: self.always,
            version: self.version,
        }
    }
}

/// What entries say that stand one after the other, the first of them at the address `first`.
pub(crate) fn entries_from(
    alloc: Global,
    first: u64,
    raw: &[RawMapEntry],
) -> Result<Vec<SledEntry>, AllocError>
    requires { first + MAP_ENTRY_LENGTH * length raw.now < 2 ^ 64 }
    ensures { IfOk result (λ entries.
        map entry_of entries.items ≡ entries_from first (map fields_of raw.now)) }
{
    let mut entries = Vec::with_capacity(alloc, raw.len())?;
    let mut at = first;
    for entry in raw {
        entries.push(entry.entry_at(at))?;
        at += MAP_ENTRY_LENGTH;
    }
    Ok(entries)
}
