//! The parts after the header: the code, the functions and the sled map.

ghost use Rattle.std.specs.Prelude.{◌≡◌, ◌≤◌, ◌⊎◌, ℕ, List, length, map, Option, Some, None, Err, IfOk, IfErr};
ghost use Rattle.std.specs.Option.{option_map};
ghost use Rattle.xray_image.specs.{Container.{several, parts_of}, Header.{HasHeader}, Table.{ReadsParts}};
ghost use Rattle.xray_image.specs.private.Views.{parts_of_view, IsHeaderOf};

use crate::fault::ImageFault;
use crate::fields::u64_at;
use crate::format::{FUNCTION_AT, HEADER_LENGTH, MAP_DISTANCE, MAP_ENTRY_LENGTH};
use crate::header::Header;
use crate::map_entry::{RawMapEntry, SledEntry, entries_from};
use std::alloc::Global;

/// The bytes of a function entry before its name: the start address and the name's length.
const FUNCTION_PREFIX_LENGTH: usize = 9;

/// The place of the start address in a function entry.
const START_AT: usize = 0;

/// The place of the name's length in a function entry.
const NAME_LENGTH_AT: usize = 8;

/// The place of the sled's address in a map entry.
const SLED_AT: usize = 0;

/// The place of the sled's kind in a map entry.
const KIND_AT: usize = 16;

/// The place in a map entry of the flag that says that its function is always instrumented.
const ALWAYS_AT: usize = 17;

/// The place of the sled's version in a map entry.
const SLED_VERSION_AT: usize = 18;

/// An entry of a part of the file that has as many entries as the header counts.
trait Counted<'a>: Drop {
    /// What entries of this kind say.
    ghost Said: { Type 0 };

    /// What the entry says.
    ghost said: { Self → Said };

    /// What the entry that the bytes begin with says, and the bytes after it.
    ghost read_at: { List ℕ → Option (Said × List ℕ) };

    /// The entry that the bytes begin with, and the bytes after it. `None` if they end before it does.
    fn read(bytes: &'a [u8]) -> Option<(Self, &'a [u8])>
        ensures { option_map (λ x. (said x.0, x.1.now)) result ≡ read_at bytes.now };
}

/// A function of the file.
#[derive(Clone, Copy)]
pub(crate) struct FunctionEntry<'a> {
    pub(crate) start: u64,
    pub(crate) name: &'a [u8],
}

impl<'a> Counted<'a> for FunctionEntry<'a> {
    ghost use Rattle.xray_image.specs.Container.{Function, function_entry_at};
    ghost use Rattle.xray_image.specs.private.Views.{function_of};

    ghost Said = { Function };

    ghost said = { function_of };

    ghost read_at = { function_entry_at };

    fn read(bytes: &'a [u8]) -> Option<(FunctionEntry<'a>, &'a [u8])> {
        if bytes.len() < FUNCTION_PREFIX_LENGTH {
            return None;
        }
        let start = u64_at(bytes, START_AT);
        let name_length = bytes[NAME_LENGTH_AT] as usize;
        let (_, rest) = bytes.split_at(FUNCTION_PREFIX_LENGTH);
        if rest.len() < name_length {
            return None;
        }
        let (name, rest) = rest.split_at(name_length);
        Some((FunctionEntry { start, name }, rest))
    }
}

impl<'a> Counted<'a> for RawMapEntry {
    ghost use Rattle.xray_image.specs.Container.{MapFields, map_fields_at};
    ghost use Rattle.xray_image.specs.private.Views.{fields_of};

    ghost Said = { MapFields };

    ghost said = { fields_of };

    ghost read_at = { map_fields_at };

    fn read(bytes: &'a [u8]) -> Option<(RawMapEntry, &'a [u8])> {
        if bytes.len() < MAP_ENTRY_LENGTH as usize {
            return None;
        }
        let entry = RawMapEntry {
            sled: u64_at(bytes, SLED_AT),
            function: u64_at(bytes, FUNCTION_AT as usize),
            kind: bytes[KIND_AT],
            always: bytes[ALWAYS_AT],
            version: bytes[SLED_VERSION_AT],
        };
        let (_, rest) = bytes.split_at(MAP_ENTRY_LENGTH as usize);
        Some((entry, rest))
    }
}

/// The parts of a file after its header.
#[derive(Drop)]
pub(crate) struct FileParts<'a> {
    pub(crate) code: &'a [u8],
    pub(crate) functions: Vec<FunctionEntry<'a>>,
    /// What the entries of the sled map say.
    pub(crate) entries: Vec<SledEntry>,
}

/// The entries of a part, as many as the header counts, and the bytes after them. Room is taken
/// entry by entry and not by the count, which may be more than the file holds.
fn read_entries<'a, E: Counted<'a>>(
    alloc: Global,
    count: u32,
    bytes: &'a [u8],
) -> Result<(Vec<E>, &'a [u8]), ImageFault>
    ensures found { IfOk result (λ x. several E.read_at count bytes.now
        ≡ Some (map E.said x.0.items, x.1.now)) }
    ensures refused { IfErr result (λ fault. (fault ≡ ImageFault.NoMemory)
        ⊎ ((fault ≡ ImageFault.Short) × (several E.read_at count bytes.now ≡ None))) }
{
    let mut entries = Vec::new(alloc);
    let mut rest = bytes;
    for _number in 0..count {
        let Some((entry, following)) = E::read(rest) else {
            return Err(ImageFault::Short);
        };
        entries.push(entry)?;
        rest = following;
    }
    Ok((entries, rest))
}

impl<'a> FileParts<'a> {
    /// The parts that the header counts. `Short` if the file ends before them, and `Trailing` if
    /// bytes follow them.
    pub(crate) fn read(
        alloc: Global,
        header: &Header,
        bytes: &'a [u8],
    ) -> Result<FileParts<'a>, ImageFault>
        requires accepted { HasHeader bytes.now }
        requires header { IsHeaderOf bytes.now header.now }
        ensures found { IfOk result (λ parts. parts_of bytes.now ≡ Some (parts_of_view parts)) }
        ensures refused { IfErr result (λ fault. (fault ≡ ImageFault.NoMemory)
            ⊎ ReadsParts bytes.now (Err fault)) }
    {
        let (_, following) = bytes.split_at(HEADER_LENGTH);
        let code_length = header.code_length as usize;
        if following.len() < code_length {
            return Err(ImageFault::Short);
        }
        let (code, rest) = following.split_at(code_length);
        let (functions, rest) = read_entries::<FunctionEntry>(alloc, header.functions, rest)?;
        let (raw, rest) = read_entries::<RawMapEntry>(alloc, header.entries, rest)?;
        if !rest.is_empty() {
            return Err(ImageFault::Trailing);
        }
        Ok(FileParts {
            code,
            functions,
            entries: entries_from(alloc, header.base + MAP_DISTANCE, &raw)?,
        })
    }
}
