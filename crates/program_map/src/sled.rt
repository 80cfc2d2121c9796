//! A sled, as an entry of the map says it.

ghost use Rattle.std.specs.Prelude.{◌≡◌, ◌≤◌, ◌<◌, ◌+◌, ◌*◌, ◌%◌, ◌^◌, length};
ghost use Rattle.elf_file.specs.Numbers.{number_at};
ghost use Rattle.elf_file.specs.Views.{settings_held};
ghost use Rattle.program_map.specs.Sleds.{address_in, entry_sled, map_kind, said_there, map_entry_said, word_there};

use crate::fault::ProgramFault;
use crate::parts::ENTRY_BYTES;
use elf_file::{Addends, Section, u64_at};

/// The places of an entry's fields (`XRaySledEntry`).
const FUNCTION_AT: usize = 8;

const KIND_AT: usize = 16;

const ALWAYS_AT: usize = 17;

const VERSION_AT: usize = 18;

/// The version from which on addresses count from their fields.
const RELATIVE_VERSION: u8 = 2;

/// What a sled is for (`XRayEntryType`).
#[derive(Clone, Copy, Debug, PartialEq, Eq)]
pub enum MapSledKind {
    /// The entry of a function.
    FunctionEnter,
    /// A return.
    FunctionExit,
    /// A tail call.
    TailExit,
    /// The entry of a function whose first argument is logged.
    LogArgsEnter,
    /// A custom event.
    CustomEvent,
    /// A typed event.
    TypedEvent,
}

/// A sled of a program.
#[derive(Clone, Copy, Debug, PartialEq, Eq)]
pub struct MapSled {
    /// Its address.
    pub address: u64,
    /// The address of its function.
    pub function: u64,
    /// What it is for.
    pub kind: MapSledKind,
    /// Whether the function is always instrumented.
    pub always: bool,
    /// The version of its entry, at most 2.
    pub version: u8,
}

/// The kind of a number, if it is one.
fn map_kind(number: u8) -> Option<MapSledKind>
    ensures { result ≡ map_kind number }
{
    match number {
        0 => Some(MapSledKind::FunctionEnter),
        1 => Some(MapSledKind::FunctionExit),
        2 => Some(MapSledKind::TailExit),
        3 => Some(MapSledKind::LogArgsEnter),
        4 => Some(MapSledKind::CustomEvent),
        5 => Some(MapSledKind::TypedEvent),
        _ => None,
    }
}

/// The byte at a place.
fn byte_at(bytes: &[u8], place: usize) -> u8
    requires { place + 1 ≤ length bytes.now }
    ensures { result ≡ number_at 1 bytes.now place }
{
    bytes[place]
}

/// The address of a byte of a section, by how many bytes of it come before.
pub(crate) fn address_in(section: &Section, bytes: usize) -> u64
    ensures { result ≡ address_in section.now bytes }
{
    section.address.wrapping_add(bytes as u64)
}

/// The word at an address, for which the file has this one: if it is 0, a relocation may set it.
pub(crate) fn word_there(addends: &Addends, address: u64, word: u64) -> u64
    ensures { result ≡ word_there (settings_held addends.now) address word }
{
    if word != 0 {
        return word;
    }
    match addends.word_at(address) {
        Some(set) => set,
        None => 0,
    }
}

/// The address that a field says which is itself at an address.
fn said_there(addends: &Addends, version: u8, address: u64, field: u64) -> u64
    ensures { result ≡ said_there (settings_held addends.now) version address field }
{
    if version == RELATIVE_VERSION {
        return address.wrapping_add(field);
    }
    word_there(addends, address, field)
}

/// The sled that the entry of a number says, of this kind and version.
fn entry_sled(
    addends: &Addends,
    section: &Section,
    table: &[u8],
    number: usize,
    kind: MapSledKind,
) -> MapSled
    requires { 32 * number + 32 ≤ length table.now }
    ensures { result ≡ entry_sled (settings_held addends.now) section.now table.now number kind }
{
    let place = ENTRY_BYTES * number;
    let version = byte_at(table, place + VERSION_AT);
    let at = address_in(section, place);
    let function_at = address_in(section, place + FUNCTION_AT);
    MapSled {
        address: said_there(addends, version, at, u64_at(table, place)),
        function: said_there(
            addends,
            version,
            function_at,
            u64_at(table, place + FUNCTION_AT),
        ),
        kind,
        always: byte_at(table, place + ALWAYS_AT) != 0,
        version,
    }
}

/// The sled that the entry of a number says, or its refusal.
#[tactic(auto, unfolding(crate::specs::Sleds::map_entry_said))]
pub(crate) fn map_entry_said(
    addends: &Addends,
    section: &Section,
    table: &[u8],
    number: usize,
) -> Result<MapSled, ProgramFault>
    requires inside { 32 * number + 32 ≤ length table.now }
    requires place { section.now.offset + length table.now < 2 ^ 64 }
    ensures { result ≡ map_entry_said (settings_held addends.now) section.now table.now number }
{
    let place = ENTRY_BYTES * number;
    if byte_at(table, place + VERSION_AT) > RELATIVE_VERSION {
        return Err(ProgramFault::Version(section.offset + place as u64));
    }
    let Some(kind) = map_kind(byte_at(table, place + KIND_AT)) else {
        return Err(ProgramFault::Kind(section.offset + place as u64));
    };
    Ok(entry_sled(addends, section, table, number, kind))
}
