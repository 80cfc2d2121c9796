//! The sleds of a program.

ghost use Rattle.std.specs.Prelude.{◌≡◌, ◌<◌, ◌+◌, ◌/◌, ◌^◌, IfOk, length};
ghost use Rattle.elf_file.specs.Views.{settings_held};
ghost use Rattle.program_map.specs.Readings.{IsProgramReading};
ghost use Rattle.program_map.specs.Sleds.{map_sleds};

use crate::fault::ProgramFault;
use crate::parts::ENTRY_BYTES;
use crate::sled::{MapSled, map_entry_said};
use elf_file::{Addends, Section};
use std::alloc::Global;

/// The sleds of a map, in its order.
pub(crate) fn read_sleds(
    alloc: Global,
    addends: &Addends,
    section: &Section,
    table: &[u8],
) -> Result<Vec<MapSled>, ProgramFault>
    requires { section.now.offset + length table.now < 2 ^ 64 }
    ensures said { IsProgramReading (λ sleds. sleds.items)
        (map_sleds (settings_held addends.now) section.now table.now) result }
    ensures count { IfOk result (λ sleds. length sleds.items ≡ length table.now / 32) }
{
    let count = table.len() / ENTRY_BYTES;
    let mut sleds = Vec::with_capacity(alloc, count)?;
    for number in 0..count {
        match map_entry_said(addends, section, table, number) {
            Ok(sled) => sleds.push(sled)?,
            Err(fault) => return Err(fault),
        }
    }
    Ok(sleds)
}
