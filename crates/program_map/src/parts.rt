//! The parts of a program that say its sleds.

ghost use Rattle.std.specs.Prelude.{◌≡◌, ◌≤◌, ◌+◌, ◌%◌, IfOk, length};
ghost use Rattle.program_map.specs.Parts.{map_parts, map_table, parts_in};
ghost use Rattle.program_map.specs.Readings.{IsProgramReading};
ghost use Rattle.program_map.specs.private.Views.{parts_held};

use crate::fault::ProgramFault;
use elf_file::{
    Addends, ElfFault, Section, content, read_addends, read_sections, section_named, section_names,
};
use std::alloc::Global;

/// The length of an entry of the map, in bytes.
pub(crate) const ENTRY_BYTES: usize = 32;

/// The parts of a program that say its sleds.
#[derive(Drop)]
pub(crate) struct ProgramParts<'a> {
    pub(crate) sections: Vec<Section>,
    /// The table of the names of sections.
    pub(crate) names: &'a [u8],
    /// The section of the map.
    pub(crate) section: Section,
    /// Its bytes.
    pub(crate) table: &'a [u8],
    pub(crate) addends: Addends,
}

/// The bytes of the sled map.
fn map_table<'a>(file: &'a [u8], section: &Section) -> Result<&'a [u8], ProgramFault>
    ensures said { IsProgramReading (λ table. table.now) (map_table file.now section.now) result }
    ensures inside { IfOk result (λ table. section.now.offset + length table.now ≤ length file.now) }
{
    let table = content(file, section)?;
    if table.len() % ENTRY_BYTES != 0 {
        return Err(ProgramFault::Elf(ElfFault::Entries(section.header)));
    }
    Ok(table)
}

/// The parts of a file with these sections.
fn parts_in<'a>(
    alloc: Global,
    file: &'a [u8],
    sections: Vec<Section>,
    names: &'a [u8],
) -> Result<ProgramParts<'a>, ProgramFault>
    ensures said { IsProgramReading parts_held (parts_in file.now sections.items names.now) result }
    ensures inside { IfOk result (λ parts. parts.section.offset + length parts.table.now ≤ length file.now) }
{
    let Some(section) = section_named(names, &sections, b"xray_instr_map\0") else {
        return Err(ProgramFault::Map);
    };
    let table = map_table(file, &section)?;
    let addends = read_addends(alloc, file, names, &sections)?;
    Ok(ProgramParts {
        sections,
        names,
        section,
        table,
        addends,
    })
}

/// The parts of a file.
pub(crate) fn read_parts<'a>(
    alloc: Global,
    file: &'a [u8],
) -> Result<ProgramParts<'a>, ProgramFault>
    ensures said { IsProgramReading parts_held (map_parts file.now) result }
    ensures inside { IfOk result (λ parts. parts.section.offset + length parts.table.now ≤ length file.now) }
{
    let sections = read_sections(alloc, file)?;
    let names = section_names(file, &sections)?;
    parts_in(alloc, file, sections, names)
}
