//! The names of functions in a file.

ghost use Rattle.std.specs.Prelude.{◌≡◌, ◌<◌, ◌^◌, length};
ghost use Rattle.elf_file.specs.Readings.{IsElfReading};
ghost use Rattle.elf_file.specs.Symbols.{table_names, elf_names, symbol_section};
ghost use Rattle.elf_file.specs.Views.{names_held};

use crate::fault::ElfFault;
use crate::section::Section;
use crate::sections::{content, section_numbered, section_typed};
use crate::symbol::SYMBOL_BYTES;
use crate::symbols::{FunctionNames, read_symbols};
use std::alloc::Global;

/// The type of the table of symbols (`SHT_SYMTAB`).
const SYMBOLS: u32 = 2;

/// The type of the table of dynamic symbols (`SHT_DYNSYM`).
const DYNAMIC_SYMBOLS: u32 = 11;

/// The section that has the symbols.
fn symbol_section(sections: &[Section]) -> Option<Section>
    ensures { result ≡ symbol_section sections.now }
{
    match section_typed(SYMBOLS, sections) {
        Some(section) => Some(section),
        None => section_typed(DYNAMIC_SYMBOLS, sections),
    }
}

/// The names that a table of symbols gives, or its refusal.
fn read_table(
    alloc: Global,
    file: &[u8],
    sections: &[Section],
    section: Section,
) -> Result<FunctionNames, ElfFault>
    ensures { IsElfReading names_held (table_names file.now sections.now section) result }
{
    let table = content(file, &section)?;
    if table.len() % SYMBOL_BYTES != 0 {
        return Err(ElfFault::Entries(section.header));
    }
    let Some(strings) = section_numbered(sections, section.link as usize) else {
        return Err(ElfFault::Link(section.header));
    };
    let names = content(file, &strings)?;
    read_symbols(alloc, section.offset, table, names)
}

/// The names of the functions of a file with these sections, by their addresses, or the first refusal;
/// see `ElfFault`. They are those of the table of symbols, or else those of the dynamic symbols. If
/// several symbols name a function, a global one goes before a weak one, and this before a local
/// one; then the longest name counts, and then the first. A file without symbols has no names.
///
/// `NoMemory` may be returned in place of any other result.
pub fn read_names(
    alloc: Global,
    file: &[u8],
    sections: &[Section],
) -> Result<FunctionNames, ElfFault>
    ensures { IsElfReading names_held (elf_names file.now sections.now) result }
{
    match symbol_section(sections) {
        Some(section) => read_table(alloc, file, sections, section),
        None => Ok(FunctionNames::new(alloc, Vec::new(alloc))),
    }
}
