//! The sections of a file by their number, name and type.

ghost use Rattle.std.specs.Prelude.{◌≡◌, ◌≤◌, ◌+◌, IfOk, OnOk, length, slice_get};
ghost use Rattle.elf_file.specs.Readings.{IsElfReading};
ghost use Rattle.elf_file.specs.Sections.{is_name_at, section_content, section_named, section_names_of, section_typed, sections_of};

use crate::fault::ElfFault;
use crate::header::{SECTION_HEADER_BYTES, read_header};
use crate::numbers::{from_place, u16_at};
use crate::section::{Section, section_at};
use std::alloc::Global;

/// The place of the field of the header which says the section that has the names of sections.
const NAMES_AT: usize = 62;

/// The sections of a file, in their order, or the first refusal of the header; see `ElfFault`.
/// `NoMemory` may be returned in place of any other result.
#[tactic(auto, using(crate::proofs::SectionSteps::sections_more))]
pub fn read_sections(alloc: Global, file: &[u8]) -> Result<Vec<Section>, ElfFault>
    ensures said { IsElfReading (λ sections. sections.items) (sections_of file.now) result }
    ensures whole { OnOk result (64 ≤ length file.now) }
{
    let headers = read_header(file)?;
    let count = usize::from(headers.count);
    let first = headers.at as usize;
    let mut sections = Vec::with_capacity(alloc, count)?;
    for number in 0..count {
        sections.push(section_at(file, first + SECTION_HEADER_BYTES * number))?;
    }
    Ok(sections)
}

/// The bytes of a section, or its refusal.
pub fn content<'a>(file: &'a [u8], section: &Section) -> Result<&'a [u8], ElfFault>
    ensures said { IsElfReading (λ bytes. bytes.now) (section_content file.now section.now) result }
    ensures inside { IfOk result (λ bytes. section.now.offset + length bytes.now ≤ length file.now) }
{
    match section.content(file) {
        Some(bytes) => Ok(bytes),
        None => Err(ElfFault::Content(section.header)),
    }
}

/// The section of a number, counted from 0.
pub(crate) fn section_numbered(sections: &[Section], number: usize) -> Option<Section>
    ensures { result ≡ slice_get sections.now number }
{
    sections.get(number).copied()
}

/// The table of the names of sections, or its refusal.
pub fn section_names<'a>(file: &'a [u8], sections: &[Section]) -> Result<&'a [u8], ElfFault>
    requires { 64 ≤ length file.now }
    ensures { IsElfReading (λ bytes. bytes.now) (section_names_of file.now sections.now) result }
{
    match section_numbered(sections, usize::from(u16_at(file, NAMES_AT))) {
        Some(section) => content(file, &section),
        None => Err(ElfFault::Link(NAMES_AT as u64)),
    }
}

/// Whether this name, with its zero, stands at a place of a table of names.
#[tactic(auto, unfolding(crate::specs::Sections::is_name_at))]
fn is_name_at(names: &[u8], name: &[u8], place: usize) -> bool
    ensures { result ≡ is_name_at names.now name.now place }
{
    from_place(names, place).starts_with(name)
}

/// The first section that has this name, which is given with its zero. `names` is the table of the
/// names of sections.
pub fn section_named(names: &[u8], sections: &[Section], name: &[u8]) -> Option<Section>
    ensures { result ≡ section_named names.now sections.now name.now }
{
    sections
        .iter()
        .copied()
        .find(|section| is_name_at(names, name, section.name as usize))
}

/// The first section of a type.
pub(crate) fn section_typed(kind: u32, sections: &[Section]) -> Option<Section>
    ensures { result ≡ section_typed kind sections.now }
{
    sections
        .iter()
        .copied()
        .find(|section| section.kind == kind)
}
