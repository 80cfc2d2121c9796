//! The sections of an ELF file.

ghost use Rattle.std.specs.Prelude.{◌≡◌, ◌≤◌, ◌+◌, ◌↔◌, IfSome, IsTrue, length, option_map};
ghost use Rattle.elf_file.specs.Sections.{content_of, section_at};

use crate::numbers::{u32_at, u64_at};

/// The places of the fields in the header of a section (`Elf64_Shdr`).
const KIND_AT: usize = 4;

const ADDRESS_AT: usize = 16;

const OFFSET_AT: usize = 24;

const SIZE_AT: usize = 32;

const LINK_AT: usize = 40;

/// The type of a section that has no bytes in the file (`SHT_NOBITS`).
const NO_BYTES: u32 = 8;

/// What the header of a section says. Places are byte offsets, counted from the file's start.
#[derive(Clone, Copy, Debug, PartialEq, Eq)]
pub struct Section {
    /// The place of the header.
    pub header: u64,
    /// Where its name is in the table of names, counted from the table's start.
    pub name: u32,
    /// Its type.
    pub kind: u32,
    /// The address of its first byte in memory.
    pub address: u64,
    /// The place of its first byte.
    pub offset: u64,
    /// How many bytes it has.
    pub size: u64,
    /// The number of the section that has the names of its symbols, if it has symbols.
    pub link: u32,
}

/// The section whose header is at a place.
pub(crate) fn section_at(file: &[u8], place: usize) -> Section
    requires { place + 64 ≤ length file.now }
    ensures { result ≡ section_at file.now place }
{
    Section {
        header: place as u64,
        name: u32_at(file, place),
        kind: u32_at(file, place + KIND_AT),
        address: u64_at(file, place + ADDRESS_AT),
        offset: u64_at(file, place + OFFSET_AT),
        size: u64_at(file, place + SIZE_AT),
        link: u32_at(file, place + LINK_AT),
    }
}

impl Section {
    /// Whether the file holds the bytes from its offset on.
    fn is_within(&self, file: &[u8]) -> bool
        ensures { IsTrue result ↔ (self.now.offset + self.now.size ≤ length file.now) }
    {
        let room = file.len() as u64;
        self.offset <= room && self.size <= room - self.offset
    }

    /// Its bytes, if the file holds them.
    #[tactic(auto, unfolding(crate::specs::Sections::content_of))]
    pub(crate) fn content<'a>(&self, file: &'a [u8]) -> Option<&'a [u8]>
        ensures said { option_map (λ bytes. bytes.now) result ≡ content_of file.now self.now }
        ensures inside { IfSome result (λ bytes. self.now.offset + length bytes.now ≤ length file.now) }
    {
        if self.kind == NO_BYTES || !self.is_within(file) {
            return None;
        }
        let from = self.offset as usize;
        Some(&file[from..from + self.size as usize])
    }
}
