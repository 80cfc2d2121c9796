//! The header of an ELF file.

ghost use Rattle.std.specs.Prelude.{◌≡◌, ◌≤◌, ◌+◌, ◌*◌, ◌==◌, ◌||◌, ◌↔◌, IfOk, IsTrue, OnOk, length, take};
ghost use Rattle.std.specs.Str.{bytes_eq};
ghost use Rattle.elf_file.specs.Header.{header_of, elf_magic};

use crate::fault::ElfFault;
use crate::numbers::{u8_at, u16_at, u64_at};

/// The length of the header, in bytes.
const HEADER_BYTES: usize = 64;

/// The length of the header of a section, in bytes.
pub(crate) const SECTION_HEADER_BYTES: usize = 64;

/// The bytes with which an ELF file begins.
const MAGIC: [u8; 4] = [0x7F, b'E', b'L', b'F'];

/// The places of the header's fields.
const CLASS_AT: usize = 4;

const ORDER_AT: usize = 5;

const TYPE_AT: usize = 16;

const MACHINE_AT: usize = 18;

const SECTIONS_AT: usize = 40;

const SECTION_SIZE_AT: usize = 58;

const SECTION_COUNT_AT: usize = 60;

/// Files of 64 bits (`ELFCLASS64`).
const CLASS: u8 = 2;

/// The lowest byte first (`ELFDATA2LSB`).
const LOW_FIRST: u8 = 1;

/// A program at fixed addresses (`ET_EXEC`).
const PROGRAM: u16 = 2;

/// A shared object, or a program at any addresses (`ET_DYN`).
const SHARED: u16 = 3;

/// x86-64 (`EM_X86_64`).
const MACHINE: u16 = 62;

/// Where the headers of the sections are, and how many there are.
#[derive(Clone, Copy)]
pub(crate) struct Headers {
    pub(crate) at: u64,
    pub(crate) count: u16,
}

/// Whether the file begins as an ELF file.
fn has_magic(file: &[u8]) -> bool
    ensures { result ≡ bytes_eq (take 4 file.now) elf_magic }
{
    file.starts_with(&MAGIC)
}

/// Whether a number says that the file is a program or a shared object.
fn is_loaded(number: u16) -> bool
    ensures { result ≡ (number == 2) || (number == 3) }
{
    number == PROGRAM || number == SHARED
}

/// Where the headers of the sections are, or the first refusal of the header.
#[tactic(auto, unfolding(crate::specs::Header::header_of))]
pub(crate) fn read_header(file: &[u8]) -> Result<Headers, ElfFault>
    ensures said { result ≡ header_of file.now }
    ensures inside { IfOk result (λ headers. headers.at + 64 * headers.count ≤ length file.now) }
    ensures whole { OnOk result (64 ≤ length file.now) }
{
    if !has_magic(file) {
        return Err(ElfFault::Magic);
    }
    if file.len() < HEADER_BYTES {
        return Err(ElfFault::Header(0));
    }
    if u8_at(file, CLASS_AT) != CLASS {
        return Err(ElfFault::Class);
    }
    if u8_at(file, ORDER_AT) != LOW_FIRST {
        return Err(ElfFault::ByteOrder);
    }
    if !is_loaded(u16_at(file, TYPE_AT)) {
        return Err(ElfFault::FileType);
    }
    if u16_at(file, MACHINE_AT) != MACHINE {
        return Err(ElfFault::Machine);
    }
    let count = u16_at(file, SECTION_COUNT_AT);
    if count != 0 && usize::from(u16_at(file, SECTION_SIZE_AT)) != SECTION_HEADER_BYTES {
        return Err(ElfFault::Header(SECTION_SIZE_AT as u64));
    }
    let at = u64_at(file, SECTIONS_AT);
    let headers = Headers { at, count };
    if !headers.are_within(file) {
        return Err(ElfFault::Header(SECTIONS_AT as u64));
    }
    Ok(headers)
}

impl Headers {
    /// Whether the file holds all headers of sections.
    fn are_within(&self, file: &[u8]) -> bool
        ensures { IsTrue result ↔ (self.now.at + 64 * self.now.count ≤ length file.now) }
    {
        let bytes = SECTION_HEADER_BYTES * usize::from(self.count);
        let room = file.len() as u64;
        self.at <= room && bytes as u64 <= room - self.at
    }
}
