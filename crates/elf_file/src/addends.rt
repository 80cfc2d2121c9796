//! The words that relocations set.

ghost use Rattle.std.specs.Prelude.{◌≡◌, ◌≤◌, ◌+◌, ◌*◌, ℕ, IfErr, None, Ok, OnOk, length};
ghost use Rattle.elf_file.specs.Addends.{settings_in, settings_of};
ghost use Rattle.elf_file.specs.Readings.{IsElfReading};
ghost use Rattle.elf_file.specs.Views.{settings_held};
ghost use Rattle.elf_file.specs.private.Tables.{AddsWord};

use crate::fault::ElfFault;
use crate::numbers::{u32_at, u64_at};
use crate::section::Section;
use crate::sections::{content, section_named};
use std::alloc::Global;
use std::collections::HashMap;

/// The length of a relocation in its table, in bytes.
const RELOCATION_BYTES: usize = 24;

/// The places of a relocation's fields (`Elf64_Rela`).
const TYPE_AT: usize = 8;

const ADDEND_AT: usize = 16;

/// The type of relocations that set a word to an address (`R_X86_64_RELATIVE`).
const RELATIVE: u32 = 8;

/// The words that the relocations of a file set, by their addresses.
#[derive(Drop)]
pub struct Addends {
    words: HashMap<u64, u64>,
}

impl Addends {
    /// No words.
    fn new(alloc: Global) -> Addends
        ensures { (address : ℕ) → (settings_held result).word address ≡ None }
    {
        Addends {
            words: HashMap::new(alloc),
        }
    }

    /// Takes the relocation of a number, if it sets a word that none before it does.
    #[tactic(auto, unfolding(crate::specs::Addends::sets_word))]
    fn take_relocation(&mut self, table: &[u8], number: usize) -> Result<(), ElfFault>
        requires { 24 * number + 24 ≤ length table.now }
        ensures took { OnOk result (AddsWord table.now number self.old self.new) }
        ensures refused { IfErr result (λ fault. fault ≡ ElfFault.NoMemory) }
    {
        let place = RELOCATION_BYTES * number;
        if u32_at(table, place + TYPE_AT) != RELATIVE {
            return Ok(());
        }
        let address = u64_at(table, place);
        if self.words.contains_key(&address) {
            return Ok(());
        }
        self.words
            .insert(address, u64_at(table, place + ADDEND_AT))?;
        Ok(())
    }

    /// The word that a relocation sets at an address, for a file that lies at the addresses that it
    /// says, or `None` if no relocation sets it.
    pub fn word_at(&self, address: u64) -> Option<u64>
        ensures { result ≡ (settings_held self.now).word address }
    {
        self.words.get(&address).copied()
    }
}

/// The words that a table of relocations sets.
fn read_table(alloc: Global, table: &[u8]) -> Result<Addends, ElfFault>
    ensures { IsElfReading settings_held (Ok (settings_in table.now)) result }
{
    let mut held = Addends::new(alloc);
    for number in 0..table.len() / RELOCATION_BYTES {
        held.take_relocation(table, number)?;
    }
    Ok(held)
}

/// The words that the relocations in the section `.rela.dyn` set, or the refusal of this section; see
/// `ElfFault`. If several set a word, the first counts. A file without the section has none.
///
/// `NoMemory` may be returned in place of any other result.
pub fn read_addends(
    alloc: Global,
    file: &[u8],
    names: &[u8],
    sections: &[Section],
) -> Result<Addends, ElfFault>
    ensures { IsElfReading settings_held (settings_of file.now names.now sections.now) result }
{
    let Some(section) = section_named(names, sections, b".rela.dyn\0") else {
        return Ok(Addends::new(alloc));
    };
    let table = content(file, &section)?;
    if table.len() % RELOCATION_BYTES != 0 {
        return Err(ElfFault::Entries(section.header));
    }
    read_table(alloc, table)
}
