//! The ids of sleds.

ghost use Rattle.std.specs.Prelude.{◌≡◌, ◌<◌, ◌≤◌, ◌+◌, ◌-◌, ◌*◌, ◌^◌, ◌/◌, ◌++◌, ◌∷◌, [], List, IfOk, OnOk, length, take};
ghost use Rattle.program_map.specs.Numbering.{by_function, by_index, numbering_of};
ghost use Rattle.program_map.specs.Readings.{IsProgramReading};
ghost use Rattle.program_map.specs.private.Counts.{IsCounted, is_last, numbering_held};
ghost use Rattle.program_map.specs.private.Views.{parts_held};
ghost use Rattle.program_map.specs.declared.sled.MapSled.{MapSled as TheSled};

use crate::fault::ProgramFault;
use crate::index::{INDEX_BYTES, read_index};
use crate::parts::ProgramParts;
use crate::sled::MapSled;
use elf_file::{ElfFault, Section, content, section_named};
use std::alloc::Global;
use xray_io::NoMemory;

/// A sled with the id of its function.
#[derive(Clone, Copy, Debug, PartialEq, Eq)]
pub struct NumberedSled {
    /// The id, counted from 1.
    pub id: u32,
    /// The sled.
    pub sled: MapSled,
}

/// Sleds with their ids.
#[derive(Drop)]
pub(crate) struct NumberedSleds {
    pub(crate) sleds: Vec<NumberedSled>,
    /// How many functions there are.
    pub(crate) functions: u32,
    /// How many sleds have no id.
    pub(crate) left_out: u64,
}

/// Sleds that are numbered by the changes of their functions.
#[derive(Drop)]
pub(crate) struct Counting {
    pub(crate) sleds: Vec<NumberedSled>,
    pub(crate) functions: u32,
    /// The function of the last sled.
    pub(crate) last: Option<u64>,
}

impl Counting {
    /// No sled yet.
    fn new(alloc: Global) -> Counting
        ensures { IsCounted [] result }
    {
        Counting {
            sleds: Vec::new(alloc),
            functions: 0,
            last: None,
        }
    }

    /// Whether the last sled is of this function.
    fn is_last(&self, function: u64) -> bool
        ensures { result ≡ is_last self.now.last function }
    {
        match self.last {
            Some(last) => last == function,
            None => false,
        }
    }

    /// Takes a sled, of which there are fewer than 2^32.
    fn take_sled(&mut self, sled: MapSled) -> Result<(), NoMemory>
        requires { self.old.functions + 1 < 2 ^ 32 }
        ensures took { OnOk result ((sleds : List TheSled) → IsCounted sleds self.old →
            IsCounted (sleds ++ sled ∷ []) self.new) }
        ensures few { self.new.functions ≤ self.old.functions + 1 }
    {
        if !self.is_last(sled.function) {
            self.functions += 1;
            self.last = Some(sled.function);
        }
        let id = self.functions;
        self.sleds.push(NumberedSled { id, sled })?;
        Ok(())
    }
}

/// Numbers sleds by the changes of their functions.
#[tactic(auto, using(std::proofs::lemmas::List::take_more))]
fn by_function(alloc: Global, sleds: &[MapSled]) -> Result<NumberedSleds, ProgramFault>
    requires { length sleds.now + 1 < 2 ^ 32 }
    ensures { IsProgramReading numbering_held (Ok (by_function sleds.now)) result }
{
    let mut counting = Counting::new(alloc);
    for sled in sleds {
        match counting.take_sled(*sled) {
            Ok(()) => {}
            Err(NoMemory) => return Err(ProgramFault::Elf(ElfFault::NoMemory)),
        }
    }
    let Counting {
        sleds,
        functions,
        ..
    } = counting;
    Ok(NumberedSleds {
        sleds,
        functions,
        left_out: 0,
    })
}

/// Numbers sleds by an index.
fn by_index(
    alloc: Global,
    file: &[u8],
    parts: &ProgramParts,
    sleds: &[MapSled],
    index: Section,
) -> Result<NumberedSleds, ProgramFault>
    requires short { length file.now < 68719476736 }
    requires sleds { length sleds.now ≡ length parts.now.table.now / 32 }
    ensures { IsProgramReading numbering_held
        (by_index file.now (parts_held parts.now) sleds.now index) result }
{
    let table = content(file, &index)?;
    if table.len() % INDEX_BYTES != 0 {
        return Err(ProgramFault::Elf(ElfFault::Entries(index.header)));
    }
    let numbered = read_index(alloc, parts, sleds, &index, table)?;
    let left_out = (sleds.len() - numbered.len()) as u64;
    Ok(NumberedSleds {
        sleds: numbered,
        functions: (table.len() / INDEX_BYTES) as u32,
        left_out,
    })
}

/// Numbers the sleds of a program.
pub(crate) fn number_sleds(
    alloc: Global,
    file: &[u8],
    parts: &ProgramParts,
    sleds: &[MapSled],
) -> Result<NumberedSleds, ProgramFault>
    requires short { length file.now < 68719476736 }
    requires sleds { length sleds.now ≡ length parts.now.table.now / 32 }
    requires few { length sleds.now + 1 < 2 ^ 32 }
    ensures { IsProgramReading numbering_held
        (numbering_of file.now (parts_held parts.now) sleds.now) result }
{
    match section_named(parts.names, &parts.sections, b"xray_fn_idx\0") {
        Some(index) => by_index(alloc, file, parts, sleds, index),
        None => by_function(alloc, sleds),
    }
}
