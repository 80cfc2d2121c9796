//! The sled map of a program.

ghost use Rattle.std.specs.Prelude.{◌≡◌, ◌<◌, length};
ghost use Rattle.program_map.specs.Programs.{program_held, program_of_elf};
ghost use Rattle.program_map.specs.Readings.{IsProgramReading};

use crate::fault::ProgramFault;
use crate::numbering::{NumberedSled, number_sleds};
use crate::parts::read_parts;
use crate::sleds::read_sleds;
use elf_file::{FunctionNames, read_names};
use std::alloc::Global;

/// The sled map of a program: its sleds with ids, and the names of its functions.
#[derive(Drop)]
pub struct ProgramMap {
    pub(crate) sleds: Vec<NumberedSled>,
    pub(crate) names: FunctionNames,
    /// How many functions have an id.
    pub(crate) functions: u32,
    /// How many sleds have none.
    pub(crate) left_out: u64,
}

/// The sled map of a program, whose file has fewer than 2^36 bytes.
///
/// The file is an ELF file of 64 bits for x86-64, a program or a shared object, with a section
/// `xray_instr_map`. If it has a section `xray_fn_idx`, a function's id is the number of its entry
/// there, counted from 1, and sleds that no entry has are left out. Else ids go up with each change of
/// the function. A file is refused as `ProgramFault` says, by the first check that fails.
///
/// `NoMemory` may be returned in place of any other result. No more memory is taken than for the
/// sections, relocations, symbols and sleds that the file has.
pub fn read_program(alloc: Global, file: &[u8]) -> Result<ProgramMap, ProgramFault>
    requires { length file.now < 68719476736 }
    ensures { IsProgramReading program_held (program_of_elf file.now) result }
{
    let parts = read_parts(alloc, file)?;
    let sleds = read_sleds(alloc, &parts.addends, &parts.section, parts.table)?;
    let numbered = number_sleds(alloc, file, &parts, &sleds)?;
    let names = read_names(alloc, file, &parts.sections)?;
    Ok(ProgramMap {
        sleds: numbered.sleds,
        names,
        functions: numbered.functions,
        left_out: numbered.left_out,
    })
}
