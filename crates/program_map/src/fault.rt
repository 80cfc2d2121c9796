//! Why a file has no sled map.

use elf_file::ElfFault;
use std::alloc::{AllocError, AllocFailed};
use thiserror::Error;

/// Why `read_program` returns no map. A place is a byte offset, counted from the file's start.
#[derive(Clone, Copy, Debug, PartialEq, Eq, Error)]
pub enum ProgramFault {
    /// The file isn't an ELF file that is read, or memory was refused.
    #[error("{0}")]
    Elf(ElfFault),
    /// The file has no section `xray_instr_map`.
    #[error("no sleds")]
    Map,
    /// The entry at this place of the map has a version above 2.
    #[error("the version of the entry at {0}")]
    Version(u64),
    /// The entry at this place of the map has a kind above 5.
    #[error("the kind of the entry at {0}")]
    Kind(u64),
    /// The entry at this place of the section `xray_fn_idx` isn't a part of the map, or the entries up
    /// to it have more sleds than the map.
    #[error("the sleds of the entry at {0}")]
    Index(u64),
}

impl From<ElfFault> for ProgramFault {
    ghost use Rattle.std.specs.Prelude.{◌≡◌};
    ghost use Rattle.program_map.specs.declared.fault.ProgramFault.TheVariants.{Elf};

    ghost from_gives = { λ error fault. fault ≡ Elf error };

    fn from(error: ElfFault) -> ProgramFault {
        ProgramFault::Elf(error)
    }
}

impl From<AllocError> for ProgramFault {
    ghost use Rattle.std.specs.Prelude.{◌≡◌};
    ghost use Rattle.elf_file.specs.declared.fault.ElfFault.TheVariants.{NoMemory};
    ghost use Rattle.program_map.specs.declared.fault.ProgramFault.TheVariants.{Elf};

    ghost from_gives = { λ _ fault. fault ≡ Elf NoMemory };

    fn from(_error: AllocError) -> ProgramFault {
        ProgramFault::Elf(ElfFault::NoMemory)
    }
}

impl<T: Drop> From<AllocFailed<T>> for ProgramFault {
    ghost use Rattle.std.specs.Prelude.{◌≡◌};
    ghost use Rattle.elf_file.specs.declared.fault.ElfFault.TheVariants.{NoMemory};
    ghost use Rattle.program_map.specs.declared.fault.ProgramFault.TheVariants.{Elf};

    ghost from_gives = { λ _ fault. fault ≡ Elf NoMemory };

    fn from(_error: AllocFailed<T>) -> ProgramFault {
        ProgramFault::Elf(ElfFault::NoMemory)
    }
}
