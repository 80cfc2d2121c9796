//! Why bytes aren't an ELF file that is read.

use std::alloc::{AllocError, AllocFailed};
use thiserror::Error;

/// Why an ELF file isn't read. A place is a byte offset, counted from the file's start.
#[derive(Clone, Copy, Debug, PartialEq, Eq, Error)]
pub enum ElfFault {
    /// The file doesn't begin with 0x7F and `ELF`.
    #[error("no ELF file")]
    Magic,
    /// The file isn't one of 64 bits.
    #[error("not of 64 bits")]
    Class,
    /// The lowest byte of a number doesn't come first.
    #[error("another byte order")]
    ByteOrder,
    /// The file is neither a program nor a shared object.
    #[error("neither a program nor a shared object")]
    FileType,
    /// The file isn't for x86-64.
    #[error("another machine")]
    Machine,
    /// The file doesn't hold a header: its own, at place 0, or those of its sections. The field at
    /// place 40 says where these begin, and that at place 58 how long each is.
    #[error("the file does not hold the header of {0}")]
    Header(u64),
    /// The file doesn't hold the bytes of the section whose header is at this place.
    #[error("the file does not hold the section of the header at {0}")]
    Content(u64),
    /// The section whose header is at this place ends within an entry.
    #[error("the section of the header at {0} ends within an entry")]
    Entries(u64),
    /// There is no table of names for the section whose header is at this place. Place 62 is that of
    /// the field of the header which says where the names of sections are.
    #[error("no names for the header at {0}")]
    Link(u64),
    /// The name of the symbol at this place isn't within the table of names.
    #[error("the name of the symbol at {0} does not end")]
    Name(u64),
    /// Memory was refused.
    #[error("out of memory")]
    NoMemory,
}

impl From<AllocError> for ElfFault {
    ghost use Rattle.std.specs.Prelude.{◌≡◌};
    ghost use Rattle.elf_file.specs.declared.fault.ElfFault.TheVariants.{NoMemory};

    ghost from_gives = { λ _ fault. fault ≡ NoMemory };

    fn from(_error: AllocError) -> ElfFault {
        ElfFault::NoMemory
    }
}

impl<T: Drop> From<AllocFailed<T>> for ElfFault {
    ghost use Rattle.std.specs.Prelude.{◌≡◌};
    ghost use Rattle.elf_file.specs.declared.fault.ElfFault.TheVariants.{NoMemory};

    ghost from_gives = { λ _ fault. fault ≡ NoMemory };

    fn from(_error: AllocFailed<T>) -> ElfFault {
        ElfFault::NoMemory
    }
}
