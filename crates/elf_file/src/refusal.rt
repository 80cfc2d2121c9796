//! The words that a line on err gives for bytes that aren't an ELF file that is read.
ghost use Rattle.std.specs.Prelude.{◌≡◌, ◌++◌, decimal};
ghost use Rattle.fault_words.specs.Words.{words_text};

use crate::fault::ElfFault;
use fault_words::{Fault, Words};
use xray_io::Piece;

impl Fault for ElfFault {
    ghost use Rattle.elf_file.specs.FaultWords.{elf_words};

    ghost told = { elf_words };

    fn refusal(&self) -> Option<Words<'static>> {
        match *self {
            ElfFault::Magic => Some(Words::name(b"Magic 0")),
            ElfFault::Class => Some(Words::name(b"Class 4")),
            ElfFault::ByteOrder => Some(Words::name(b"ByteOrder 5")),
            ElfFault::FileType => Some(Words::name(b"FileType 16")),
            ElfFault::Machine => Some(Words::name(b"Machine 18")),
            ElfFault::Header(place) => Some(placed(b"Header ", place)),
            ElfFault::Content(place) => Some(placed(b"Content ", place)),
            ElfFault::Entries(place) => Some(placed(b"Entries ", place)),
            ElfFault::Link(place) => Some(placed(b"Link ", place)),
            ElfFault::Name(place) => Some(placed(b"Name ", place)),
            ElfFault::NoMemory => None,
        }
    }
}

/// The words for a name, with a blank at its end, and a place.
fn placed(name: &'static [u8], place: u64) -> Words<'static>
    ensures { words_text result ≡ name.now ++ decimal place }
{
    Words::two(Piece::Bytes(name), Piece::Number(u128::from(place)))
}
