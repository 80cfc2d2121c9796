//! The words that a line on err gives for a file that has no sled map.
ghost use Rattle.std.specs.Prelude.{◌≡◌, ◌++◌, decimal};
ghost use Rattle.fault_words.specs.Words.{words_text};

use crate::fault::ProgramFault;
use fault_words::{Fault, Words};
use xray_io::Piece;

impl Fault for ProgramFault {
    ghost use Rattle.program_map.specs.FaultWords.{program_words};

    ghost told = { program_words };

    fn refusal(&self) -> Option<Words<'static>> {
        match *self {
            ProgramFault::Elf(fault) => fault.refusal(),
            ProgramFault::Map => Some(Words::name(b"Map")),
            ProgramFault::Version(place) => Some(placed(b"Version ", place)),
            ProgramFault::Kind(place) => Some(placed(b"Kind ", place)),
            ProgramFault::Index(place) => Some(placed(b"Index ", place)),
        }
    }
}

/// The words for a name, with a blank at its end, and a place.
fn placed(name: &'static [u8], place: u64) -> Words<'static>
    ensures { words_text result ≡ name.now ++ decimal place }
{
    Words::two(Piece::Bytes(name), Piece::Number(u128::from(place)))
}
