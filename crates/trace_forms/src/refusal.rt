//! The words of bytes that aren't a basic log.

ghost use Rattle.std.specs.Prelude.{◌≡◌, ◌++◌, codes, decimal};
ghost use Rattle.fault_words.specs.Words.{words_text};

use crate::basic::BasicFault;
use fault_words::{Fault, Words};
use xray_io::Piece;

impl Fault for BasicFault {
    ghost use Rattle.trace_forms.specs.FaultWords.{basic_words};

    ghost told = { basic_words };

    fn refusal(&self) -> Option<Words<'static>> {
        match *self {
            BasicFault::Short(place) => Some(numbered(b"Short ", place)),
            BasicFault::Version(version) => Some(numbered(b"Version ", u64::from(version))),
            BasicFault::Form(form) => Some(numbered(b"Form ", u64::from(form))),
            BasicFault::Tag(place, tag) => Some(placed(b"Tag ", place, u64::from(tag))),
            BasicFault::Kind(place, kind) => Some(placed(b"Kind ", place, u64::from(kind))),
            BasicFault::NoMemory => None,
        }
    }
}

/// The words for a name, with a blank at its end, and a number.
fn numbered(name: &'static [u8], number: u64) -> Words<'static>
    ensures { words_text result ≡ name.now ++ decimal number }
{
    Words::two(Piece::Bytes(name), Piece::Number(u128::from(number)))
}

/// The same, with a place before the number.
fn placed(name: &'static [u8], place: u64, number: u64) -> Words<'static>
    ensures { words_text result ≡ name.now ++ decimal place ++ codes " " ++ decimal number }
{
    Words {
        first: Piece::Bytes(name),
        second: Piece::Number(u128::from(place)),
        third: Piece::Bytes(b" "),
        fourth: Piece::Number(u128::from(number)),
    }
}
