//! The words that a line on err gives for bytes that aren't a log.
ghost use Rattle.std.specs.Prelude.{◌≡◌, ◌++◌, codes, decimal};
ghost use Rattle.fault_words.specs.Words.{words_text};

use crate::fault::LogFault;
use fault_words::{Fault, Words};
use trace_words::TraceRefusal;
use xray_io::Piece;

impl Fault for LogFault {
    ghost use Rattle.runtime_log.specs.FaultWords.{log_words};

    ghost told = { log_words };

    fn refusal(&self) -> Option<Words<'static>> {
        match *self {
            LogFault::Trace(fault) => TraceRefusal { fault }.refusal(),
            LogFault::Tag(place, tag) => Some(numbered(b"Tag ", place, u32::from(tag))),
            LogFault::Kind(place, kind) => Some(numbered(b"Kind ", place, u32::from(kind))),
            LogFault::Function(place, func) => Some(numbered(b"Function ", place, func)),
        }
    }
}

/// The words for a name, with a blank at its end, a place and a number.
fn numbered(name: &'static [u8], place: u64, number: u32) -> Words<'static>
    ensures { words_text result ≡ name.now ++ decimal place ++ codes " " ++ decimal number }
{
    Words {
        first: Piece::Bytes(name),
        second: Piece::Number(u128::from(place)),
        third: Piece::Bytes(b" "),
        fourth: Piece::Number(u128::from(number)),
    }
}
