//! Why a file isn't a trace, with the words for it.

ghost use Rattle.std.specs.Prelude.{◌≡◌, ◌++◌, codes, decimal};
ghost use Rattle.xray_io.specs.Piece.{piece_text};
ghost use Rattle.fault_words.specs.Words.{words_text};
ghost use Rattle.trace_words.specs.TraceWords.{record_words};

use fault_words::{Fault, Words};
use fdr_file::TraceFault;
use fdr_record::RecFault;
use xray_io::Piece;

/// The fault of `read_trace`, with the words of its refusal.
#[derive(Clone, Copy, Drop)]
pub struct TraceRefusal {
    /// What is wrong with the file.
    pub fault: TraceFault,
}

impl Fault for TraceRefusal {
    ghost use Rattle.trace_words.specs.TraceWords.{trace_words};

    ghost told = { λ refusal. trace_words refusal.fault };

    fn refusal(&self) -> Option<Words<'static>> {
        match self.fault {
            TraceFault::Short(place) => Some(numbered(b"Short ", place)),
            TraceFault::Version(version) => Some(numbered(b"Version ", u64::from(version))),
            TraceFault::Form(form) => Some(numbered(b"Form ", u64::from(form))),
            TraceFault::Order(place) => Some(numbered(b"Order ", place)),
            TraceFault::Extents(place) => Some(numbered(b"Extents ", place)),
            TraceFault::Bad(place, fault) => Some(bad(place, fault)),
            TraceFault::NoBase(place) => Some(numbered(b"NoBase ", place)),
            TraceFault::NoMemory => None,
        }
    }
}

/// The words for a name, with a blank at its end, and a number.
fn numbered(name: &'static [u8], number: u64) -> Words<'static>
    ensures { words_text result ≡ name.now ++ decimal number }
{
    Words::two(Piece::Bytes(name), Piece::Number(u128::from(number)))
}

/// The words for a place where no record stands.
fn bad(place: u64, fault: RecFault) -> Words<'static>
    ensures { words_text result ≡ codes "Bad " ++ decimal place ++ codes " " ++ record_words fault }
{
    let (third, fourth) = record_pieces(fault);
    Words {
        first: Piece::Bytes(b"Bad "),
        second: Piece::Number(u128::from(place)),
        third,
        fourth,
    }
}

/// The pieces that say why bytes aren't a record, with a blank before them.
fn record_pieces(fault: RecFault) -> (Piece<'static>, Piece<'static>)
    ensures { piece_text result.0 ++ piece_text result.1 ≡ codes " " ++ record_words fault }
{
    match fault {
        RecFault::Short => (Piece::Bytes(b" Short"), Piece::Bytes(b"")),
        RecFault::Action(action) => (Piece::Bytes(b" Action "), Piece::Number(u128::from(action))),
        RecFault::Kind(kind) => (Piece::Bytes(b" Kind "), Piece::Number(u128::from(kind))),
    }
}
