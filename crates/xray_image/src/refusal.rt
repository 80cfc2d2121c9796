//! The words that a line on err gives for a file that isn't an image.

ghost use Rattle.std.specs.Prelude.{◌≡◌, ◌++◌, codes, decimal};
ghost use Rattle.xray_io.specs.Piece.{piece_text};
ghost use Rattle.fault_words.specs.Words.{words_text};
ghost use Rattle.xray_image.specs.FaultWords.{decode_words, field_words};

use crate::fault::{ImageFault, Which};
use fault_words::{Fault, Words};
use subset_decode::DecodeFault;
use xray_io::Piece;

impl Fault for ImageFault {
    ghost use Rattle.xray_image.specs.FaultWords.{image_words};

    ghost told = { image_words };

    fn refusal(&self) -> Option<Words<'static>> {
        match *self {
            ImageFault::Short => Some(Words::name(b"Short")),
            ImageFault::Magic => Some(Words::name(b"Magic")),
            ImageFault::Version => Some(Words::name(b"Version")),
            ImageFault::Limit(which) => Some(limit(which)),
            ImageFault::Trailing => Some(Words::name(b"Trailing")),
            ImageFault::Code(place, fault) => Some(code(place, fault)),
            ImageFault::Sled(place) => Some(Words::numbered(b"Sled ", place)),
            ImageFault::Names(number) => Some(Words::numbered(b"Names ", number)),
            ImageFault::MapOrder(number) => Some(Words::numbered(b"MapOrder ", number)),
            ImageFault::Odd(number) => Some(Words::numbered(b"Odd ", number)),
            ImageFault::Far(number) => Some(Words::numbered(b"Far ", number)),
            ImageFault::Target(place) => Some(Words::numbered(b"Target ", place)),
            ImageFault::NoMemory => None,
        }
    }
}

/// The words for a field of the header that is out of range.
fn limit(which: Which) -> Words<'static>
    ensures { words_text result ≡ codes "Limit " ++ field_words which }
{
    Words::two(Piece::Bytes(b"Limit "), Piece::Bytes(field_name(which)))
}

/// The name of a field of the header.
fn field_name(which: Which) -> &'static [u8]
    ensures { result.now ≡ field_words which }
{
    match which {
        Which::Code => b"Code",
        Which::Functions => b"Functions",
        Which::Sleds => b"Sleds",
        Which::Entry => b"Entry",
        Which::Base => b"Base",
    }
}

/// The words for a place of the code where no instruction stands.
fn code(place: u32, fault: DecodeFault) -> Words<'static>
    ensures { words_text result ≡ codes "Code " ++ decimal place ++ codes " " ++ decode_words fault }
{
    let (third, fourth) = decode_pieces(fault);
    Words {
        first: Piece::Bytes(b"Code "),
        second: Piece::Number(u128::from(place)),
        third,
        fourth,
    }
}

/// The pieces that say why bytes are no instruction, with a blank before them.
fn decode_pieces(fault: DecodeFault) -> (Piece<'static>, Piece<'static>)
    ensures { piece_text result.0 ++ piece_text result.1 ≡ codes " " ++ decode_words fault }
{
    match fault {
        DecodeFault::Short => (Piece::Bytes(b" Short"), Piece::Bytes(b"")),
        DecodeFault::Unknown(byte) => {
            (Piece::Bytes(b" Unknown "), Piece::Number(u128::from(byte)))
        }
        DecodeFault::Register(number) => (
            Piece::Bytes(b" Register "),
            Piece::Number(u128::from(number)),
        ),
    }
}
