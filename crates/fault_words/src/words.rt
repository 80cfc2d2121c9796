//! The words of a refusal.
ghost use Rattle.std.specs.Prelude.{◌≡◌, ◌++◌, decimal};
ghost use Rattle.xray_io.specs.Piece.{piece_text};
ghost use Rattle.fault_words.specs.Words.{words_text};

use xray_io::Piece;

/// The words of a refusal, which are its name and its values, as the pieces of a text.
#[derive(Clone, Copy)]
pub struct Words<'a> {
    /// The first piece.
    pub first: Piece<'a>,
    /// The second piece, which may be empty. So may the pieces after it.
    pub second: Piece<'a>,
    /// The third piece.
    pub third: Piece<'a>,
    /// The fourth piece.
    pub fourth: Piece<'a>,
}

/// A piece that isn't there.
const NOTHING: Piece = Piece::Bytes(b"");

impl<'a> Words<'a> {
    /// A name alone.
    pub fn name(name: &'a [u8]) -> Self
        ensures { words_text result ≡ name.now }
    {
        Words::two(Piece::Bytes(name), NOTHING)
    }

    /// A name, with a blank at its end, and then a number.
    pub fn numbered(name: &'a [u8], number: u32) -> Self
        ensures { words_text result ≡ name.now ++ decimal number }
    {
        Words::two(Piece::Bytes(name), Piece::Number(u128::from(number)))
    }

    /// Two pieces.
    pub fn two(first: Piece<'a>, second: Piece<'a>) -> Self
        ensures { words_text result ≡ piece_text first.entry ++ piece_text second.entry }
    {
        Words {
            first,
            second,
            third: NOTHING,
            fourth: NOTHING,
        }
    }
}
