//! A short text that is put together from its end to its start.

ghost use Rattle.std.specs.Prelude.{◌≡◌, ◌+◌, ◌≤◌, [], ◌++◌, length, decimal};

use itoa::write_digits;
use std::marker::Model;

/// The most bytes of a row.
pub(crate) const ROOM: usize = 128;

/// The most digits of a number of 64 bits.
pub(crate) const MOST_DIGITS: usize = 20;

/// A short text. Each part that is put into it goes before those that it has.
#[derive(Drop)]
pub(crate) struct Row {
    bytes: [u8; ROOM],
    start: usize,
}

impl Model for Row {
    ghost use Rattle.std.specs.Prelude.{◌≤◌, ℕ, List, drop};
    ghost use Rattle.trace_forms.specs.declared.row.TheConstants.{ROOM};

    ghost Value = { List ℕ };

    ghost view = { λ row. drop row.start row.bytes };

    ghost invariant = { λ row. row.start ≤ ROOM };
}

impl Row {
    /// No bytes.
    #[inline(always)]
    pub(crate) fn new() -> Self
        ensures { result ≡ [] }
    {
        Row {
            bytes: [0; ROOM],
            start: ROOM,
        }
    }

    /// The text.
    #[inline(always)]
    pub(crate) fn as_slice(&self) -> &[u8]
        ensures { result.now ≡ self.now }
    {
        &self.bytes[self.start..]
    }

    /// Puts bytes before the text.
    #[inline(always)]
    pub(crate) fn put(&mut self, part: &[u8])
        requires { length part.now + length self.old ≤ ROOM }
        ensures { self.new ≡ part.now ++ self.old }
    {
        let end = self.start;
        let start = end - part.len();
        self.bytes[start..end].copy_from_slice(part);
        self.start = start;
    }

    /// Puts a number before the text, in decimal digits without leading zeros.
    #[inline(always)]
    pub(crate) fn put_number(&mut self, n: u64)
        requires { MOST_DIGITS + length self.old ≤ ROOM }
        ensures text { self.new ≡ decimal n ++ self.old }
        ensures short { length self.new ≤ MOST_DIGITS + length self.old }
    {
        let start = write_digits(n, &mut self.bytes, self.start);
        self.start = start;
    }
}
