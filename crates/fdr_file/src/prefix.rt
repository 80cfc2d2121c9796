//! The first bytes of a header or of a record, if the others haven't come yet.

ghost use Rattle.std.specs.Prelude.{◌≡◌, ◌<◌, [], ◌∷◌, ◌++◌, length};

use crate::header::HEADER_BYTES;
use std::marker::Model;

/// A few bytes, at most as many as a header has.
#[derive(Drop)]
pub(crate) struct Prefix {
    bytes: [u8; HEADER_BYTES],
    len: usize,
}

impl Model for Prefix {
    ghost use Rattle.std.specs.Prelude.{◌≤◌, ℕ, List, take};

    ghost Value = { List ℕ };

    ghost view = { λ prefix. take prefix.len prefix.bytes };

    ghost invariant = { λ prefix. prefix.len ≤ 32 };
}

impl Prefix {
    /// No bytes.
    pub(crate) fn new() -> Prefix
        ensures { result ≡ [] }
    {
        Prefix {
            bytes: [0; HEADER_BYTES],
            len: 0,
        }
    }

    pub(crate) fn as_slice(&self) -> &[u8]
        ensures { result.now ≡ self.now }
    {
        &self.bytes[..self.len]
    }

    /// Adds a byte at the end.
    pub(crate) fn add(&mut self, byte: u8)
        requires { length self.old < 32 }
        ensures { self.new ≡ self.old ++ byte ∷ [] }
    {
        self.bytes[self.len] = byte;
        self.len += 1;
    }

    /// Removes all bytes.
    pub(crate) fn clear(&mut self)
        ensures { self.new ≡ [] }
    {
        self.len = 0;
    }
}
