//! Bytes that wait to be written, in an array.
ghost use Rattle.std.specs.Prelude.{◌≡◌, ◌+◌, ◌≤◌, [], ◌++◌, length};

use std::marker::Model;

/// The most bytes that may wait.
pub const ROOM: usize = 4096;

/// Bytes that wait, at most `ROOM` of them.
#[derive(Drop)]
pub struct Waiting {
    bytes: [u8; ROOM],
    len: usize,
}

impl Model for Waiting {
    ghost use Rattle.std.specs.Prelude.{◌≤◌, ℕ, List, take};
    ghost use Rattle.xray_io.specs.declared.waiting.TheConstants.{ROOM};

    ghost Value = { List ℕ };

    ghost view = { λ waiting. take waiting.len waiting.bytes };

    ghost invariant = { λ waiting. waiting.len ≤ ROOM };
}

impl Waiting {
    /// No bytes.
    pub fn new() -> Self
        ensures { result ≡ [] }
    {
        Waiting {
            bytes: [0; ROOM],
            len: 0,
        }
    }

    /// The bytes that wait, in the order in which they were added.
    pub fn as_slice(&self) -> &[u8]
        ensures { result.now ≡ self.now }
    {
        &self.bytes[..self.len]
    }

    /// How many more bytes may be added.
    pub fn room(&self) -> usize
        ensures { result + length self.now ≡ ROOM }
    {
        ROOM - self.len
    }

    /// Adds bytes that there is room for.
    pub fn add(&mut self, more: &[u8])
        requires { length self.old + length more.now ≤ ROOM }
        ensures { self.new ≡ self.old ++ more.now }
    {
        let end = self.len + more.len();
        self.bytes[self.len..end].copy_from_slice(more);
        self.len = end;
    }

    /// Forgets all bytes, once they were written.
    pub fn clear(&mut self)
        ensures { self.new ≡ [] }
    {
        self.len = 0;
    }
}
