//! What takes the bytes of an input, piece by piece.
ghost use Rattle.std.specs.Prelude.{◌≡◌, ℕ, ◌+◌, ◌^◌, ◌<◌, ◌++◌, List, length, OnOk};

use crate::NoMemory;

/// What is fed the bytes of an input, piece by piece. After `NoMemory` nothing is said of it.
pub trait Feed {
    /// It was fed these bytes.
    ghost fed: { Self → List ℕ → Type 0 };

    /// Takes a piece, which comes after all pieces before it. Together they have fewer than 2^64
    /// bytes. `NoMemory` means that an allocation was refused.
    fn feed(&mut self, piece: &[u8]) -> Result<(), NoMemory>
        requires { (bytes : List ℕ) × fed self.old bytes × (length bytes + length piece.now < 2 ^ 64) }
        ensures { OnOk result ((bytes : List ℕ) → fed self.old bytes → fed self.new (bytes ++ piece.now)) };
}

/// Keeps all bytes.
impl Feed for Vec<u8> {
    ghost fed = { λ kept bytes. kept.items ≡ bytes };

    fn feed(&mut self, piece: &[u8]) -> Result<(), NoMemory> {
        self.extend_from_slice(piece)?;
        Ok(())
    }
}
