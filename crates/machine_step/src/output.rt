//! The output of a thread.

ghost use Rattle.std.specs.Prelude.{◌≡◌, ◌≢◌, ◌==◌, [], ◌∷◌, ◌++◌, length, IfOk};

use std::alloc::{AllocError, Global};
use std::marker::Model;

/// The most bytes that a thread outputs.
pub const OUTPUT_LIMIT: usize = 65_536;

/// The bytes of all `out`s, in order, in room of a fixed size.
#[derive(Drop)]
pub(crate) struct Output {
    bytes: Vec<u8>,
}

impl Model for Output {
    ghost use Rattle.std.specs.Prelude.{◌≤◌, ℕ, List, vec_len, vec_capacity};
    ghost use Rattle.machine_step.specs.declared.output.TheConstants.{OUTPUT_LIMIT};

    ghost Value = { List ℕ };

    ghost view = { λ o. o.bytes.items };

    ghost invariant = { λ o.
        (vec_len o.bytes ≤ OUTPUT_LIMIT) × (OUTPUT_LIMIT ≤ vec_capacity o.bytes) };
}

impl Output {
    /// No bytes yet.
    pub(crate) fn new(alloc: Global) -> Result<Self, AllocError>
        ensures { IfOk result (λ output. output ≡ []) }
    {
        Ok(Output {
            bytes: Vec::with_capacity(alloc, OUTPUT_LIMIT)?,
        })
    }

    /// Whether there is no room for another byte.
    #[inline]
    pub(crate) fn is_full(&self) -> bool
        ensures { result ≡ (length self.now == OUTPUT_LIMIT) }
    {
        self.bytes.len() == OUTPUT_LIMIT
    }

    /// Adds a byte.
    #[inline]
    pub(crate) fn push(&mut self, byte: u8)
        requires { length self.old ≢ OUTPUT_LIMIT }
        ensures { self.new ≡ self.old ++ byte ∷ [] }
    {
        self.bytes.push_reserved(byte);
    }

    /// All bytes.
    pub(crate) fn bytes(&self) -> &[u8]
        ensures { result.now ≡ self.now }
    {
        &self.bytes
    }

    /// All bytes, as a vector.
    pub(crate) fn into_bytes(self) -> Vec<u8>
        ensures { result.items ≡ self }
    {
        let Output { bytes } = self;
        bytes
    }
}
