//! A sink that keeps what it is given.

ghost use Rattle.std.specs.Prelude.{◌≡◌, [], Some};

use std::alloc::Global;
use xray_io::{Failed, Sink};

/// Keeps all bytes that it is given. It fails if an allocation is refused.
#[derive(Drop)]
pub(crate) struct Gathered {
    bytes: Vec<u8>,
    faults: u64,
}

impl Gathered {
    ghost use Rattle.trace_forms.specs.private.Gathers.{gathered};

    /// Nothing yet.
    pub(crate) fn new(alloc: Global) -> Gathered
        ensures { gathered result ≡ [] }
    {
        Gathered {
            bytes: Vec::new(alloc),
            faults: 0,
        }
    }

    /// All bytes that it was given.
    pub(crate) fn into_vec(self) -> Vec<u8>
        ensures { result.items ≡ gathered self }
    {
        self.bytes
    }
}

impl Sink for Gathered {
    ghost use Rattle.trace_forms.specs.private.Gathers.{gathered};

    ghost written = { λ sink. Some (gathered sink) };

    ghost faults = { λ sink. sink.faults };

    ghost along = { λ _ _ _. Unit {0} };

    fn write(&mut self, bytes: &[u8]) -> Result<usize, Failed> {
        match self.bytes.extend_from_slice(bytes) {
            Ok(()) => Ok(bytes.len()),
            Err(_) => {
                self.faults = self.faults.saturating_add(1);
                Err(Failed)
            }
        }
    }

    ghost along_none = { λ _. tt };

    ghost along_both = { λ _ _ _ _ _ _ _. tt };
}
