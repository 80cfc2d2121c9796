//! A sink that records whether a call failed.
ghost use Rattle.std.specs.Prelude.{◌^◌, None};

use xray_io::{Failed, MemSink, Sink};

/// The most bytes that a call takes.
const MOST: usize = 16;

/// A sink that takes at most 16 bytes a call. It records whether a call failed, and counts the calls
/// after the first one that did.
#[derive(Drop)]
pub struct WatchedSink {
    sink: MemSink,
    has_failed: bool,
    later_calls: u64,
}

impl WatchedSink {
    /// Over this sink, with its faults, before its first call.
    pub fn new(sink: MemSink) -> Self {
        WatchedSink {
            sink,
            has_failed: false,
            later_calls: 0,
        }
    }

    /// All that was written.
    pub fn bytes(&self) -> &[u8] {
        self.sink.bytes()
    }

    /// Whether a call failed.
    pub fn has_failed(&self) -> bool {
        self.has_failed
    }

    /// How many calls were made after the one that failed.
    pub fn later_calls(&self) -> u64 {
        self.later_calls
    }
}

impl Sink for WatchedSink {
    ghost written = { λ _. None };

    ghost faults = { λ _. 2 ^ 64 };

    ghost along = { λ _ _ _. Unit {0} };

    fn write(&mut self, bytes: &[u8]) -> Result<usize, Failed> {
        if self.has_failed {
            self.later_calls = self.later_calls.saturating_add(1);
        }
        match self.sink.write(&bytes[..bytes.len().min(MOST)]) {
            Ok(count) => Ok(count),
            Err(failed) => {
                self.has_failed = true;
                Err(failed)
            }
        }
    }

    ghost along_none = { λ _. tt };

    ghost along_both = { λ _ _ _ _ _ _ _. tt };
}
