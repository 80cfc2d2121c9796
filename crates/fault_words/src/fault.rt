//! The faults of readers.
ghost use Rattle.std.specs.Prelude.{◌≡◌, ℕ, List, Option, option_map};
ghost use Rattle.fault_words.specs.Words.{words_text};

use crate::words::Words;

/// Why a reader gives no value: memory ran out, or the input is refused, for which there are words.
pub trait Fault: Drop {
    /// The words that a line on err gives for the refusal. There are none if memory ran out, since
    /// nothing is refused then.
    ghost told: { Self → Option (List ℕ) };

    /// The words of the refusal, or `None` if memory ran out.
    fn refusal(&self) -> Option<Words<'static>>
        ensures { option_map words_text result ≡ told self.now };
}
