//! What a passing met.

ghost use Rattle.std.specs.Prelude.{◌≡◌, ◌<◌};

/// What a passing of a sled met.
#[derive(Clone, Copy, Debug, PartialEq, Eq)]
pub enum Mark {
    /// The sled was unpatched. Printed as `.`.
    Skipped,
    /// The sled was patched, and no handler was set. Printed as `n`.
    NoHandler,
    /// A handler was set, and the log wasn't initialized. Printed as `f`.
    NotLogging,
    /// One event was recorded, without an argument. Printed as `+`.
    Recorded,
    /// One event was recorded, with its argument. Printed as `a`.
    RecordedArg,
}

impl Mark {
    ghost use Rattle.handler_word.specs.private.Bits.{mark_of};
    ghost use Rattle.handler_word.specs.MarkList.{is_recorded};

    /// Whether the passing recorded an event, with its argument or without.
    pub(crate) fn is_recorded(self) -> bool
        ensures { result ≡ is_recorded self }
    {
        match self {
            Mark::Skipped | Mark::NoHandler | Mark::NotLogging => false,
            Mark::Recorded | Mark::RecordedArg => true,
        }
    }

    /// The four bits that stand for the mark.
    pub(crate) fn bits(self) -> u8
        ensures small { result < 16 }
        ensures mark { mark_of result ≡ self }
    {
        self as u8
    }

    /// The mark that these four bits stand for.
    pub(crate) fn from_bits(bits: u8) -> Mark
        requires { bits < 16 }
        ensures { result ≡ mark_of bits }
    {
        match bits {
            0 => Mark::Skipped,
            1 => Mark::NoHandler,
            2 => Mark::NotLogging,
            3 => Mark::Recorded,
            4..=u8::MAX => Mark::RecordedArg,
        }
    }
}
