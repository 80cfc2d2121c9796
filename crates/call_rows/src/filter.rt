//! Which calls are wanted.

ghost use Rattle.std.specs.Prelude.{◌≡◌, ◌↔◌, IsTrue};
ghost use Rattle.call_rows.specs.CallRows.{is_wanted, passes};

use crate::row::CallRow;

/// Which calls are wanted: those that all three say.
#[derive(Clone, Copy, Drop)]
pub struct CallFilter {
    /// Calls of the function with this id. Without it, of any function.
    pub function: Option<u32>,
    /// Calls of this thread. Without it, of any thread.
    pub thread: Option<u32>,
    /// Calls whose duration is this number of cycles or more.
    pub least: u64,
}

impl CallFilter {
    /// Whether the same calls are wanted, in the same words.
    pub(crate) fn is_same(&self, other: &CallFilter) -> bool
        ensures { IsTrue result ↔ self.now ≡ other.now }
    {
        same_number(self.function, other.function)
            && same_number(self.thread, other.thread)
            && self.least == other.least
    }

    /// Whether a call is wanted.
    pub fn wants(&self, row: &CallRow) -> bool
        ensures { result ≡ passes self.now row.now }
    {
        is_one(self.function, row.func)
            && is_one(self.thread, row.thread)
            && self.least <= row.duration
    }
}

/// Whether two numbers are the same, or both are missing.
pub(crate) fn same_number(one: Option<u32>, other: Option<u32>) -> bool
    ensures { IsTrue result ↔ one ≡ other }
{
    match one {
        None => other.is_none(),
        Some(one) => match other {
            None => false,
            Some(other) => one == other,
        },
    }
}

/// Whether a number is the wanted one, if there is one.
fn is_one(wanted: Option<u32>, n: u32) -> bool
    ensures { result ≡ is_wanted wanted n }
{
    match wanted {
        None => true,
        Some(wanted) => n == wanted,
    }
}
