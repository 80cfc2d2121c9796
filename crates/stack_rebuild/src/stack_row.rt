//! The rows of a stack report, and why there may be none.

ghost use Rattle.std.specs.Prelude.{◌≡◌};
ghost use Rattle.stack_rebuild.specs.declared.stack_row.StackFault.TheVariants.{NoMemory};

use thiserror::Error;

/// What a trace says of a path, over all threads. Durations are in cycles.
#[derive(Drop)]
pub struct StackRow {
    /// The functions of the path, outermost first. The last is the one that the row is about.
    pub path: Vec<u32>,
    /// How many pairs of an entry and an exit have this path. It isn't 0.
    pub count: u64,
    /// The sum of their durations.
    pub sum: u128,
    /// The same sum without the time in other functions. Each duration is reduced by those of the
    /// pairs that were made directly in its call. If they are more, it counts as 0.
    pub own: u128,
}

/// Why `stacks` and `StackFold::rows` give no rows.
#[derive(Clone, Copy, Debug, PartialEq, Eq, Error)]
pub enum StackFault {
    /// More than 4,096 calls of this thread are open at once. If there are several such threads, it
    /// is the least.
    #[error("more calls of thread {0} are open than are followed")]
    Deep(u32),
    /// Memory for the rows was refused.
    #[error("out of memory")]
    NoMemory,
}

impl From<xray_io::NoMemory> for StackFault {
    ghost from_gives = { λ _ e. e ≡ NoMemory };

    fn from(_error: xray_io::NoMemory) -> StackFault {
        StackFault::NoMemory
    }
}
