//! What is kept of a frame.

ghost use Rattle.std.specs.Prelude.{◌≡◌};
ghost use Rattle.stack_rebuild.specs.Stacks.{told};
ghost use Rattle.flame_graph.specs.Frames.{calls_in, no_calls};
ghost use Rattle.flame_graph.specs.private.Walking.{calls_by};

use crate::sums::MOST_LEVELS;
use stack_rebuild::StackRow;

/// What is printed of a frame's calls: how many pairs of an entry and an exit have its path, the sum
/// of their durations in cycles, and what is left of that sum without the time in other functions.
#[derive(Clone, Copy)]
pub struct Calls {
    /// How many pairs have the path.
    pub count: u64,
    /// The sum of their durations.
    pub sum: u128,
    /// The same sum without the time in other functions.
    pub own: u128,
}

impl Calls {
    /// Those of a frame that has no row.
    pub(crate) const NONE: Calls = Calls {
        count: 0,
        sum: 0,
        own: 0,
    };

    /// Those of a row.
    pub(crate) fn of(row: &StackRow) -> Calls
        ensures { result ≡ calls_in (told row.now) }
    {
        Calls {
            count: row.count,
            sum: row.sum,
            own: row.own,
        }
    }

    /// Those of a frame with this many functions, whose first row is this one.
    pub(crate) fn of_frame(row: &StackRow, size: usize) -> Calls
        ensures { result ≡ calls_by (told row.now) size }
    {
        if row.path.len() == size {
            Calls::of(row)
        } else {
            Calls::NONE
        }
    }
}

/// The frames that more rows may begin with, from the outermost on. They are two arrays, since one of
/// pairs would take more of the stack.
#[derive(Drop)]
pub(crate) struct Openings {
    /// The left end of each, in thousandths of a pixel.
    pub(crate) lefts: [u32; MOST_LEVELS],
    /// The position of the first row whose path begins with it, from 0.
    pub(crate) firsts: [usize; MOST_LEVELS],
}
