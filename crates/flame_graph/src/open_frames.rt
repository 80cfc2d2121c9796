//! The frames that open at a row.

ghost use Rattle.std.specs.Prelude.{◌≡◌, ◌<◌, ◌≤◌, ℕ, length};
ghost use Rattle.flame_graph.specs.private.Walking.{opening_at};

use crate::frame::Openings;
use crate::sums::MOST_LEVELS;
use stack_rebuild::StackRow;

/// Opens the frames of a row's path with more than `standing` functions. `left` is where the row
/// begins, in thousandths of a pixel, and `first` is its position among the rows, from 0.
pub(crate) fn open_frames(
    openings: &mut Openings,
    standing: usize,
    row: &StackRow,
    left: u32,
    first: usize,
)
    ensures stay { (n : ℕ) → n < standing → opening_at openings.new n ≡ opening_at openings.old n }
    ensures opened { (n : ℕ) → standing ≤ n → n < length row.now.path.items → n < 4096
        → opening_at openings.new n ≡ record { left = left; first = first } }
{
    let most = row.path.len().min(MOST_LEVELS);
    'opening: for outer in standing..most {
        openings.lefts[outer] = left;
        openings.firsts[outer] = first;
    }
}
