//! What is known of all rows before any is drawn, and how much two paths share.

ghost use Rattle.std.specs.Prelude.{◌≡◌, length, map, max};
ghost use Rattle.stack_rebuild.specs.Stacks.{told};
ghost use Rattle.flame_graph.specs.Frames.{frames_total};
ghost use Rattle.flame_graph.specs.Picture.{levels_of};
ghost use Rattle.flame_graph.specs.private.Walking.{shared};

use stack_rebuild::StackRow;

/// How many rows of frames are drawn at most. No row of a trace's stacks has a longer path.
pub(crate) const MOST_LEVELS: usize = 4096;

/// The time that was spent in the calls of the rows themselves, in cycles.
pub(crate) fn total_of(rows: &[StackRow]) -> u128
    ensures { result ≡ frames_total (map told rows.now) }
{
    let mut total: u128 = 0;
    'rows: for row in rows {
        total = total.saturating_add(row.own);
    }
    total
}

/// How many rows of frames are drawn.
pub(crate) fn levels_of(rows: &[StackRow]) -> usize
    ensures { result ≡ levels_of (map told rows.now) }
{
    let mut levels = 0;
    'rows: for row in rows {
        levels = longer(levels, row);
    }
    levels.min(MOST_LEVELS)
}

/// The length of a row's path, if it is longer than the others.
fn longer(levels: usize, row: &StackRow) -> usize
    ensures { result ≡ max levels (length row.now.path.items) }
{
    levels.max(row.path.len())
}

/// How many functions two paths have in common from the outermost on.
pub(crate) fn shared(path: &[u32], other: &[u32]) -> usize
    ensures { result ≡ shared path.now other.now }
{
    let most = path.len().min(other.len());
    'same: for count in 0..most {
        if path[count] != other[count] {
            return count;
        }
    }
    most
}
