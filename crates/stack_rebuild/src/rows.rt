//! The rows of a stack report, from the sums of paths.

ghost use Rattle.std.specs.Prelude.{◌≡◌, ◌<◌, ◌++◌, List, length, map, All, IfOk, OnOk};
ghost use Rattle.std.specs.Ordering.{is_lt};
ghost use Rattle.stack_rebuild.specs.private.Rows.{row_before, row_by, rows_at, rows_for};
ghost use Rattle.stack_rebuild.specs.PathSums.{AreSums};
ghost use Rattle.stack_rebuild.specs.Stacks.{Timed, rows_of_pairs, told};

use crate::path_sums::PathSums;
use crate::stack_row::StackRow;
use crate::tally::Tally;
use std::alloc::Global;
use std::cmp::Ordering;
use xray_io::NoMemory;

/// A row for each path that has a pair, in ascending order of the paths as lists of numbers.
/// `NoMemory` means that an allocation was refused.
pub fn rows_of(alloc: Global, mut sums: PathSums) -> Result<Vec<StackRow>, NoMemory>
    ensures { IfOk result (λ rows. (pairs : List Timed) → AreSums sums.paths sums.tallies pairs
        → map told rows.items ≡ rows_of_pairs pairs) }
{
    let order = sums.order(alloc)?;
    let mut rows = listed(alloc, &sums, order.as_slice())?;
    rows.sort_unstable_by(|row, other| compare(row, other));
    Ok(rows)
}

/// A row for each of the paths with these numbers that has a pair, in the order of the numbers.
fn listed(alloc: Global, sums: &PathSums, numbers: &[u32]) -> Result<Vec<StackRow>, NoMemory>
    requires { All (λ number. number < length sums.now.paths) numbers.now }
    ensures { IfOk result (λ rows. map told rows.items
        ≡ rows_for sums.now.paths sums.now.tallies numbers.now) }
{
    let mut rows = Vec::new(alloc);
    'listing: for number in numbers {
        add_row(alloc, &mut rows, sums, *number as usize)?;
    }
    Ok(rows)
}

/// Adds the row of a path with this number, if it has a pair.
fn add_row(
    alloc: Global,
    rows: &mut Vec<StackRow>,
    sums: &PathSums,
    number: usize,
) -> Result<(), NoMemory>
    requires { number < length sums.now.paths }
    ensures { OnOk result (map told rows.new.items
        ≡ map told rows.old.items ++ rows_at sums.now.paths sums.now.tallies number) }
{
    let tally = sums.tally(number);
    if tally.count > 0 {
        let path = sums.path(alloc, number)?;
        rows.push(row_with(path, tally))?;
    }
    Ok(())
}

/// The row of a path.
fn row_with(path: Vec<u32>, tally: Tally) -> StackRow
    ensures { told result ≡ row_by path.items tally }
{
    StackRow {
        path,
        count: tally.count,
        sum: tally.sum,
        own: tally.own,
    }
}

/// Which of two rows comes first: by their paths, as lists of numbers.
fn compare(row: &StackRow, other: &StackRow) -> Ordering
    ensures { is_lt result ≡ row_before row.now other.now }
{
    row.path.cmp(&other.path)
}
