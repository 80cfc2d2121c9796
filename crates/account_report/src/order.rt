//! Rows in the order of a column.

ghost use Rattle.std.specs.{Prelude.{◌≡◌, IsPermutation, List, map, nat_eq}, List.{IsDistinct}};
ghost use Rattle.std.specs.List.Sorted.{IsSortedBy};
ghost use Rattle.std.specs.Ordering.{is_lt};
ghost use Rattle.account_report.specs.declared.row.AccountRow.{AccountRow};
ghost use Rattle.account_report.specs.Ordered.{arranged, column, first_rows, row_before};

use crate::row::{AccountRow, SortKey};
use std::cmp::Ordering;

/// Orders rows by a column, and keeps the first ones. Rows with the same number in the column are
/// in the order of ascending functions, in both directions.
///
/// `top` is how many rows are kept. Without it all rows are kept. Rows of one function with the
/// same number in the column may be in any order.
pub fn order_rows(rows: &mut Vec<AccountRow>, sort: SortKey, descending: bool, top: Option<u32>)
    ensures exact { IsDistinct nat_eq (map (λ row. row.func) rows.old.items)
        → rows.new.items ≡ arranged sort descending top rows.old.items }
    ensures ordered { (all : List AccountRow) × IsPermutation rows.old.items all
        × IsSortedBy (row_before sort descending) all × (rows.new.items ≡ first_rows top all) }
{
    rows.sort_unstable_by(|row, other| compare(sort, descending, row, other));
    if let Some(top) = top {
        rows.truncate(top as usize);
    }
}

/// Which of two rows comes first.
fn compare(sort: SortKey, descending: bool, row: &AccountRow, other: &AccountRow) -> Ordering
    ensures { is_lt result ≡ row_before sort descending row.now other.now }
{
    let number = number_in(sort, row);
    let other_number = number_in(sort, other);
    let by_column = if descending {
        other_number.cmp(&number)
    } else {
        number.cmp(&other_number)
    };
    by_column.then(row.func.cmp(&other.func))
}

/// The number in a column.
fn number_in(sort: SortKey, row: &AccountRow) -> u128
    ensures { result ≡ column sort row.now }
{
    match sort {
        SortKey::FuncId => u128::from(row.func),
        SortKey::Count => u128::from(row.count),
        SortKey::Min => u128::from(row.min),
        SortKey::Med => u128::from(row.med),
        SortKey::P90 => u128::from(row.p90),
        SortKey::P99 => u128::from(row.p99),
        SortKey::Max => u128::from(row.max),
        SortKey::Sum => row.sum,
    }
}
