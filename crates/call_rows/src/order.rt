//! Calls in the order of a column.

ghost use Rattle.std.specs.Prelude.{◌≡◌, ◌↔◌, ◌≤◌, ◌+◌, ◌++◌, ℕ, [], ◌∷◌, List, IsTrue, OnOk, length, map, nat_eq};
ghost use Rattle.std.specs.{List.{IsDistinct}, Option.{option_to_list}};
ghost use Rattle.std.specs.Ordering.{is_lt};
ghost use Rattle.fdr_file.specs.ThreadEvents.{ThreadEvent};
ghost use Rattle.call_rows.specs.declared.row.CallRow.{CallRow};
ghost use Rattle.call_rows.specs.CallOrders.{arranged_calls, call_before, call_column};
ghost use Rattle.call_rows.specs.CallRows.{EndsAt, rows_after};
ghost use Rattle.call_rows.specs.private.FirstRows.{Collects, IsBoundOf, KeepsFirst, comes_past};

use crate::filter::{CallFilter, same_number};
use crate::row::{CallKey, CallRow};
use std::alloc::Global;
use std::cmp::Ordering;
use xray_io::NoMemory;

/// In which order calls are listed, and how many of them.
#[derive(Clone, Copy)]
pub struct CallOrder {
    /// What they are ordered by. Calls with the same number there are in the order in which they end,
    /// in both directions.
    pub key: CallKey,
    /// Whether greater numbers come first.
    pub descending: bool,
    /// How many of the first calls are listed. Without it all are.
    pub top: Option<u32>,
}

impl CallOrder {
    /// Whether it is the same order.
    pub(crate) fn is_same(&self, other: &CallOrder) -> bool
        ensures { IsTrue result ↔ self.now ≡ other.now }
    {
        self.key == other.key
            && self.descending == other.descending
            && same_number(self.top, other.top)
    }
}

/// Orders rows, and keeps the first ones. No two of them may have the same exit.
pub fn order_calls(rows: &mut Vec<CallRow>, order: &CallOrder)
    ensures { IsDistinct nat_eq (map (λ row. row.end) rows.old.items)
        → rows.new.items ≡ arranged_calls order.now rows.old.items }
{
    let CallOrder {
        key,
        descending,
        top,
    } = *order;
    rows.sort_unstable_by(|row, other| compare(key, descending, row, other));
    if let Some(top) = top {
        rows.truncate(top as usize);
    }
}

/// Which of two rows comes first.
fn compare(key: CallKey, descending: bool, row: &CallRow, other: &CallRow) -> Ordering
    ensures { is_lt result ≡ call_before key descending row.now other.now }
{
    let number = number_in(key, row);
    let other_number = number_in(key, other);
    let by_column = if descending {
        other_number.cmp(&number)
    } else {
        number.cmp(&other_number)
    };
    by_column.then(row.end.cmp(&other.end))
}

/// The number in a column.
fn number_in(key: CallKey, row: &CallRow) -> u64
    ensures { result ≡ call_column key row.now }
{
    match key {
        CallKey::End => row.end,
        CallKey::Call => row.call,
        CallKey::Start => row.start,
        CallKey::Duration => row.duration,
        CallKey::Own => row.own,
        CallKey::Depth => row.depth,
    }
}

/// The last of rows in order, if as many are wanted; otherwise the one before.
fn bound_of(rows: &[CallRow], top: Option<u32>, last: Option<CallRow>) -> Option<CallRow>
    ensures { IsBoundOf rows.now top last result }
{
    match top {
        Some(top) => {
            if rows.len() >= top as usize {
                rows.last().copied()
            } else {
                last
            }
        }
        None => last,
    }
}

/// Rows of which the first ones in an order are wanted. If so many are wanted, at most twice as many
/// are kept.
#[derive(Drop)]
pub(crate) struct FirstRows {
    order: CallOrder,
    rows: Vec<CallRow>,
    /// A row that at least `top` of the kept ones don't come after. No row after it is kept.
    last: Option<CallRow>,
}

impl FirstRows {
    /// No rows.
    pub(crate) fn new(alloc: Global, order: CallOrder) -> FirstRows
        ensures keeps { (events : ℕ) → KeepsFirst result events [] }
        ensures order { result.order ≡ order }
    {
        FirstRows {
            order,
            rows: Vec::new(alloc),
            last: None,
        }
    }

    /// The order.
    pub(crate) fn order(&self) -> CallOrder
        ensures { result ≡ self.now.order }
    {
        self.order
    }

    /// Takes the row of a call that ends after the others.
    pub(crate) fn add(&mut self, row: &CallRow) -> Result<(), NoMemory>
        ensures added { OnOk result ((events : ℕ) (rows : List CallRow)
            → KeepsFirst self.old events rows → events ≤ row.now.end
            → KeepsFirst self.new (row.now.end + 1) (rows ++ row.now ∷ [])) }
        ensures order { self.new.order ≡ self.old.order }
    {
        if self.is_past(row) {
            return Ok(());
        }
        self.rows.push(*row)?;
        if self.is_full() {
            self.cut();
        }
        Ok(())
    }

    /// Whether a row comes after the last one that may be listed.
    #[inline(always)]
    fn is_past(&self, row: &CallRow) -> bool
        ensures { result ≡ comes_past self.now row.now }
    {
        match &self.last {
            Some(last) => {
                compare(self.order.key, self.order.descending, last, row) == Ordering::Less
            }
            None => false,
        }
    }

    /// Takes the call that an event ends, if there is one and it is wanted.
    #[inline(always)]
    pub(crate) fn add_wanted(
        &mut self,
        wanted: &CallFilter,
        row: &Option<CallRow>,
    ) -> Result<(), NoMemory>
        ensures added { OnOk result ((history : List ThreadEvent) (e : ThreadEvent)
            → Collects self.old wanted.now history
            → rows_after (e ∷ history) ≡ rows_after history ++ option_to_list row.now
            → EndsAt (length history) row.now
            → Collects self.new wanted.now (e ∷ history)) }
        ensures order { self.new.order ≡ self.old.order }
    {
        if let Some(row) = row {
            if wanted.wants(row) {
                return self.add(row);
            }
        }
        Ok(())
    }

    /// Whether twice as many rows are kept as are wanted.
    fn is_full(&self) -> bool {
        match self.order.top {
            Some(top) => self.rows.len() / 2 >= top as usize,
            None => false,
        }
    }

    /// Keeps the first rows in order.
    #[inline(never)]
    fn cut(&mut self)
        ensures kept { (events : ℕ) (rows : List CallRow) → KeepsFirst self.old events rows
            → KeepsFirst self.new events rows }
        ensures order { self.new.order ≡ self.old.order }
    {
        let order = self.order;
        order_calls(&mut self.rows, &order);
        self.last = bound_of(&self.rows, order.top, self.last);
    }

    /// The first rows in order.
    pub(crate) fn into_rows(mut self) -> Vec<CallRow>
        ensures { (events : ℕ) (rows : List CallRow) → KeepsFirst self events rows
            → result.items ≡ arranged_calls self.order rows }
    {
        order_calls(&mut self.rows, &self.order);
        self.rows
    }
}
