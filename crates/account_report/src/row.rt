//! A row of an account.

/// What the account says of a function, over all threads of a trace. Durations are in cycles.
#[derive(Clone, Copy)]
pub struct AccountRow {
    /// The id of the function.
    pub func: u32,
    /// How many pairs of an entry and an exit the function has. If there are none, the seven
    /// numbers from here to `sum` are 0.
    pub count: u64,
    /// The least duration of a pair.
    pub min: u64,
    /// The median: item n / 2 of the n durations in ascending order, counted from 0.
    pub med: u64,
    /// Item 9 n / 10 of these.
    pub p90: u64,
    /// Item 99 n / 100 of these.
    pub p99: u64,
    /// The greatest duration of a pair.
    pub max: u64,
    /// The sum of the durations.
    pub sum: u128,
    /// How many of its entries aren't in a pair.
    pub entries: u64,
    /// How many of its exits and tail exits aren't in a pair.
    pub exits: u64,
}

/// What rows are ordered by: one of their columns.
#[derive(Clone, Copy)]
pub enum SortKey {
    /// The id of the function.
    FuncId,
    /// How many pairs there are.
    Count,
    /// The least duration.
    Min,
    /// The median.
    Med,
    /// Item 9 n / 10 of the durations.
    P90,
    /// Item 99 n / 100 of the durations.
    P99,
    /// The greatest duration of a pair.
    Max,
    /// The sum of the durations.
    Sum,
}
