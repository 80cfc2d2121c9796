//! Items of durations in ascending order.

ghost use Rattle.std.specs.Prelude.{◌≡◌, ◌≤◌, ◌*◌, ◌/◌, length, slice_index};
ghost use Rattle.account_report.specs.private.Ranks.{ranks_from, ranks_of};

/// Fewer durations than this are sorted. Of more, only the items are selected.
const MANY: usize = 128;

/// Items of durations in ascending order. They are 0 if there are no durations.
#[derive(Clone, Copy)]
pub(crate) struct Ranks {
    /// The least one.
    pub(crate) min: u64,
    /// The median: item n / 2 of n, counted from 0.
    pub(crate) med: u64,
    /// Item 9 n / 10.
    pub(crate) p90: u64,
    /// Item 99 n / 100.
    pub(crate) p99: u64,
    /// The greatest one.
    pub(crate) max: u64,
}

/// The items of durations, which are put into another order.
pub(crate) fn ranks_in(durations: &mut [u64]) -> Ranks
    ensures { result ≡ ranks_of durations.old }
{
    if durations.len() < MANY {
        return sorted(durations);
    }
    selected(durations)
}

/// The items of durations that are sorted.
fn sorted(durations: &mut [u64]) -> Ranks
    ensures { result ≡ ranks_of durations.old }
{
    durations.sort_unstable();
    items(durations)
}

/// The items of durations in ascending order.
fn items(durations: &[u64]) -> Ranks
    ensures { result ≡ ranks_from durations.now }
{
    let n = durations.len();
    Ranks {
        min: item(durations, 0),
        med: item(durations, n / 2),
        p90: item(durations, place_90(n)),
        p99: item(durations, place_99(n)),
        max: item(durations, n.saturating_sub(1)),
    }
}

/// The items of many durations. Each is selected among those that come before the last one.
fn selected(durations: &mut [u64]) -> Ranks
    requires { MANY ≤ length durations.old }
    ensures { result ≡ ranks_of durations.old }
{
    let n = durations.len();
    let (others, max, _) = durations.select_nth_unstable(n - 1);
    let (most, p99, _) = others.select_nth_unstable(place_99(n));
    let (lower, p90, _) = most.select_nth_unstable(place_90(n));
    let (lowest, med, _) = lower.select_nth_unstable(n / 2);
    let (_, min, _) = lowest.select_nth_unstable(0);
    Ranks {
        min: *min,
        med: *med,
        p90: *p90,
        p99: *p99,
        max: *max,
    }
}

/// The place of the 90th percentile of so many items.
fn place_90(n: usize) -> usize
    ensures { result ≡ 9 * n / 10 }
{
    (9 * n as u128 / 10) as usize
}

/// The place of the 99th percentile of so many items.
fn place_99(n: usize) -> usize
    ensures { result ≡ 99 * n / 100 }
{
    (99 * n as u128 / 100) as usize
}

/// The item at a place, or 0 if there is none.
fn item(durations: &[u64], place: usize) -> u64
    ensures { result ≡ slice_index durations.now place }
{
    durations.get(place).copied().unwrap_or(0)
}
