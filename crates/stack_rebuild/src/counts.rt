//! How many calls of each function are open.

ghost use Rattle.std.specs.Prelude.{◌≡◌, ◌<◌, ◌+◌, ◌^◌, ◌==◌, ℕ, if◌then◌else◌, OnOk, OnErr};
ghost use Rattle.stack_rebuild.specs.private.Counts.{count_in};

use std::alloc::AllocError;
use std::collections::HashMap;

/// Counts one more call of a function.
pub(crate) fn count_up(counts: &mut HashMap<u32, usize>, func: u32) -> Result<(), AllocError>
    requires { count_in counts.old func < 2 ^ 63 }
    ensures ok { OnOk result ((other : ℕ) → count_in counts.new other
        ≡ (if func == other then count_in counts.old other + 1 else count_in counts.old other)) }
    ensures err { OnErr result ((other : ℕ) →
        count_in counts.new other ≡ count_in counts.old other) }
{
    match counts.get_mut(&func) {
        Some(count) => *count += 1,
        None => {
            counts.insert(func, 1)?;
        }
    }
    Ok(())
}

/// Counts one call of a function fewer.
#[inline(never)]
pub(crate) fn count_down(counts: &mut HashMap<u32, usize>, func: u32)
    requires { 0 < count_in counts.old func }
    ensures { (other : ℕ) → count_in counts.old other
        ≡ (if func == other then count_in counts.new other + 1 else count_in counts.new other) }
{
    if let Some(count) = counts.get_mut(&func) {
        *count -= 1;
    }
}

/// How many calls of a function there are.
pub(crate) fn count_of(counts: &HashMap<u32, usize>, func: u32) -> usize
    ensures { result ≡ count_in counts.now func }
{
    counts.get(&func).copied().unwrap_or(0)
}
