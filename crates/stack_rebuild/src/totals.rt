//! Sums over the events of a trace.

ghost use Rattle.std.specs.Prelude.{◌≡◌, ◌+◌, IfOk};

use xray_io::NoMemory;

/// The sum. No trace of fewer than 2^64 bytes has a sum beyond the type, so `NoMemory` stands for that
/// too.
pub(crate) fn added(sum: u128, number: u128) -> Result<u128, NoMemory>
    ensures { IfOk result (λ more. more ≡ sum + number) }
{
    sum.checked_add(number).ok_or(NoMemory)
}
