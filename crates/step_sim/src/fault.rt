//! Why a text isn't a schedule.

use thiserror::Error;

/// Why `read_schedule` gives no schedule. `Limit` is checked before all else. After that, the
/// answer is the refusal of the first line that is refused, with its number, counted from 1. On one
/// line `Syntax` is checked before `Thread`.
#[derive(Clone, Copy, Debug, PartialEq, Eq, Error)]
pub enum ScheduleFault {
    /// The line has a byte before its comment that isn't allowed there; or it has words and isn't
    /// `t T K` or `p K`; or K isn't a number from 1 to 4,294,967,295.
    #[error("line {0} is no line of a schedule")]
    Syntax(u32),
    /// The line is `t T K`, and T isn't the number of a thread, or isn't a number.
    #[error("line {0} names no thread")]
    Thread(u32),
    /// The text has more than 1,048,576 lines.
    #[error("too many lines")]
    Limit,
    /// Memory for the lines was refused.
    #[error("out of memory")]
    NoMemory,
}
