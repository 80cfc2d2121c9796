//! Why a text isn't an assembler text.

use thiserror::Error;

/// Why `assemble` gives no image. Each refusal has the number of its line, counted from 1. The
/// answer is the refusal of the first line that is refused. If several apply to that line, the
/// first in this order is the answer.
#[derive(Clone, Copy, Debug, PartialEq, Eq, Error)]
pub enum AsmFault {
    /// The line isn't one of the language, or is in a wrong place: a `base` or `entry` that is
    /// repeated or comes after a `fn`; an instruction or a label before the first `fn`; a `fn`
    /// after a function without instruction lines. If the text has no function, or its last one has
    /// no instruction line, the number is the one after the last line.
    #[error("line {0} is no line of the language, or stands in a wrong place")]
    Syntax(u32),
    /// The line names `esp`, `rsp`, `r10d` or `r10` as a register.
    #[error("line {0} names a register that can't be named")]
    Register(u32),
    /// An immediate is above 4,294,967,295, a port is above 255, or a base isn't a multiple of 16
    /// or is above 0x7FFF00000000.
    #[error("line {0} has a number that is out of range")]
    Range(u32),
    /// An earlier line defines the same name, for a function or a label.
    #[error("line {0} defines a name again")]
    Repeat(u32),
    /// With this line the text has more than 1,024 functions, 4,096 sleds or 1,048,576 bytes of
    /// code. The sleds of each function that doesn't say `never` are counted, whatever the
    /// threshold is.
    #[error("line {0} exceeds a limit")]
    Limit(u32),
    /// The line goes to a name that isn't defined, or is an `entry` that names no function, or is a
    /// label at the end of the last function. This is checked after all other refusals.
    #[error("line {0} has a name without a place")]
    Label(u32),
    /// Memory for the tables and the image was refused.
    #[error("out of memory")]
    NoMemory,
}
