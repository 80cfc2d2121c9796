//! What each pair of bytes begins. `tools/values/two_byte_starts.py` made the table from
//! a list of all encodings.

/// What two bytes begin.
#[derive(Clone, Copy)]
pub enum Start {
    /// No encoding begins with the first byte.
    First,
    /// No encoding goes on with the second byte.
    Second,
    /// The encoding that they begin is longer.
    Short,
    /// They name rsp or r10, which can't be named.
    Rsp,
    R10,
    /// An instruction of one byte, or of two.
    One,
    Two,
}

/// The last start of each run, in ascending order. A start is a number whose high byte is the first
/// byte.
pub const RUNS: [(u16, Start); 53] = [
    (0x0EFF, Start::First),
    (0x0F84, Start::Second),
    (0x0F85, Start::Short),
    (0x0FFF, Start::Second),
    (0x40FF, Start::First),
    (0x414F, Start::Second),
    (0x4151, Start::Two),
    (0x4152, Start::R10),
    (0x4159, Start::Two),
    (0x415A, Start::R10),
    (0x415F, Start::Two),
    (0x41B7, Start::Second),
    (0x41B9, Start::Short),
    (0x41BA, Start::R10),
    (0x41BF, Start::Short),
    (0x41FF, Start::Second),
    (0x47FF, Start::First),
    (0x4800, Start::Second),
    (0x4801, Start::Short),
    (0x4828, Start::Second),
    (0x4829, Start::Short),
    (0x4900, Start::Second),
    (0x4901, Start::Short),
    (0x4928, Start::Second),
    (0x4929, Start::Short),
    (0x49FF, Start::Second),
    (0x4BFF, Start::First),
    (0x4C00, Start::Second),
    (0x4C01, Start::Short),
    (0x4C28, Start::Second),
    (0x4C29, Start::Short),
    (0x4D00, Start::Second),
    (0x4D01, Start::Short),
    (0x4D28, Start::Second),
    (0x4D29, Start::Short),
    (0x4DFF, Start::Second),
    (0x4FFF, Start::First),
    (0x53FF, Start::One),
    (0x54FF, Start::Rsp),
    (0x5BFF, Start::One),
    (0x5CFF, Start::Rsp),
    (0x5FFF, Start::One),
    (0xB7FF, Start::First),
    (0xBBFF, Start::Short),
    (0xBCFF, Start::Rsp),
    (0xBFFF, Start::Short),
    (0xC2FF, Start::First),
    (0xC3FF, Start::One),
    (0xE5FF, Start::First),
    (0xE6FF, Start::Two),
    (0xE7FF, Start::First),
    (0xE9FF, Start::Short),
    (0xFFFF, Start::First),
];
