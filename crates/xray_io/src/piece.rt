//! The parts of a text.

/// A part of a text: bytes, or a number and the way to print it.
#[derive(Clone, Copy)]
pub enum Piece<'a> {
    /// These bytes.
    Bytes(&'a [u8]),
    /// A number in decimal digits, without leading zeros.
    Number(u128),
    /// A number in decimal digits, with spaces before it up to `width` places. A longer number is
    /// printed whole.
    Right { number: u128, width: usize },
    /// A number in lower-case hexadecimal digits, with zeros before it up to `digits` digits. A
    /// longer number is printed whole.
    Hex { number: u64, digits: usize },
}
