//! Why bytes are no instruction.

use thiserror::Error;

/// Why no instruction could be read. The shortest prefix of the bytes that decides gives the
/// answer.
#[derive(Clone, Copy, Debug, PartialEq, Eq, Error)]
pub enum DecodeFault {
    /// The bytes begin an instruction and end before it does.
    #[error("the instruction is cut off")]
    Short,
    /// The first byte with which no encoding goes on.
    #[error("no instruction goes on with the byte {0}")]
    Unknown(u8),
    /// The bytes name this register, 4 or 10. The destination is looked at before the source.
    #[error("register {0} can't be named")]
    Register(u8),
}
