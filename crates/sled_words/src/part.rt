//! The parts of a sled.

/// A word of a sled, by the bytes of the sled that it covers.
#[derive(Clone, Copy)]
pub enum Part {
    /// Bytes 0 and 1, which a thread loads first.
    Head,
    /// Bytes 2 to 5. In a patched sled, the function id.
    Id,
    /// Byte 6. In a patched sled, the opcode of a call or a jump.
    Opcode,
    /// Bytes 7 to 10. In a patched sled, the distance to the trampoline.
    Offset,
}
