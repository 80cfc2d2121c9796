//! The bytes that say which instruction it is (Intel SDM, volume 2: section 2.2.1 for the prefixes,
//! appendix A for the opcodes).

/// The register that the three bits of an opcode or of ModRM count from.
pub const RAX: u8 = 0;

/// The register that they count from if a bit of the prefix extends them.
pub const R8: u8 = 8;

/// How many bits of a register's number an opcode or ModRM holds. A bit of the prefix extends them.
pub(crate) const LOW_BITS: u8 = 3;

/// The mask of these bits.
pub(crate) const LOW_MASK: u8 = 0b111;

/// The place of the bit R in REX, which extends the source. Bit 0 is B, which extends the other
/// register.
pub(crate) const REX_R_SHIFT: u8 = 2;

/// The place of the source in ModRM.
pub(crate) const SOURCE_SHIFT: u8 = 3;

/// REX with B alone: the register in the opcode is one of r8 to r15.
pub const REX_B: u8 = 0x41;

/// REX with W: both operands are 64-bit registers.
pub const REX_W: u8 = 0x48;

/// REX with W and B: the destination is one of r8 to r15.
pub const REX_WB: u8 = 0x49;

/// REX with W and R: the source is one of r8 to r15.
pub const REX_WR: u8 = 0x4C;

/// REX with W, R and B: the source and the destination are among r8 to r15.
pub const REX_WRB: u8 = 0x4D;

/// `add r/m64, r64`, after REX with W.
pub const ADD: u8 = 0x01;

/// `sub r/m64, r64`, after REX with W.
pub const SUB: u8 = 0x29;

/// The least ModRM byte that names two registers. Lesser ones name memory. The source is in bits 3
/// to 5, and the destination in bits 0 to 2.
pub const TWO_REGISTERS: u8 = 0xC0;

/// `push r64`, with the register in the low three bits.
pub const PUSH: u8 = 0x50;

/// `pop r64`, with the register in the low three bits.
pub const POP: u8 = 0x58;

/// `mov r32, imm32`, with the register in the low three bits.
pub const MOV: u8 = 0xB8;

/// The first byte of each opcode of two bytes.
pub const ESCAPE: u8 = 0x0F;

/// `jnz rel32`, after `ESCAPE`.
pub const JNZ: u8 = 0x85;

/// `ret`.
pub const RET: u8 = 0xC3;

/// `out imm8, al`.
pub const OUT: u8 = 0xE6;

/// `call rel32`.
pub const CALL: u8 = 0xE8;

/// `jmp rel32`.
pub const JMP: u8 = 0xE9;
