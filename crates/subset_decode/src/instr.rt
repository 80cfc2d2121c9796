//! The instructions.

use crate::reg::Reg;

/// An instruction of the traced machine (Intel SDM, volume 2, for each encoding). A jump's `rel` is
/// in bytes, counted from the place after the instruction.
#[derive(Clone, Copy, Debug, PartialEq, Eq)]
pub enum Instr {
    /// `mov r32, imm32`: the lower half of the register becomes the number, and the upper half 0.
    Mov { dst: Reg, imm: u32 },
    /// `add r64, r64`: the destination becomes the sum mod 2^64, and ZF becomes 1 if that is 0, and
    /// 0 otherwise.
    Add { dst: Reg, src: Reg },
    /// `sub r64, r64`: the destination becomes the destination less the source mod 2^64, and ZF is
    /// set as for `add`.
    Sub { dst: Reg, src: Reg },
    /// `push r64`: pushes the register.
    Push { reg: Reg },
    /// `pop r64`: pops into the register.
    Pop { reg: Reg },
    /// `call rel32`: pushes the address after the instruction, and jumps.
    Call { rel: i32 },
    /// `jmp rel32`: jumps.
    Jmp { rel: i32 },
    /// `jnz rel32`: jumps if ZF is 0.
    Jnz { rel: i32 },
    /// `ret`: pops an address, and jumps to it.
    Ret,
    /// `out imm8, al`: writes AL to the port.
    Out { port: u8 },
}
