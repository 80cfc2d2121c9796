//! Reading instructions from bytes.

ghost use Rattle.std.specs.Prelude.{◌≡◌, ◌≤◌, ◌<◌, ◌+◌, length, drop, IfOk, IfErr, Ok, Err};
ghost use Rattle.subset_decode.specs.declared.instr.Instr.{Instr};
ghost use Rattle.subset_decode.specs.declared.fault.DecodeFault.{DecodeFault};
ghost use Rattle.subset_decode.specs.{Encoding.{spelling, IsNamed, Begins}, Refusals.{Refuses}};
ghost use Rattle.subset_decode.specs.Reading.{byte_at, field_at, distance_at, register_of, low_register_at, operands_of, arithmetic_at, escaped_at, instr_at, first_instr, Gives};

use crate::fault::DecodeFault;
use crate::instr::Instr;
use crate::opcodes::{
    ADD, CALL, ESCAPE, JMP, JNZ, LOW_MASK, MOV, OUT, POP, PUSH, R8, RAX, RET, REX_B, REX_W, REX_WB,
    REX_WR, REX_WRB, SOURCE_SHIFT, SUB, TWO_REGISTERS,
};
use crate::reg::Reg;
use byteorder::{ByteOrder, LittleEndian};

/// The first byte.
fn byte(bytes: &[u8]) -> Result<(u8, &[u8]), DecodeFault>
    ensures { Gives (λ x. (x.0, x.1.now)) result (byte_at bytes.now) }
{
    match bytes {
        [] => Err(DecodeFault::Short),
        [first, rest @ ..] => Ok((*first, rest)),
    }
}

/// The field of four bytes, lowest byte first.
fn field(bytes: &[u8]) -> Result<(u32, &[u8]), DecodeFault>
    ensures { Gives (λ x. (x.0, x.1.now)) result (field_at bytes.now) }
{
    if bytes.len() < 4 {
        return Err(DecodeFault::Short);
    }
    let (number, rest) = bytes.split_at(4);
    Ok((LittleEndian::read_u32(number), rest))
}

/// The distance of a jump.
fn distance(bytes: &[u8]) -> Result<(i32, &[u8]), DecodeFault>
    ensures { Gives (λ x. (x.0, x.1.now)) result (distance_at bytes.now) }
{
    let (number, rest) = field(bytes)?;
    Ok((number.cast_signed(), rest))
}

/// The register with this number.
fn register(number: u8) -> Result<Reg, DecodeFault>
    requires { number < 16 }
    ensures { result ≡ register_of number }
{
    Reg::new(number).ok_or(DecodeFault::Register(number))
}

/// The instruction whose opcode holds a register in its low three bits, counted from `from`.
#[tactic(auto, unfolding(crate::specs::Reading::low_register_at))]
fn low_register(from: u8, opcode: u8, rest: &[u8]) -> Result<(Instr, &[u8]), DecodeFault>
    requires { from ≤ 8 }
    ensures { Gives (λ x. (x.0, x.1.now)) result (low_register_at from opcode rest.now) }
{
    let number = from + (opcode & LOW_MASK);
    match opcode & !LOW_MASK {
        MOV => {
            let dst = register(number)?;
            let (imm, rest) = field(rest)?;
            Ok((Instr::Mov { dst, imm }, rest))
        }
        PUSH => {
            let reg = register(number)?;
            Ok((Instr::Push { reg }, rest))
        }
        POP => {
            let reg = register(number)?;
            Ok((Instr::Pop { reg }, rest))
        }
        _ => Err(DecodeFault::Unknown(opcode)),
    }
}

/// The destination and the source of a ModRM byte, counted from `dst_from` and `src_from`.
fn operands(dst_from: u8, src_from: u8, modrm: u8) -> Result<(Reg, Reg), DecodeFault>
    requires dst { dst_from ≤ 8 }
    requires src { src_from ≤ 8 }
    ensures { result ≡ operands_of dst_from src_from modrm }
{
    if modrm < TWO_REGISTERS {
        return Err(DecodeFault::Unknown(modrm));
    }
    let dst = register(dst_from + (modrm & LOW_MASK))?;
    let src = register(src_from + (modrm >> SOURCE_SHIFT & LOW_MASK))?;
    Ok((dst, src))
}

/// `add` or `sub`, after its prefix.
#[tactic(auto, unfolding(crate::specs::Reading::arithmetic_at))]
fn arithmetic(dst_from: u8, src_from: u8, bytes: &[u8]) -> Result<(Instr, &[u8]), DecodeFault>
    requires dst { dst_from ≤ 8 }
    requires src { src_from ≤ 8 }
    ensures { Gives (λ x. (x.0, x.1.now)) result (arithmetic_at dst_from src_from bytes.now) }
{
    let (opcode, rest) = byte(bytes)?;
    match opcode {
        ADD => {
            let (modrm, rest) = byte(rest)?;
            let (dst, src) = operands(dst_from, src_from, modrm)?;
            Ok((Instr::Add { dst, src }, rest))
        }
        SUB => {
            let (modrm, rest) = byte(rest)?;
            let (dst, src) = operands(dst_from, src_from, modrm)?;
            Ok((Instr::Sub { dst, src }, rest))
        }
        _ => Err(DecodeFault::Unknown(opcode)),
    }
}

/// The instruction with an opcode of two bytes, after the first of them.
#[tactic(auto, unfolding(crate::specs::Reading::escaped_at))]
fn escaped(bytes: &[u8]) -> Result<(Instr, &[u8]), DecodeFault>
    ensures { Gives (λ x. (x.0, x.1.now)) result (escaped_at bytes.now) }
{
    let (opcode, rest) = byte(bytes)?;
    match opcode {
        JNZ => {
            let (rel, rest) = distance(rest)?;
            Ok((Instr::Jnz { rel }, rest))
        }
        _ => Err(DecodeFault::Unknown(opcode)),
    }
}

/// The instruction that the bytes begin with, and the bytes after it.
#[tactic(auto, unfolding(crate::specs::Reading::instr_at))]
fn instr(bytes: &[u8]) -> Result<(Instr, &[u8]), DecodeFault>
    ensures { Gives (λ x. (x.0, x.1.now)) result (instr_at bytes.now) }
{
    let (first, rest) = byte(bytes)?;
    match first {
        REX_B => {
            let (opcode, rest) = byte(rest)?;
            low_register(R8, opcode, rest)
        }
        REX_W => arithmetic(RAX, RAX, rest),
        REX_WB => arithmetic(R8, RAX, rest),
        REX_WR => arithmetic(RAX, R8, rest),
        REX_WRB => arithmetic(R8, R8, rest),
        ESCAPE => escaped(rest),
        CALL => {
            let (rel, rest) = distance(rest)?;
            Ok((Instr::Call { rel }, rest))
        }
        JMP => {
            let (rel, rest) = distance(rest)?;
            Ok((Instr::Jmp { rel }, rest))
        }
        RET => Ok((Instr::Ret, rest)),
        OUT => {
            let (port, rest) = byte(rest)?;
            Ok((Instr::Out { port }, rest))
        }
        _ => low_register(RAX, first, rest),
    }
}

/// Reads the instruction at the place `at` of the bytes, which may be their end, and not beyond it.
/// Returns it and the place after it. Places are byte offsets from the start of `bytes`. What
/// follows the instruction doesn't matter. The fault is that of the shortest prefix of the bytes
/// from `at` on that decides; see `DecodeFault`.
pub fn decode(bytes: &[u8], at: usize) -> Result<(Instr, usize), DecodeFault>
    requires { at ≤ length bytes.now }
    // What is read stands there.
    ensures found { IfOk result (λ x. IsNamed x.0 × Begins (spelling x.0) (drop at bytes.now)
        × (x.1 ≡ at + length (spelling x.0))) }
    // The place after it is further on, and within the bytes.
    ensures next { IfOk result (λ x. (at < x.1) × (x.1 ≤ length bytes.now)) }
    // An instruction that stands there is read.
    ensures only { (i : Instr) → IsNamed i → Begins (spelling i) (drop at bytes.now)
        → result ≡ Ok (i, at + length (spelling i)) }
    // The answer is the first instruction of the bytes from there on.
    ensures computed { Gives (λ x. x.0) result (first_instr (drop at bytes.now)) }
    // A fault that is returned holds there.
    ensures fault { IfErr result (Refuses (drop at bytes.now)) }
    // A fault that holds there is returned.
    ensures exact { (f : DecodeFault) → Refuses (drop at bytes.now) f → result ≡ Err f }
{
    match instr(&bytes[at..]) {
        Ok((instr, rest)) => Ok((instr, bytes.len() - rest.len())),
        Err(fault) => Err(fault),
    }
}
