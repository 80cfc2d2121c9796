//! Writing instructions as bytes.

ghost use Rattle.std.specs.Prelude.{FitsSigned, ◌≡◌, ◌≤◌, ◌+◌, ◌^◌, ◌<◌, [], ◌∷◌, ◌++◌, length, take};
ghost use Rattle.std.specs.Int.{w32, to_le_bytes};
ghost use Rattle.subset_decode.specs.Registers.{IsRegister};
ghost use Rattle.subset_decode.specs.Encoding.{spelling, opcode_of, two_registers, distance, IsNamed};

use crate::code::Code;
use crate::instr::Instr;
use crate::opcodes::{
    ADD, CALL, ESCAPE, JMP, JNZ, LOW_BITS, LOW_MASK, MOV, OUT, POP, PUSH, R8, RET, REX_B,
    REX_R_SHIFT, REX_W, SOURCE_SHIFT, SUB, TWO_REGISTERS,
};
use crate::reg::Reg;
use byteorder::{ByteOrder, LittleEndian};

/// The opcode with the register in its low three bits, after the prefix that r8 to r15 need.
fn push_opcode(code: &mut Code, opcode: u8, reg: Reg)
    requires empty { code.old.len ≡ 0 }
    requires fits { opcode < 249 }
    ensures bytes { take code.new.len code.new.bytes ≡ opcode_of opcode reg }
    ensures len { code.new.len ≡ length (opcode_of opcode reg) }
    ensures short { code.new.len ≤ 2 }
    ensures named { IsRegister reg }
{
    let number = reg.number();
    if number >= R8 {
        code.push_all(&[REX_B]);
    }
    code.push_all(&[opcode + (number & LOW_MASK)]);
}

/// A field of four bytes, lowest byte first.
fn push_field(code: &mut Code, field: u32)
    requires { code.old.len ≤ 2 }
    ensures bytes { take code.new.len code.new.bytes ≡ take code.old.len code.old.bytes
        ++ to_le_bytes w32 field }
    ensures len { code.new.len ≡ code.old.len + 4 }
{
    let mut bytes = [0; 4];
    LittleEndian::write_u32(&mut bytes, field);
    code.push_all(&bytes);
}

/// The distance of a jump, in two's complement.
fn push_distance(code: &mut Code, rel: i32)
    requires { code.old.len ≤ 2 }
    ensures bytes { take code.new.len code.new.bytes ≡ take code.old.len code.old.bytes ++ distance rel }
    ensures len { code.new.len ≡ code.old.len + 4 }
    ensures fits { FitsSigned w32 rel }
{
    push_field(code, rel.cast_unsigned());
}

/// An opcode on two registers, after the prefix with the high bits of their numbers.
fn push_two_registers(code: &mut Code, opcode: u8, dst: Reg, src: Reg)
    requires { code.old.len ≡ 0 }
    ensures bytes { take code.new.len code.new.bytes ≡ two_registers opcode dst src }
    ensures len { code.new.len ≡ 3 }
    ensures named { IsRegister dst × IsRegister src }
{
    let (dst, src) = (dst.number(), src.number());
    let prefix = REX_W | ((src >> LOW_BITS) << REX_R_SHIFT | dst >> LOW_BITS);
    let registers = TWO_REGISTERS | ((src & LOW_MASK) << SOURCE_SHIFT | dst & LOW_MASK);
    code.push_all(&[prefix, opcode, registers]);
}

/// A port's number.
fn push_port(code: &mut Code, port: u8)
    requires { code.old.len ≤ 5 }
    ensures bytes { take code.new.len code.new.bytes ≡ take code.old.len code.old.bytes
        ++ port ∷ [] }
    ensures len { code.new.len ≡ code.old.len + 1 }
    ensures fits { port < 2 ^ 8 }
{
    code.push_all(&[port]);
}

/// The one encoding of the instruction (Intel SDM, volume 2).
pub fn encode(instr: &Instr) -> Code
    ensures spelled { take result.len result.bytes ≡ spelling instr.now }
    ensures len { result.len ≡ length (spelling instr.now) }
    ensures named { IsNamed instr.now }
{
    let mut code = Code::empty();
    match *instr {
        Instr::Mov { dst, imm } => {
            push_opcode(&mut code, MOV, dst);
            push_field(&mut code, imm);
        }
        Instr::Add { dst, src } => push_two_registers(&mut code, ADD, dst, src),
        Instr::Sub { dst, src } => push_two_registers(&mut code, SUB, dst, src),
        Instr::Push { reg } => push_opcode(&mut code, PUSH, reg),
        Instr::Pop { reg } => push_opcode(&mut code, POP, reg),
        Instr::Call { rel } => {
            code.push_all(&[CALL]);
            push_distance(&mut code, rel);
        }
        Instr::Jmp { rel } => {
            code.push_all(&[JMP]);
            push_distance(&mut code, rel);
        }
        Instr::Jnz { rel } => {
            code.push_all(&[ESCAPE, JNZ]);
            push_distance(&mut code, rel);
        }
        Instr::Ret => code.push_all(&[RET]),
        Instr::Out { port } => {
            code.push_all(&[OUT]);
            push_port(&mut code, port);
        }
    }
    code
}
