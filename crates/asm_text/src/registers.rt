//! The registers, as a text names them.

ghost use Rattle.std.specs.Prelude.{◌≡◌, ◌<◌, true, false, map, slice_index_or, IfSome, MatchOption};
ghost use Rattle.subset_decode.specs.Registers.{IsRegister};
ghost use Rattle.asm_text.specs.Registers.{number_in, register32, register64, reserved};
ghost use Rattle.asm_text.specs.private.RegisterNames.{number_by, are_told};

use std::marker::Model;
use subset_decode::Reg;

/// A register that a text names, by its number. It may be one that instructions can't name.
#[derive(Clone, Copy)]
pub(crate) struct RegisterWord(u8);

impl Model for RegisterWord {
    ghost use Rattle.std.specs.Prelude.{ℕ, ◌<◌};

    ghost Value = { ℕ };

    ghost view = { λ r. r.0 };

    ghost invariant = { λ r. r.0 < 16 };

    ghost inverse = { λ n. record { 0 = n } };
}

impl RegisterWord {
    ghost use Rattle.subset_decode.specs.Registers.{is_reserved};
    ghost use Rattle.asm_text.specs.private.Views.{register_number};

    /// The register, if instructions can name it.
    pub(crate) fn register(self) -> Option<Register>
        ensures { MatchOption result (is_reserved self ≡ true)
            (λ r. (register_number r ≡ self) × (is_reserved self ≡ false)) }
    {
        match self.0 {
            0 => Some(Register::Rax),
            1 => Some(Register::Rcx),
            2 => Some(Register::Rdx),
            3 => Some(Register::Rbx),
            5 => Some(Register::Rbp),
            6 => Some(Register::Rsi),
            7 => Some(Register::Rdi),
            8 => Some(Register::R8),
            9 => Some(Register::R9),
            11 => Some(Register::R11),
            12 => Some(Register::R12),
            13 => Some(Register::R13),
            14 => Some(Register::R14),
            15 => Some(Register::R15),
            _ => None,
        }
    }
}

/// A register that instructions can name.
#[derive(Clone, Copy)]
pub(crate) enum Register {
    Rax,
    Rcx,
    Rdx,
    Rbx,
    Rbp,
    Rsi,
    Rdi,
    R8,
    R9,
    R11,
    R12,
    R13,
    R14,
    R15,
}

/// The register of this number, which instructions can name.
fn named(number: u8) -> Reg
    requires { IsRegister number }
    ensures { result ≡ number }
{
    match Reg::new(number) {
        Some(reg) => reg,
        None => unreachable!(),
    }
}

impl Register {
    ghost use Rattle.asm_text.specs.private.Views.{register_number};

    /// The register as part of an instruction.
    pub(crate) fn reg(self) -> Reg
        ensures { result ≡ register_number self }
    {
        match self {
            Register::Rax => named(0),
            Register::Rcx => named(1),
            Register::Rdx => named(2),
            Register::Rbx => named(3),
            Register::Rbp => named(5),
            Register::Rsi => named(6),
            Register::Rdi => named(7),
            Register::R8 => named(8),
            Register::R9 => named(9),
            Register::R11 => named(11),
            Register::R12 => named(12),
            Register::R13 => named(13),
            Register::R14 => named(14),
            Register::R15 => named(15),
        }
    }
}

/// The names of the registers' lower halves, by number.
const NAMES32: [&[u8]; 16] = [
    b"eax", b"ecx", b"edx", b"ebx", b"esp", b"ebp", b"esi", b"edi", b"r8d", b"r9d", b"r10d",
    b"r11d", b"r12d", b"r13d", b"r14d", b"r15d",
];

/// The names of the whole registers of 64 bits, by number.
const NAMES64: [&[u8]; 16] = [
    b"rax", b"rcx", b"rdx", b"rbx", b"rsp", b"rbp", b"rsi", b"rdi", b"r8", b"r9", b"r10", b"r11",
    b"r12", b"r13", b"r14", b"r15",
];

/// The byte at a place of a word, or 0 past its end.
fn byte_at(word: &[u8], place: usize) -> u8
    ensures { result ≡ slice_index_or word.now place 0 }
{
    if place < word.len() { word[place] } else { 0 }
}

/// The number of the registers whose names have these bytes after the first, if any have.
fn number_by(second: u8, third: u8) -> u8
    ensures value { result ≡ number_by second third }
    ensures within { result < 16 }
{
    match second {
        b'a' => 0,
        b'c' => 1,
        b'd' => if third == b'x' { 2 } else { 7 },
        b'b' => if third == b'x' { 3 } else { 5 },
        b's' => if third == b'p' { 4 } else { 6 },
        b'8' => 8,
        b'9' => 9,
        _ => match third {
            b'0' => 10,
            b'1' => 11,
            b'2' => 12,
            b'3' => 13,
            b'4' => 14,
            _ => 15,
        },
    }
}

/// The number of the register that has this name in a list of all registers' names. The bytes of
/// the word say which register it can be.
fn number_in(names: &[&[u8]; 16], word: &[u8]) -> Option<u8>
    requires { are_told (map (λ name. name.now) names.now) ≡ true }
    ensures place { result ≡ number_in (map (λ name. name.now) names.now) word.now }
    ensures within { IfSome result (λ n. n < 16) }
{
    let number = number_by(byte_at(word, 1), byte_at(word, 2));
    if names[usize::from(number)] == word {
        Some(number)
    } else {
        None
    }
}

/// A register's number, if instructions can't name it.
fn reserved(number: u8) -> Option<u8>
    requires { number < 16 }
    ensures value { result ≡ reserved number }
    ensures within { IfSome result (λ n. n < 16) }
{
    match Reg::new(number) {
        Some(_) => None,
        None => Some(number),
    }
}

/// The register that a word names as an operand of `mov`. The names of rsp and r10, of either
/// width, are registers here. They are refused later.
pub(crate) fn register32(word: &[u8]) -> Option<RegisterWord>
    ensures { result ≡ register32 word.now }
{
    match number_in(&NAMES32, word) {
        Some(number) => Some(RegisterWord(number)),
        None => Some(RegisterWord(reserved(number_in(&NAMES64, word)?)?)),
    }
}

/// The same for the operands of other instructions.
pub(crate) fn register64(word: &[u8]) -> Option<RegisterWord>
    ensures { result ≡ register64 word.now }
{
    match number_in(&NAMES64, word) {
        Some(number) => Some(RegisterWord(number)),
        None => Some(RegisterWord(reserved(number_in(&NAMES32, word)?)?)),
    }
}
