//! Calls of `subset_decode`: encodings by the GNU assembler 2.40, the bytes at which each fault is
//! decided, and all starts of two bytes.

mod two_byte_starts;

use crate::checks::{check_same, check_same_at, check_same_list};
use std::process::Abort;
use std::test::*;
use subset_decode::*;
use two_byte_starts::{RUNS, Start};

/// The register with this number, which can be named.
fn reg(number: u8) -> Result<Reg, Fail> {
    Ok(Reg::new(number).ok_or("the register has a name")?)
}

/// Checks that an instruction has this encoding, and the encoding this instruction.
fn check_encoding(rt: &impl Abort, instr: Instr, code: &[u8]) {
    check_same_list(rt, encode(&instr).as_slice(), code);
    check_same(rt, &decode(code, 0), &Ok((instr, code.len())));
}

/// Instructions without registers, and their encodings.
const WITHOUT_REGISTERS: [(Instr, &[u8]); 7] = [
    (Instr::Call { rel: 0x1234_5678 }, b"\xE8\x78\x56\x34\x12"),
    (Instr::Call { rel: -16 }, b"\xE8\xF0\xFF\xFF\xFF"),
    (Instr::Jmp { rel: i32::MAX }, b"\xE9\xFF\xFF\xFF\x7F"),
    (Instr::Jnz { rel: 259 }, b"\x0F\x85\x03\x01\0\0"),
    (Instr::Jnz { rel: -253 }, b"\x0F\x85\x03\xFF\xFF\xFF"),
    (Instr::Ret, b"\xC3"),
    (Instr::Out { port: 255 }, b"\xE6\xFF"),
];

#[test]
fn encodings_are_the_assemblers(rt: HostRuntime) -> Result<(), Fail> {
    let (rax, rcx, rbx, rdi) = (reg(0)?, reg(1)?, reg(3)?, reg(7)?);
    let (r8, r9, r11, r12, r15) = (reg(8)?, reg(9)?, reg(11)?, reg(12)?, reg(15)?);
    check_same(&rt, &r15.number(), &15);
    for (dst, imm, code) in [
        (rax, 65, b"\xB8\x41\0\0\0".as_slice()),
        (r9, 0x1234_5678, b"\x41\xB9\x78\x56\x34\x12".as_slice()),
    ] {
        check_encoding(&rt, Instr::Mov { dst, imm }, code);
    }
    for (dst, src, code) in [
        (rax, rcx, b"\x48\x01\xC8"),
        (rbx, r15, b"\x4C\x01\xFB"),
        (r9, rdi, b"\x49\x01\xF9"),
        (r8, r11, b"\x4D\x01\xD8"),
    ] {
        check_encoding(&rt, Instr::Add { dst, src }, code);
    }
    let sub = Instr::Sub { dst: rcx, src: r12 };
    check_encoding(&rt, sub, b"\x4C\x29\xE1");
    check_encoding(&rt, Instr::Push { reg: rbx }, b"\x53");
    check_encoding(&rt, Instr::Push { reg: r12 }, b"\x41\x54");
    check_encoding(&rt, Instr::Pop { reg: rdi }, b"\x5F");
    check_encoding(&rt, Instr::Pop { reg: r8 }, b"\x41\x58");
    for (instr, code) in &WITHOUT_REGISTERS {
        check_encoding(&rt, *instr, code);
    }
    Ok(())
}

/// Bytes that are too few.
const SHORT: [&[u8]; 4] = [b"", b"\x41", b"\x0F\x85\0\0\0", b"\x41\xB8\0\0\0"];

/// Bytes that no encoding begins with, and the one at which that is decided.
const UNKNOWN: [(&[u8], u8); 3] = [
    (b"\x0F\x84", 132),
    (b"\x4A\x01\xC0", 74),
    (b"\x48\x01\x05", 5),
];

/// Bytes that name a register which can't be named, and its number.
const UNNAMED: [(&[u8], u8); 7] = [
    (b"\x48\x01\xC4", 4),
    (b"\x49\x01\xD2", 10),
    (b"\x49\x01\xE2", 10),
    (b"\x4C\x29\xD4", 4),
    (b"\xBC", 4),
    (b"\x54", 4),
    (b"\x41\xBA", 10),
];

#[test]
fn the_shortest_prefix_that_decides_gives_the_fault(rt: HostRuntime) {
    for bytes in &SHORT {
        check_same_at(&rt, &decode(bytes, 0), &Err(DecodeFault::Short), bytes);
    }
    for (bytes, byte) in &UNKNOWN {
        let fault = DecodeFault::Unknown(*byte);
        check_same_at(&rt, &decode(bytes, 0), &Err(fault), bytes);
    }
    for (bytes, number) in &UNNAMED {
        let fault = DecodeFault::Register(*number);
        check_same_at(&rt, &decode(bytes, 0), &Err(fault), bytes);
    }
}

#[test]
fn every_start_of_two_bytes_is_decoded_as_the_table_says(rt: HostRuntime) {
    for start in 0..=u16::MAX {
        let [first, second] = start.to_be_bytes();
        let wanted = match RUNS.iter().find(|run| start <= run.0).map(|run| run.1) {
            Some(Start::First) => Err(DecodeFault::Unknown(first)),
            Some(Start::Second) => Err(DecodeFault::Unknown(second)),
            Some(Start::Rsp) => Err(DecodeFault::Register(4)),
            Some(Start::R10) => Err(DecodeFault::Register(10)),
            Some(Start::One) => Ok(1),
            Some(Start::Two) => Ok(2),
            Some(Start::Short) | None => Err(DecodeFault::Short),
        };
        check_same_at(
            &rt,
            &decode(&[first, second], 0).map(|found| found.1),
            &wanted,
            &start,
        );
    }
}
