//! Calls of `program_map`.

ghost use Rattle.std.specs.Prelude.{◌<◌, ◌^◌, length};

use elf_file::ElfFault;
use program_map::{ProgramFault, read_program};
use std::alloc::Global;
use std::test::Fail;
use test_helpers::programs::{FACTS, MAP, PROGRAM};
use xray_io::{MemSink, write_text};

#[test]
fn a_program_has_a_map(rt: HostRuntime) -> Result<(), Fail> {
    let map = read_program(rt.alloc(), PROGRAM)?;
    let mut out = MemSink::new(rt.alloc(), Vec::new(rt.alloc()));
    assert!(rt; write_text(&map, &mut out).is_ok());
    assert!(rt; out.bytes() == MAP);
    let mut facts = MemSink::new(rt.alloc(), Vec::new(rt.alloc()));
    assert!(rt; write_text(&map.facts(), &mut facts).is_ok());
    assert!(rt; facts.bytes() == FACTS.as_bytes());
    Ok(())
}

/// The refusal of a file, or `None` if it has a map.
fn refused(alloc: Global, file: &[u8]) -> Option<ProgramFault>
    requires { length file.now < 2 ^ 36 }
{
    match read_program(alloc, file) {
        Ok(_) => None,
        Err(fault) => Some(fault),
    }
}

#[test]
fn a_file_that_is_cut_short_is_refused(rt: HostRuntime) -> Result<(), Fail> {
    let alloc = rt.alloc();
    assert!(rt; refused(alloc, b"#!/bin/sh\n") == Some(ProgramFault::Elf(ElfFault::Magic)));
    assert!(rt; refused(alloc, &PROGRAM[..63]) == Some(ProgramFault::Elf(ElfFault::Header(0))));
    assert!(rt;
        refused(alloc, &PROGRAM[..PROGRAM.len() - 1])
            == Some(ProgramFault::Elf(ElfFault::Header(40)))
    );
    Ok(())
}
