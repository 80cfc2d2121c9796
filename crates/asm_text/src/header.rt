//! The header of the image file.

ghost use Rattle.std.specs.{Prelude.{◌≡◌, ◌≤◌, ◌++◌, OnOk, codes}, List.{flat_map}};
ghost use Rattle.byteorder.specs.Endian.{little_bytes};
ghost use Rattle.asm_text.specs.Writing.{image_header, trampolines_of};

use crate::fields::{push_u32, push_u32s, push_u64, push_u64s};
use std::alloc::AllocError;
use xray_image::format::{BASE_LIMIT, MAGIC, VERSION};

/// The distance of the entry trampoline from the base.
const ENTRY_TRAMPOLINE: u64 = 0x20_0000;

/// The distance of the exit trampoline from the base.
const EXIT_TRAMPOLINE: u64 = 0x20_0010;

/// The distance of the tail trampoline from the base.
const TAIL_TRAMPOLINE: u64 = 0x20_0020;

/// The distance of the argument trampoline from the base.
const ARGUMENT_TRAMPOLINE: u64 = 0x20_0030;

/// What the header counts.
#[derive(Clone, Copy)]
pub(crate) struct Header {
    /// The address of the code's first byte.
    pub(crate) base: u64,
    /// The length of the code in bytes.
    pub(crate) code: u32,
    /// How many functions there are.
    pub(crate) functions: u32,
    /// How many entries the sled map has.
    pub(crate) entries: u32,
    /// The number of the entry function, from 0.
    pub(crate) entry: u32,
}

/// Adds the first fields of the header.
fn push_header_start(out: &mut Vec<u8>, base: u64) -> Result<(), AllocError>
    ensures { OnOk result (out.new.items ≡ out.old.items
        ++ (codes "XRIM" ++ little_bytes 4 1 ++ little_bytes 8 base)) }
{
    out.extend_from_slice(&MAGIC)?;
    push_u32(out, VERSION)?;
    push_u64(out, base)
}

/// Adds the counts.
fn push_counts(out: &mut Vec<u8>, header: &Header) -> Result<(), AllocError>
    ensures { OnOk result (out.new.items ≡ out.old.items
        ++ (little_bytes 4 header.now.code ++ little_bytes 4 header.now.functions
        ++ little_bytes 4 header.now.entries ++ little_bytes 4 header.now.entry)) }
{
    push_u32s(
        out,
        &[header.code, header.functions, header.entries, header.entry],
    )
}

/// Adds the trampolines' addresses.
fn push_trampolines(out: &mut Vec<u8>, base: u64) -> Result<(), AllocError>
    requires { base ≤ BASE_LIMIT }
    ensures { OnOk result (out.new.items ≡ out.old.items
        ++ flat_map (little_bytes 8) (trampolines_of base)) }
{
    push_u64s(
        out,
        &[
            base + ENTRY_TRAMPOLINE,
            base + EXIT_TRAMPOLINE,
            base + TAIL_TRAMPOLINE,
            base + ARGUMENT_TRAMPOLINE,
        ],
    )
}

/// Adds the header of 64 bytes.
pub(crate) fn push_header(out: &mut Vec<u8>, header: &Header) -> Result<(), AllocError>
    requires { header.now.base ≤ BASE_LIMIT }
    ensures { OnOk result (out.new.items ≡ out.old.items
        ++ image_header header.now.base header.now.code header.now.functions header.now.entries
        header.now.entry) }
{
    push_header_start(out, header.base)?;
    push_counts(out, header)?;
    push_trampolines(out, header.base)
}
