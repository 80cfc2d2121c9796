//! The values of the parts of a sled, unpatched and patched.

ghost use Rattle.std.specs.Prelude.{◌≡◌, ◌<◌, ◌+◌, length, slice_get, Some};
ghost use Rattle.sled_words.specs.Parts.{displacement, part_value, patched, unpatched};
ghost use Rattle.xray_image.specs.declared.sled.Sled.{Sled};

use crate::Part;
use subset_decode::opcodes::{CALL, JMP};
use xray_image::format::{self, SLED_LENGTH};
use xray_image::{Image, Sled, SledKind};

/// The head of an entry or tail sled in the file: EB 09, a jump over the nop of nine bytes after it
/// (`Jmp9Seq` of `xray_x86_64.cpp`).
pub const JUMP_HEAD: u64 = format::JUMP_HEAD[0] as u64 | (format::JUMP_HEAD[1] as u64) << 8;

/// The head of an exit sled in the file: C3, which is `ret`, and 2E, the first byte of the nop of
/// ten bytes after it.
pub const RETURN_HEAD: u64 = format::RETURN_HEAD[0] as u64 | (format::RETURN_HEAD[1] as u64) << 8;

/// The head of a patched sled: 41 BA, the first bytes of `mov r10d, imm32` (`MovR10Seq` of
/// `xray_x86_64.cpp`). The function id after it is the immediate.
pub const PATCHED_HEAD: u64 = 0xBA41;

/// 66 0F 1F 84, the first bytes of the nop after an unpatched sled's head: `nopw disp32(rax, rax)`
/// (Intel SDM vol. 2B).
const NOP: u64 = format::NOP[0] as u64
    | (format::NOP[1] as u64) << 8
    | (format::NOP[2] as u64) << 16
    | (format::NOP[3] as u64) << 24;

/// 00, the byte between the nop's first four bytes and its displacement: the SIB byte of (rax,
/// rax).
const NOP_SIB: u64 = format::NOP[4] as u64;

/// The value of a part of a sled, as the image file has it or as patching stores it.
///
/// A patched sled is `mov r10d, id`, and then a call of the trampoline of its kind. In an exit sled
/// it is a jump. The offset counts from the sled's end. The value has the part's size: 2 bytes for
/// a head, 4 for an id, 1 for an opcode and 4 for an offset, in little-endian order.
pub fn part_value(image: &Image, sled: u32, part: Part, patched: bool) -> u64
    requires { sled < length image.now.sleds }
    ensures { (s : Sled) → slice_get image.now.sleds sled ≡ Some s
        → result ≡ part_value image.now.trampolines s part patched }
{
    let described = image.sled(sled);
    if patched {
        patched_value(image, described, part)
    } else {
        unpatched_value(described, part)
    }
}

/// The value of a part of an unpatched sled, as the image file has it.
pub(crate) fn unpatched_value(sled: Sled, part: Part) -> u64
    ensures { result ≡ unpatched sled part }
{
    match part {
        Part::Head => match sled.kind {
            SledKind::Entry | SledKind::Tail | SledKind::Args => JUMP_HEAD,
            SledKind::Exit => RETURN_HEAD,
        },
        Part::Id => NOP,
        Part::Opcode => NOP_SIB,
        Part::Offset => u64::from(sled.shift),
    }
}

/// The value of a part of a patched sled.
fn patched_value(image: &Image, sled: Sled, part: Part) -> u64
    ensures { result ≡ patched image.now.trampolines sled part }
{
    match part {
        Part::Head => PATCHED_HEAD,
        Part::Id => u64::from(sled.id),
        // `CallOpCode` and `JmpOpCode` of `xray_x86_64.cpp`.
        Part::Opcode => match sled.kind {
            SledKind::Entry | SledKind::Tail | SledKind::Args => u64::from(CALL),
            SledKind::Exit => u64::from(JMP),
        },
        Part::Offset => distance(sled.address, image.trampoline(sled.kind)),
    }
}

/// The displacement of a call or jump that ends a sled: from the sled's end to the target, in 32
/// bits.
fn distance(sled_address: u64, target: u64) -> u64
    ensures { result ≡ displacement (sled_address + SLED_LENGTH) target }
{
    target.wrapping_sub(sled_address.wrapping_add(SLED_LENGTH as u64)) & u64::from(u32::MAX)
}
