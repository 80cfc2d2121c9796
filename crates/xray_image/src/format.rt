//! What the readers and the writers of image files share: the bytes that begin a file, the places
//! of the header's fields, the limits, and the bytes of sleds. The sleds are those that LLVM's
//! compiler leaves and compiler-rt patches (`xray_x86_64.cpp`).

ghost use Rattle.std.specs.Prelude.{◌≡◌};
ghost use Rattle.xray_image.specs.Program.{is_name_byte};

use subset_decode::opcodes::RET;

/// The first bytes of an image file: `XRIM`.
pub const MAGIC: [u8; 4] = [0x58, 0x52, 0x49, 0x4D];

/// The version of the container.
pub const VERSION: u32 = 1;

/// The length of the header in bytes. The code follows it.
pub const HEADER_LENGTH: usize = 64;

/// The place of the version in the header.
pub const VERSION_AT: usize = 4;

/// The place of the base address in the header.
pub const BASE_AT: usize = 8;

/// The place in the header of the length of the code.
pub const CODE_LENGTH_AT: usize = 16;

/// The place in the header of the number of functions.
pub const FUNCTION_COUNT_AT: usize = 20;

/// The place in the header of the number of the sled map's entries.
pub const ENTRY_COUNT_AT: usize = 24;

/// The place in the header of the number of the entry function.
pub const ENTRY_INDEX_AT: usize = 28;

/// The place in the header of the address of the entry sleds' trampoline.
pub const ENTRY_TRAMPOLINE_AT: usize = 32;

/// The place in the header of the address of the exit sleds' trampoline.
pub const EXIT_TRAMPOLINE_AT: usize = 40;

/// The place in the header of the address of the tail sleds' trampoline.
pub const TAIL_TRAMPOLINE_AT: usize = 48;

/// The place in the header of the address of the trampoline of entry sleds with argument logging.
pub const ARGS_TRAMPOLINE_AT: usize = 56;

/// The length of an entry of the sled map in bytes. The layout is that of `XRaySledEntry` in
/// compiler-rt (`xray_interface_internal.h`). The bytes after the version are padding.
pub const MAP_ENTRY_LENGTH: u64 = 32;

/// The place in a map entry of the field of the function's address. The field of the sled's address
/// is at its start.
pub const FUNCTION_AT: u64 = 8;

/// How far above the base address the first entry of the sled map is.
pub const MAP_DISTANCE: u64 = 0x10_0000;

/// The version of map entries that has absolute addresses, as version 1 has.
pub const ABSOLUTE_MAP_VERSION: u8 = 0;

/// The version of map entries whose addresses count from the fields that hold them.
pub const RELATIVE_MAP_VERSION: u8 = 2;

/// The longest code in bytes.
pub const CODE_LIMIT: u32 = 1_048_576;

/// The most functions.
pub const FUNCTION_LIMIT: u32 = 1024;

/// The most sleds. Each sled has one entry of the sled map.
pub const SLED_LIMIT: u32 = 4096;

/// The base address is a multiple of this. So sleds at even places have even addresses.
pub const BASE_ALIGNMENT: u64 = 16;

/// The highest base address. It keeps all code in the lower half of the address space.
pub const BASE_LIMIT: u64 = 0x7FFF_0000_0000;

/// The longest name of a function in bytes. A function entry keeps the length in one byte.
pub const NAME_LIMIT: usize = 255;

/// The length of a sled in bytes: a short jump of two and a nop of nine, or a ret and a nop of ten.
pub const SLED_LENGTH: usize = 11;

/// The head of an entry or tail sled: a short jump over the sled's other nine bytes (`Jmp9Seq` of
/// `xray_x86_64.cpp`).
pub const JUMP_HEAD: [u8; 2] = [0xEB, 0x09];

/// The head of an exit sled: ret, and 2E, the CS prefix that begins its nop of ten bytes (Intel
/// SDM, volume 2, section 2.1.1).
pub const RETURN_HEAD: [u8; 2] = [RET, 0x2E];

/// The nop that fills a sled, up to its displacement of four bytes: `nopw disp32(rax, rax)` (Intel
/// SDM, volume 2, `NOP`).
pub const NOP: [u8; 5] = [0x66, 0x0F, 0x1F, 0x84, 0x00];

/// The byte before a sled that would otherwise be at an odd place: `nop`.
pub const ALIGNMENT: u8 = 0x90;

/// Whether a byte may stand in a name: a letter, a digit, or one of `_`, `.` and `$`.
pub fn is_name_byte(byte: u8) -> bool
    ensures { result ≡ is_name_byte byte }
{
    byte.is_ascii_alphanumeric() || matches!(byte, b'_' | b'.' | b'$')
}
