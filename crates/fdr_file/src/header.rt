//! The header of a trace file.

ghost use Rattle.std.specs.Prelude.{◌≡◌, ◌≤◌, ◌+◌, length, drop};
ghost use Rattle.byteorder.specs.Endian.{little_number};
ghost use Rattle.fdr_file.specs.Scanning.{header_on};
ghost use Rattle.fdr_file.specs.Traces.{header_in};

use crate::{TraceFault, Version};
use byteorder::{ByteOrder, LittleEndian};

/// The length of a header in bytes.
pub const HEADER_BYTES: usize = 32;

/// The type of files of the Flight Data Recorder mode.
pub(crate) const FDR: u16 = 1;

/// The place of the version in a header.
const VERSION_AT: usize = 0;

/// The place of the file's type.
const TYPE_AT: usize = 2;

/// The place of the flags.
const FLAGS_AT: usize = 4;

/// The place of the counter's frequency.
const FREQUENCY_AT: usize = 8;

/// The place of the size of a buffer. Bytes from 24 on are reserved.
const SIZE_AT: usize = 16;

/// The flag that the counter runs at a constant frequency. Flags are bits of their number.
pub const CONSTANT: u32 = 1;

/// The flag that the counter goes on while the processor sleeps.
pub const NONSTOP: u32 = 2;

/// The reserved bytes, as they are written.
pub(crate) const RESERVED: [u8; 8] = [0; 8];

/// What a trace file says about itself (LLVM's `XRayFileHeader`).
#[derive(Clone, Copy, Debug, PartialEq, Eq)]
pub struct Header {
    /// The version of the format. It is 2 or 3 in each file that is read, and 3 in each that is
    /// written.
    pub version: u16,
    /// Whether the counter runs at a constant frequency.
    pub constant: bool,
    /// Whether the counter goes on while the processor sleeps.
    pub nonstop: bool,
    /// The counter's frequency, in cycles per second, or 0 if it isn't known.
    pub frequency: u64,
    /// The size of a buffer, in bytes. Reading doesn't check the blocks against it.
    pub size: u64,
}

/// The number in the two bytes at a place, lowest byte first.
fn u16_at(bytes: &[u8], at: usize) -> u16
    requires { at + 2 ≤ length bytes.now }
    ensures { result ≡ little_number 2 (drop at bytes.now) }
{
    LittleEndian::read_u16(bytes.split_at(at).1)
}

/// The number in the four bytes at a place, lowest byte first.
fn u32_at(bytes: &[u8], at: usize) -> u32
    requires { at + 4 ≤ length bytes.now }
    ensures { result ≡ little_number 4 (drop at bytes.now) }
{
    LittleEndian::read_u32(bytes.split_at(at).1)
}

/// The number in the eight bytes at a place, lowest byte first.
fn u64_at(bytes: &[u8], at: usize) -> u64
    requires { at + 8 ≤ length bytes.now }
    ensures { result ≡ little_number 8 (drop at bytes.now) }
{
    LittleEndian::read_u64(bytes.split_at(at).1)
}

/// What a header says about its file. Whether the version and the type are those of a trace isn't
/// looked at.
#[tactic(auto, using(crate::proofs::Flags::first_flag, crate::proofs::Flags::second_flag))]
pub fn header_fields(bytes: &[u8]) -> Header
    requires { 32 ≤ length bytes.now }
    ensures { result ≡ header_in bytes.now }
{
    let flags = u32_at(bytes, FLAGS_AT);
    Header {
        version: u16_at(bytes, VERSION_AT),
        constant: flags & CONSTANT != 0,
        nonstop: flags & NONSTOP != 0,
        frequency: u64_at(bytes, FREQUENCY_AT),
        size: u64_at(bytes, SIZE_AT),
    }
}

/// The version of a file and its header, or the first fault of the header.
pub(crate) fn read_header(bytes: &[u8]) -> Result<(Version, Header), TraceFault>
    ensures { result ≡ header_on bytes.now }
{
    if bytes.len() < HEADER_BYTES {
        return Err(TraceFault::Short(0));
    }
    let number = u16_at(bytes, VERSION_AT);
    let Some(version) = Version::of(number) else {
        return Err(TraceFault::Version(number));
    };
    let form = u16_at(bytes, TYPE_AT);
    if form != FDR {
        return Err(TraceFault::Form(form));
    }
    Ok((version, header_fields(bytes)))
}
