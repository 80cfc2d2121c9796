//! Bytes from a place on, and numbers, lowest byte first.

ghost use Rattle.std.specs.Prelude.{◌≡◌, ◌≤◌, ◌+◌, drop, length};
ghost use Rattle.elf_file.specs.Numbers.{number_at};

use byteorder::{ByteOrder, LittleEndian};

/// The bytes from a place on, of which there are none from the end on.
#[tactic(auto, using(std::proofs::lemmas::List::take_rest))]
pub(crate) fn from_place(bytes: &[u8], place: usize) -> &[u8]
    ensures { result.now ≡ drop place bytes.now }
{
    let place = place.min(bytes.len());
    &bytes[place..]
}

/// The byte at a place.
pub(crate) fn u8_at(bytes: &[u8], place: usize) -> u8
    requires { place + 1 ≤ length bytes.now }
    ensures { result ≡ number_at 1 bytes.now place }
{
    bytes[place]
}

/// The number in the two bytes at a place.
#[tactic(auto, using(std::proofs::lemmas::List::take_rest))]
pub(crate) fn u16_at(bytes: &[u8], place: usize) -> u16
    requires { place + 2 ≤ length bytes.now }
    ensures { result ≡ number_at 2 bytes.now place }
{
    LittleEndian::read_u16(&bytes[place..])
}

/// The number in the four bytes at a place.
#[tactic(auto, using(std::proofs::lemmas::List::take_rest))]
pub fn u32_at(bytes: &[u8], place: usize) -> u32
    requires { place + 4 ≤ length bytes.now }
    ensures { result ≡ number_at 4 bytes.now place }
{
    LittleEndian::read_u32(&bytes[place..])
}

/// The number in the eight bytes at a place.
#[tactic(auto, using(std::proofs::lemmas::List::take_rest))]
pub fn u64_at(bytes: &[u8], place: usize) -> u64
    requires { place + 8 ≤ length bytes.now }
    ensures { result ≡ number_at 8 bytes.now place }
{
    LittleEndian::read_u64(&bytes[place..])
}
