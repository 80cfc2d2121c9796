//! Fields of the container, lowest byte first.

ghost use Rattle.std.specs.Prelude.{◌≡◌, ◌≤◌, ◌+◌, length};
ghost use Rattle.xray_image.specs.Container.{number4_at, number8_at};

use byteorder::{ByteOrder, LittleEndian};

/// The number in the four bytes at a place.
#[tactic(auto, using(std::proofs::lemmas::List::take_rest))]
pub(crate) fn u32_at(bytes: &[u8], place: usize) -> u32
    requires { place + 4 ≤ length bytes.now }
    ensures { result ≡ number4_at bytes.now place }
{
    LittleEndian::read_u32(&bytes[place..])
}

/// The number in the eight bytes at a place.
#[tactic(auto, using(std::proofs::lemmas::List::take_rest))]
pub(crate) fn u64_at(bytes: &[u8], place: usize) -> u64
    requires { place + 8 ≤ length bytes.now }
    ensures { result ≡ number8_at bytes.now place }
{
    LittleEndian::read_u64(&bytes[place..])
}
