//! The bytes of the code while its sleds change.

ghost use Rattle.std.specs.Prelude.{◌≡◌, ◌<◌, ◌≤◌, ◌+◌, ◌*◌, ◌^◌, ◌++◌, length, IfOk, OnOk};
ghost use Rattle.sled_words.specs.CodeBytes.{code_bytes as bytes_of_code, part_bytes, part_size, sled_bytes, unit_bytes};
ghost use Rattle.sled_words.specs.private.UnitWords.{HasWords};

use crate::Part;
use crate::layout::word_of;
use std::alloc::{AllocError, Global};
use subset_decode::encode;
use xray_image::format::ALIGNMENT;
use xray_image::{Image, What};
use xray_io::NoMemory;

/// The bytes of the code, with those of each sled taken from its words: the code that a processor
/// would execute if it read these values. A word gives its low bytes, as many as its part has: two
/// of a head, four of an id, one of an opcode and four of an offset, in little-endian order.
///
/// `words` holds the words of the sleds, and may hold more after them. `NoMemory` means that an
/// allocation was refused.
pub fn code_bytes(alloc: Global, image: &Image, words: &[u64]) -> Result<Vec<u8>, NoMemory>
    requires { 4 * length image.now.sleds ≤ length words.now }
    ensures { IfOk result (λ bytes. bytes.items ≡ bytes_of_code image.now words.now) }
{
    let mut bytes = Vec::with_capacity(alloc, image.code().len())?;
    image.sleds_stand_in_units();
    for i in 0..image.unit_count() {
        push_unit(&mut bytes, image.unit(i).what, words)?;
    }
    Ok(bytes)
}

/// Appends the bytes of a unit.
fn push_unit(bytes: &mut Vec<u8>, what: What, words: &[u64]) -> Result<(), AllocError>
    requires { HasWords words.now what }
    ensures { OnOk result (bytes.new.items ≡ bytes.old.items ++ unit_bytes words.now what) }
{
    match what {
        What::Plain(instr) => bytes.extend_from_slice(encode(&instr).as_slice()),
        What::Sled(sled) => push_sled(bytes, sled, words),
        What::Pad => bytes.extend_from_slice(&[ALIGNMENT]),
    }
}

/// Appends the bytes of a sled, part by part.
fn push_sled(bytes: &mut Vec<u8>, sled: u32, words: &[u64]) -> Result<(), AllocError>
    requires few { sled < 2 ^ 30 }
    requires words { 4 * sled + 3 < length words.now }
    ensures { OnOk result (bytes.new.items ≡ bytes.old.items ++ sled_bytes words.now sled) }
{
    push_part(bytes, sled, Part::Head, words)?;
    push_part(bytes, sled, Part::Id, words)?;
    push_part(bytes, sled, Part::Opcode, words)?;
    push_part(bytes, sled, Part::Offset, words)?;
    Ok(())
}

/// Appends the bytes of a part of a sled: the low bytes of its word.
fn push_part(bytes: &mut Vec<u8>, sled: u32, part: Part, words: &[u64]) -> Result<(), AllocError>
    requires few { sled < 2 ^ 30 }
    requires words { 4 * sled + 3 < length words.now }
    ensures { OnOk result (bytes.new.items ≡ bytes.old.items ++ part_bytes words.now sled part) }
{
    let value = words[word_of(sled, part) as usize];
    bytes.extend_from_slice(&value.to_le_bytes()[..part_size(part)])?;
    Ok(())
}

/// How many bytes of a sled a part has.
fn part_size(part: Part) -> usize
    ensures size { result ≡ part_size part }
    ensures few { result ≤ 4 }
{
    match part {
        Part::Head => 2,
        Part::Id | Part::Offset => 4,
        Part::Opcode => 1,
    }
}
