//! One unit of a code, as its bytes say.

ghost use Rattle.std.specs.Prelude.{◌≡◌, ◌<◌, ◌^◌, ◌↔◌, ℕ, List, ◌++◌, length, drop, MatchOption, IfSome, IsSome, IsTrue, IfOk, IfErr, OnErr};
ghost use Rattle.subset_decode.specs.Encoding.{Begins};
ghost use Rattle.xray_image.specs.Units.{Piece, piece_bytes, nop_bytes, what_of, sleds_in, IsPiece};
ghost use Rattle.xray_image.specs.private.SledPieces.{IsSled};
ghost use Rattle.xray_image.specs.Table.{BeginsAsSled, StandsAt};
ghost use Rattle.xray_image.specs.private.{UnitTable.{what_at}, Views.{piece_of, IsNoUnit}};

use crate::fields::u32_at;
use crate::format::{ALIGNMENT, JUMP_HEAD, NOP, RETURN_HEAD, SLED_LENGTH};
use crate::unit::What;
use subset_decode::{DecodeFault, Instr, decode};

/// The byte that begins an entry or tail sled, and no instruction.
const JUMP: [u8; 1] = [JUMP_HEAD[0]];

/// The length of the nop's displacement in bytes.
const SHIFT_LENGTH: usize = 4;

/// A unit as its bytes say.
#[derive(Clone, Copy)]
pub(crate) enum RawUnit {
    /// An instruction.
    Instruction(Instr),
    /// An entry or tail sled, with the displacement of its nop.
    JumpSled(u32),
    /// An exit sled, with the displacement of its nop.
    ReturnSled(u32),
    /// The alignment byte.
    Align,
}

impl RawUnit {
    /// How many sleds it is, 0 or 1.
    pub(crate) fn sleds(&self) -> u32
        ensures { result ≡ sleds_in (piece_of self.now) }
    {
        match *self {
            RawUnit::Instruction(_) | RawUnit::Align => 0,
            RawUnit::JumpSled(_) | RawUnit::ReturnSled(_) => 1,
        }
    }
}

/// Why no unit stands at an address.
#[derive(Clone, Copy)]
pub(crate) enum NoUnit {
    /// The bytes there begin as a sled, but aren't a whole one or have an odd address.
    Sled,
    /// The bytes there are no instruction.
    Code(DecodeFault),
}

/// The bytes after a prefix, if the bytes begin with it.
fn following<'a>(bytes: &'a [u8], front: &[u8]) -> Option<&'a [u8]>
    ensures { MatchOption result ((rest : List ℕ) → bytes.now ≡ front.now ++ rest → ⊥)
        (λ rest. bytes.now ≡ front.now ++ rest.now) }
{
    bytes.strip_prefix(front)
}

/// The displacement of the nop that the bytes begin with.
fn nop_shift(bytes: &[u8]) -> Option<u32>
    ensures found { IfSome result (λ shift. (shift < 2 ^ 32) × Begins (nop_bytes shift) bytes.now) }
    ensures only { (shift : ℕ) → Begins (nop_bytes shift) bytes.now → IsSome result }
{
    let field = following(bytes, &NOP)?;
    if field.len() < SHIFT_LENGTH {
        return None;
    }
    Some(u32_at(field, 0))
}

/// Whether the bytes begin as a sled does. A ret before a byte 2E begins so too, and is taken for a
/// sled.
fn begins_as_sled(bytes: &[u8]) -> bool
    ensures { IsTrue result ↔ BeginsAsSled bytes.now }
{
    following(bytes, &JUMP).is_some() || following(bytes, &RETURN_HEAD).is_some()
}

/// The sled that the bytes begin with, if they do.
fn whole_sled(bytes: &[u8]) -> Option<RawUnit>
    ensures found { IfSome result (λ raw. IsSled (piece_of raw) × IsPiece (piece_of raw)
        × Begins (piece_bytes (piece_of raw)) bytes.now) }
    ensures only { (piece : Piece) → IsSled piece → Begins (piece_bytes piece) bytes.now → IsSome result }
{
    if let Some(nop) = following(bytes, &JUMP_HEAD) {
        let shift = nop_shift(nop)?;
        return Some(RawUnit::JumpSled(shift));
    }
    let nop = following(bytes, &RETURN_HEAD)?;
    let shift = nop_shift(nop)?;
    Some(RawUnit::ReturnSled(shift))
}

/// The unit at an address, where these bytes begin, and its length.
pub(crate) fn read_unit(address: u64, bytes: &[u8]) -> Result<(RawUnit, usize), NoUnit>
    requires { 0 < length bytes.now }
    ensures found { IfOk result (λ x. StandsAt address bytes.now (piece_of x.0) (drop x.1 bytes.now)) }
    ensures length { IfOk result (λ x. x.1 ≡ length (piece_bytes (piece_of x.0))) }
    // With this many sleds before it, it is what `what_stands` gives.
    ensures what { IfOk result (λ x. (sleds : ℕ)
        → what_at sleds bytes.now ≡ what_of sleds (piece_of x.0)) }
    ensures none { OnErr result ((piece : Piece) (rest : List ℕ)
        → StandsAt address bytes.now piece rest → ⊥) }
    ensures why { IfErr result (IsNoUnit bytes.now) }
{
    if bytes[0] == ALIGNMENT {
        return Ok((RawUnit::Align, 1));
    }
    if begins_as_sled(bytes) {
        let Some(sled) = whole_sled(bytes) else {
            return Err(NoUnit::Sled);
        };
        if !address.is_multiple_of(2) {
            return Err(NoUnit::Sled);
        }
        return Ok((sled, SLED_LENGTH));
    }
    match decode(bytes, 0) {
        Ok((instr, length)) => Ok((RawUnit::Instruction(instr), length)),
        Err(fault) => Err(NoUnit::Code(fault)),
    }
}

/// What the unit is that these bytes begin with. They have to begin with one: the nop of a sled and
/// its address aren't looked at. What is neither a sled nor an instruction is the alignment byte.
pub(crate) fn what_stands(bytes: &[u8], sleds: u32) -> What
    ensures { result ≡ what_at sleds bytes.now }
{
    if begins_as_sled(bytes) {
        return What::Sled(sleds);
    }
    match decode(bytes, 0) {
        Ok((instr, _)) => What::Plain(instr),
        Err(_) => What::Pad,
    }
}
