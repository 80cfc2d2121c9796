//! The sleds that commands patch, and what patching stores in them.

ghost use Rattle.std.specs.Prelude.{◌≡◌, ◌<◌, ◌≤◌, ◌^◌, ◌-◌, length, map, IfOk, slice_get, Some};
ghost use Rattle.std.specs.List.Sorted.{IsNonDecreasingBy};
ghost use Rattle.xray_image.specs.declared.sled.Sled.{Sled};
ghost use Rattle.xray_image.specs.Limits.{most_sleds};
ghost use Rattle.patch_script.specs.Micros.{head_left};
ghost use Rattle.patch_script.specs.private.Sleds.{values_of};

use sled_words::{JUMP_HEAD, PATCHED_HEAD, Part, RETURN_HEAD, part_value};
use std::alloc::{AllocError, Global};
use xray_image::{Image, SledKind};

/// The head that unpatching leaves in an exit sled that was patched: C3 BA. compiler-rt writes back
/// only the first byte, C3, which is `ret`. BA is the second byte of the patched head, 41 BA.
const RETURN_OVER_PATCH: u64 = PATCHED_HEAD & 0xFF00 | RETURN_HEAD & 0xFF;

/// What the patcher has to know of a sled.
#[derive(Clone, Copy)]
pub(crate) struct SledValues {
    /// The id of its function, from 1.
    pub(crate) id: u32,
    pub(crate) kind: SledKind,
    /// The opcode and the offset of the patched sled.
    pub(crate) opcode: u64,
    pub(crate) offset: u64,
}

impl SledValues {
    ghost use Rattle.patch_script.specs.private.Sleds.{value_in};

    /// What the patcher has to know of the sled of this number.
    fn new(image: &Image, number: u32) -> SledValues
        requires { number < length image.now.sleds }
        ensures { (sled : Sled) → slice_get image.now.sleds number ≡ Some sled
            → result ≡ values_of image.now.trampolines sled }
    {
        let sled = image.sled(number);
        SledValues {
            id: sled.id,
            kind: sled.kind,
            opcode: part_value(image, number, Part::Opcode, true),
            offset: part_value(image, number, Part::Offset, true),
        }
    }

    /// The value that patching stores in a part.
    pub(crate) fn patched(self, part: Part) -> u64
        ensures { result ≡ value_in self part }
    {
        match part {
            Part::Head => PATCHED_HEAD,
            Part::Id => u64::from(self.id),
            Part::Opcode => self.opcode,
            Part::Offset => self.offset,
        }
    }

    /// The head that unpatching stores.
    pub(crate) fn unpatched_head(self, was_patched: bool) -> u64
        ensures { result ≡ head_left self.kind was_patched }
    {
        match self.kind {
            SledKind::Entry | SledKind::Tail | SledKind::Args => JUMP_HEAD,
            SledKind::Exit => if was_patched {
                RETURN_OVER_PATCH
            } else {
                RETURN_HEAD
            },
        }
    }
}

/// What the patcher has to know of all sleds, in the order of the map.
pub(crate) fn sled_values(alloc: Global, image: &Image) -> Result<Vec<SledValues>, AllocError>
    ensures sleds { IfOk result (λ sleds. sleds.items
        ≡ map (values_of image.now.trampolines) image.now.sleds) }
    ensures few { length image.now.sleds ≤ most_sleds }
    ensures in_order { IsNonDecreasingBy (λ sled. sled.id) image.now.sleds }
{
    image.sleds_stand_in_units();
    let count = image.sled_count();
    let mut sleds = Vec::with_capacity(alloc, count as usize)?;
    for number in 0..count {
        sleds.push(SledValues::new(image, number))?;
    }
    Ok(sleds)
}

/// A run of sleds in the map: those with numbers from `start` on, up to but not including `end`.
#[derive(Clone, Copy)]
pub(crate) struct SledRange {
    pub(crate) start: u32,
    pub(crate) end: u32,
}

impl SledRange {
    ghost use Rattle.patch_script.specs.private.Sleds.{HasId, no_sleds};

    /// No sleds.
    pub(crate) fn none() -> SledRange
        ensures { result ≡ no_sleds }
    {
        SledRange { start: 0, end: 0 }
    }

    /// The sleds of a function.
    pub(crate) fn of_function(sleds: &[SledValues], id: u32) -> SledRange
        requires few { length sleds.now < 2 ^ 32 }
        requires in_order { IsNonDecreasingBy (λ sled. sled.id) sleds.now }
        ensures { HasId sleds.now id result }
    {
        SledRange {
            start: sleds.partition_point(|sled| sled.id < id) as u32,
            end: sleds.partition_point(|sled| sled.id <= id) as u32,
        }
    }

    /// How many sleds there are in the range.
    pub(crate) fn len(self) -> u32
        requires { self.start ≤ self.end }
        ensures { result ≡ self.end - self.start }
    {
        self.end - self.start
    }
}
