//! Calls of `xray_image`: what an image file says, and why others are refused.

use crate::checks::{check_same, check_same_at};
use crate::image_files::{add_entry_of, image_file};
use std::alloc::{AllocError, Global};
use std::process::Abort;
use std::test::Fail;
use subset_decode::{DecodeFault, Instr, Reg};
use test_helpers::images::OUTPUTS_AN_A;
use xray_image::ImageFault::Limit;
use xray_image::{
    ImageFault, Sled, SledKind, Unit, What, Which, one_reading, one_unit_list, one_verdict,
    read_image,
};

/// Why the bytes are refused, if they are.
fn fault_of(alloc: Global, bytes: &[u8]) -> Option<ImageFault> {
    read_image(alloc, bytes).err()
}

#[test]
fn an_image_has_the_units_of_its_code(rt: HostRuntime) -> Result<(), Fail> {
    one_unit_list();
    one_reading();
    one_verdict();
    let image = read_image(rt.alloc(), &OUTPUTS_AN_A)?;
    check_same(&rt, &image.base(), &0x1000);
    let dst = Reg::new(0).ok_or("rax")?;
    let units = [
        (0x1000, What::Sled(0)),
        (0x100B, What::Plain(Instr::Mov { dst, imm: 0x41 })),
        (0x1010, What::Plain(Instr::Out { port: 1 })),
        (0x1012, What::Sled(1)),
    ];
    check_same(&rt, &image.unit_count(), &4);
    for i in 0..4 {
        let (address, what) = units[i as usize];
        assert!(rt; i < image.unit_count());
        check_same(&rt, &image.unit(i), &Unit { address, what });
        check_same(&rt, &image.unit_at(address), &Some(i));
    }
    for address in [0, 0xFFF, 0x1001, 0x1011, 0x1013, 0x101D, u64::MAX] {
        check_same(&rt, &image.unit_at(address), &None);
    }
    Ok(())
}

#[test]
fn an_image_has_the_function_and_the_sleds_of_its_map(rt: HostRuntime) -> Result<(), Fail> {
    let image = read_image(rt.alloc(), &OUTPUTS_AN_A)?;
    check_same(&rt, &image.entry(), &0x1000);
    check_same(&rt, &image.function_count(), &1);
    check_same(&rt, &image.id_count(), &1);
    check_same(&rt, &image.name_of(0), &None);
    check_same(&rt, &image.name_of(1), &Some("main"));
    check_same(&rt, &image.name_of(2), &None);
    check_same(&rt, &Some(image.code()), &OUTPUTS_AN_A.get(64..93));
    check_same(&rt, &image.trampoline(SledKind::Entry), &0x20_1000);
    check_same(&rt, &image.trampoline(SledKind::Exit), &0x20_1010);
    check_same(&rt, &image.trampoline(SledKind::Tail), &0x20_1020);
    check_same(&rt, &image.trampoline(SledKind::Args), &0x20_1030);
    let entry = Sled {
        address: 0x1000,
        function: 0x1000,
        id: 1,
        kind: SledKind::Entry,
        always: true,
        shift: 0x200,
    };
    let exit = Sled {
        address: 0x1012,
        kind: SledKind::Exit,
        ..entry
    };
    assert!(rt; image.sled_count() == 2);
    check_same(&rt, &image.sled(0), &entry);
    check_same(&rt, &image.sled(1), &exit);
    Ok(())
}

/// Changed bytes of that image, the length to which it is cut or extended by a zero, and why it is
/// refused.
type Damage = (&'static [(usize, u8)], usize, ImageFault);

/// The length of that image.
const WHOLE: usize = 170;

/// The place of its map.
const MAP: usize = 106;

/// The damaged file.
fn damaged(alloc: Global, changes: &[(usize, u8)], length: usize) -> Result<Vec<u8>, AllocError> {
    let mut bytes = OUTPUTS_AN_A.to_vec(alloc)?;
    bytes.push(0)?;
    for (place, byte) in changes {
        if *place < bytes.len() {
            bytes[*place] = *byte;
        }
    }
    bytes.truncate(length);
    Ok(bytes)
}

/// Each row of the table of refusals.
const DAMAGES: [Damage; 27] = [
    (&[], 63, ImageFault::Short),
    (&[], 169, ImageFault::Short),
    (&[], 171, ImageFault::Trailing),
    (&[(0, 0x59)], WHOLE, ImageFault::Magic),
    (&[(4, 0x02)], WHOLE, ImageFault::Version),
    (
        &[(16, 0xFF), (17, 0xFF), (18, 0xFF), (19, 0xFF)],
        WHOLE,
        Limit(Which::Code),
    ),
    (&[(20, 0)], WHOLE, Limit(Which::Functions)),
    (&[(21, 4)], WHOLE, Limit(Which::Functions)),
    (&[(25, 0x10)], WHOLE, Limit(Which::Sleds)),
    (&[(28, 1)], WHOLE, Limit(Which::Entry)),
    (&[(8, 0x08)], WHOLE, Limit(Which::Base)),
    // the base 0x7FFF_0000_0010
    (
        &[(8, 0x10), (9, 0), (12, 0xFF), (13, 0x7F)],
        WHOLE,
        Limit(Which::Base),
    ),
    (&[(65, 0x08)], WHOLE, ImageFault::Sled(0)),
    (&[(84, 0x67)], WHOLE, ImageFault::Sled(18)),
    (
        &[(75, 0x0F)],
        WHOLE,
        ImageFault::Code(11, DecodeFault::Unknown(65)),
    ),
    (&[(102, 0x20)], WHOLE, ImageFault::Names(0)),
    (&[(93, 0x0B)], WHOLE, ImageFault::Names(0)),
    (&[(138, 0x14)], WHOLE, ImageFault::MapOrder(1)),
    (&[(154, 0)], WHOLE, ImageFault::Odd(1)),
    (&[(122, 4)], WHOLE, ImageFault::Odd(0)),
    (&[(154, 3)], WHOLE, ImageFault::Odd(1)),
    (&[(124, 3)], WHOLE, ImageFault::Odd(0)),
    (&[(156, 3)], WHOLE, ImageFault::Odd(1)),
    (&[(146, 0x0B)], WHOLE, ImageFault::Odd(1)),
    // the entry trampoline 0x2_0000_0000
    (&[(33, 0), (34, 0), (36, 2)], WHOLE, ImageFault::Far(0)),
    // the argument trampoline 0x2_0000_0030, and a sled of kind 3
    (
        &[(122, 3), (57, 0), (58, 0), (60, 2)],
        WHOLE,
        ImageFault::Far(0),
    ),
    // a jump to 0x1051
    (&[(75, 0xE9)], WHOLE, ImageFault::Target(11)),
];

/// Two adjacent rows each. The two rows `Short` (of the parts) and `Trailing` can't both apply.
const TWICE_DAMAGED: [Damage; 15] = [
    (&[(0, 0x59)], 63, ImageFault::Short),
    (&[(0, 0x59), (4, 2)], WHOLE, ImageFault::Magic),
    (&[(4, 2), (19, 0xFF)], WHOLE, ImageFault::Version),
    (&[(19, 0xFF), (20, 0)], WHOLE, Limit(Which::Code)),
    (&[(20, 0), (25, 0x10)], WHOLE, Limit(Which::Functions)),
    (&[(25, 0x10), (28, 1)], WHOLE, Limit(Which::Sleds)),
    (&[(28, 1), (8, 0x08)], WHOLE, Limit(Which::Entry)),
    (&[(8, 0x08)], 169, Limit(Which::Base)),
    (&[(65, 0x08)], 169, ImageFault::Short),
    (&[(75, 0x0F)], 171, ImageFault::Trailing),
    (&[(65, 0x08), (102, 0x20)], WHOLE, ImageFault::Sled(0)),
    (&[(102, 0x20), (138, 0x14)], WHOLE, ImageFault::Names(0)),
    (&[(138, 0x14), (122, 1)], WHOLE, ImageFault::MapOrder(1)),
    (
        &[(33, 0), (34, 0), (36, 2), (154, 0)],
        WHOLE,
        ImageFault::Odd(1),
    ),
    (
        &[(33, 0), (34, 0), (36, 2), (75, 0xE9)],
        WHOLE,
        ImageFault::Far(0),
    ),
];

/// Checks why damaged files are refused.
fn check_damages(rt: &impl Abort, alloc: Global, damages: &[Damage]) -> Result<(), Fail> {
    for (changes, length, fault) in damages {
        let bytes = damaged(alloc, changes, *length)?;
        check_same_at(rt, &fault_of(alloc, &bytes), &Some(*fault), changes);
    }
    Ok(())
}

#[test]
fn a_damaged_image_is_refused_by_its_first_fault(rt: HostRuntime) -> Result<(), Fail> {
    check_damages(&rt, rt.alloc(), &DAMAGES)?;
    check_damages(&rt, rt.alloc(), &TWICE_DAMAGED)
}

/// Two map entries of an entry sled at 0x1000 and an exit sled at 0x1012, both in a function at
/// 0x1000: the two fields and the version of each. Then why their image is refused, if it is. The
/// first entry is at 0x101000, and the second at 0x101020.
type Mapped = ([(u64, u64, u8); 2], Option<ImageFault>);

/// The first entry, as version 2 has it.
const FIRST: (u64, u64, u8) = (0xFFFF_FFFF_FFF0_0000, 0xFFFF_FFFF_FFEF_FFF8, 2);

/// The second entry, as version 2 has it.
const SECOND: (u64, u64, u8) = (0xFFFF_FFFF_FFEF_FFF2, 0xFFFF_FFFF_FFEF_FFD8, 2);

const MAPS: [Mapped; 10] = [
    ([FIRST, SECOND], None),
    // several versions in one map
    ([(0x1000, 0x1000, 0), SECOND], None),
    ([FIRST, (0x1012, 0x1000, 1)], None),
    // fields of the other version
    ([(0x1000, 0x1000, 2), SECOND], Some(ImageFault::MapOrder(0))),
    (
        [FIRST, (SECOND.0, SECOND.1, 1)],
        Some(ImageFault::MapOrder(1)),
    ),
    // a sled 16 bytes below 0, which is one at 0xFFFF_FFFF_FFFF_FFF0
    (
        [(0xFFFF_FFFF_FFEF_EFF0, FIRST.1, 2), SECOND],
        Some(ImageFault::MapOrder(0)),
    ),
    // a function whose field counts from its entry
    ([(FIRST.0, FIRST.0, 2), SECOND], Some(ImageFault::Odd(0))),
    // functions 8 bytes below 0, and at 2^64 - 1
    (
        [(FIRST.0, 0xFFFF_FFFF_FFEF_EFF0, 2), SECOND],
        Some(ImageFault::Odd(0)),
    ),
    (
        [FIRST, (SECOND.0, 0xFFFF_FFFF_FFEF_EFD7, 2)],
        Some(ImageFault::Odd(1)),
    ),
    // a version above 2
    ([FIRST, (0x1012, 0x1000, 3)], Some(ImageFault::Odd(1))),
];

#[test]
fn addresses_of_version_2_count_from_their_fields(rt: HostRuntime) -> Result<(), Fail> {
    for (map, fault) in &MAPS {
        let mut bytes = Vec::from_slice(rt.alloc(), &OUTPUTS_AN_A[..MAP])?;
        for (number, (sled, function, version)) in map.iter().enumerate() {
            add_entry_of(&mut bytes, *version, *sled, *function, number as u8)?;
        }
        check_same_at(&rt, &fault_of(rt.alloc(), &bytes), fault, map);
    }
    Ok(())
}

/// Codes of one function without a map, and why they are refused, if they are.
const CODES: [(&[u8], Option<ImageFault>); 14] = [
    // `mov r10d, 1` and `ret`: register 10 can't be named
    (
        &[0x41, 0xBA, 1, 0, 0, 0, 0xC3],
        Some(ImageFault::Code(0, DecodeFault::Register(10))),
    ),
    // an instruction that is cut by the code's end
    (
        &[0x90, 0xB8, 0x41],
        Some(ImageFault::Code(1, DecodeFault::Short)),
    ),
    // a return as the last byte, and the start of sleds
    (&[0xC3], None),
    (&[0xC3, 0x2E], Some(ImageFault::Sled(0))),
    (&[0xEB], Some(ImageFault::Sled(0))),
    // whole sleds at odd places
    (
        &[0x90, 0xEB, 0x09, 0x66, 0x0F, 0x1F, 0x84, 0, 0, 2, 0, 0],
        Some(ImageFault::Sled(1)),
    ),
    (
        &[0x90, 0xC3, 0x2E, 0x66, 0x0F, 0x1F, 0x84, 0, 0, 2, 0, 0],
        Some(ImageFault::Sled(1)),
    ),
    // a sled without an entry
    (
        &[0xEB, 0x09, 0x66, 0x0F, 0x1F, 0x84, 0, 0, 2, 0, 0],
        Some(ImageFault::MapOrder(0)),
    ),
    // jumps to the code's end, to themselves, into themselves, and below 0
    (&[0xE9, 0, 0, 0, 0], Some(ImageFault::Target(0))),
    (&[0xE9, 0xFB, 0xFF, 0xFF, 0xFF], None),
    (&[0xE9, 0xFC, 0xFF, 0xFF, 0xFF], Some(ImageFault::Target(0))),
    (&[0xE9, 0, 0, 0, 0x80], Some(ImageFault::Target(0))),
    // conditional jumps to the next unit, and past the code
    (&[0x0F, 0x85, 0, 0, 0, 0, 0x90], None),
    (
        &[0x90, 0x0F, 0x85, 1, 0, 0, 0, 0x90],
        Some(ImageFault::Target(1)),
    ),
];

#[test]
fn code_is_refused_at_its_first_bad_unit_or_branch(rt: HostRuntime) -> Result<(), Fail> {
    for (code, fault) in &CODES {
        let bytes = image_file(rt.alloc(), code, &[(0x1000, "main")], &[])?;
        check_same_at(&rt, &fault_of(rt.alloc(), &bytes), fault, code);
    }
    Ok(())
}
