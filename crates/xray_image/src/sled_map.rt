//! Checks of the sled map's entries against the sleds of the code.

ghost use Rattle.std.specs.Prelude.{◌≡◌, ◌<◌, ◌≤◌, ◌^◌, ◌↔◌, ◌-ℤ◌, ◌+◌, ℕ, All, pos, length, map, IsTrue, OnOk, IfOk, IfErr, FitsSigned};
ghost use Rattle.std.specs.{List.{zip}, Int.{w32}};
ghost use Rattle.xray_image.specs.private.Judging.{Ascend};
ghost use Rattle.xray_image.specs.Program.{KindFits, LiesIn, IsEntryOf, Reaches, kind_of, id_of, sled_of};
ghost use Rattle.xray_image.specs.private.Reading.{IsFirstFault};
ghost use Rattle.xray_image.specs.Table.{HasOneAddress, FitsAt};
ghost use Rattle.xray_image.specs.private.Views.{function_of, entry_of, place_of, trampolines_of};

use crate::code_units::SledSpot;
use crate::fault::ImageFault;
use crate::format::SLED_LENGTH;
use crate::header::Trampolines;
use crate::map_entry::SledEntry;
use crate::parts::FunctionEntry;
use crate::sled::{Sled, SledKind};
use std::alloc::{AllocError, Global};

/// How many versions of map entries are known: 0 to 2.
const KNOWN_VERSIONS: u8 = 3;

/// Checks that the map has one entry for each sled, in the order of the sleds. `MapOrder` gives the
/// first number whose entry and sled don't share one address.
pub(crate) fn check_order(spots: &[SledSpot], entries: &[SledEntry]) -> Result<(), ImageFault>
    requires spots { length spots.now < 2 ^ 32 }
    requires entries { length entries.now < 2 ^ 32 }
    ensures ordered { OnOk result ((i : ℕ)
        → HasOneAddress (map place_of spots.now) (map entry_of entries.now) i) }
    ensures refused { IfErr result (IsFirstFault
        (HasOneAddress (map place_of spots.now) (map entry_of entries.now)) ImageFault.MapOrder) }
{
    for (number, entry) in entries.iter().enumerate() {
        if number >= spots.len() {
            return Err(ImageFault::MapOrder(number as u32));
        }
        if spots[number].address != entry.sled {
            return Err(ImageFault::MapOrder(number as u32));
        }
    }
    if entries.len() < spots.len() {
        return Err(ImageFault::MapOrder(entries.len() as u32));
    }
    Ok(())
}

/// Whether an address lies in the function that begins at `start`: the last that begins at the address
/// or below.
fn lies_in(functions: &[FunctionEntry<'_>], address: u64, start: u64) -> bool
    requires { Ascend (map function_of functions.now) }
    ensures { IsTrue result ↔ LiesIn (map function_of functions.now) address start }
{
    let count = functions.partition_point(|function| function.start <= address);
    count > 0 && functions[count - 1].start == start
}

/// Whether a sled may have a kind of the map. Exit sleds begin with a return, and others don't.
fn may_have_kind(returns: bool, kind: u8) -> bool
    ensures { IsTrue result ↔ KindFits returns kind }
{
    match SledKind::from_number(kind) {
        Some(SledKind::Exit) => returns,
        Some(SledKind::Entry | SledKind::Tail | SledKind::Args) => !returns,
        None => false,
    }
}

/// Whether an entry agrees with the code about a sled.
fn is_entry_of(functions: &[FunctionEntry<'_>], spot: &SledSpot, entry: &SledEntry) -> bool
    requires { Ascend (map function_of functions.now) }
    ensures { IsTrue result
        ↔ IsEntryOf (map function_of functions.now) (place_of spot.now) (entry_of entry.now) }
{
    lies_in(functions, spot.address, entry.function)
        && may_have_kind(spot.returns, entry.kind)
        && entry.version < KNOWN_VERSIONS
}

/// Checks what each entry says of its sled: the function that the sled lies in, a kind that fits
/// how the sled begins, and a known version. `Odd` gives the first that fails.
pub(crate) fn check_entries(
    functions: &[FunctionEntry<'_>],
    spots: &[SledSpot],
    entries: &[SledEntry],
) -> Result<(), ImageFault>
    requires few { length entries.now < 2 ^ 32 }
    requires spots { length entries.now ≤ length spots.now }
    requires ascend { Ascend (map function_of functions.now) }
    ensures fit { OnOk result ((i : ℕ) → FitsAt (map place_of spots.now) (map entry_of entries.now)
        (IsEntryOf (map function_of functions.now)) i) }
    ensures refused { IfErr result (IsFirstFault (FitsAt (map place_of spots.now)
        (map entry_of entries.now) (IsEntryOf (map function_of functions.now))) ImageFault.Odd) }
{
    for (number, entry) in entries.iter().enumerate() {
        if !is_entry_of(functions, &spots[number], entry) {
            return Err(ImageFault::Odd(number as u32));
        }
    }
    Ok(())
}

/// The kind of a sled by its number in the map, which was checked.
fn kind_of(number: u8) -> SledKind
    requires { number < 4 }
    ensures { result ≡ kind_of number }
{
    match SledKind::from_number(number) {
        Some(kind) => kind,
        None => unreachable!(),
    }
}

/// Whether a sled's call or jump reaches a trampoline. The displacement counts from the sled's end,
/// as a whole number that has to fit 32 bits.
fn reaches(sled: u64, trampoline: u64) -> bool
    ensures { IsTrue result ↔ FitsSigned w32 (pos trampoline -ℤ pos (sled + SLED_LENGTH)) }
{
    let end = i128::from(sled) + SLED_LENGTH as i128;
    i32::try_from(i128::from(trampoline) - end).is_ok()
}

/// Checks that each sled reaches the trampoline of its kind. `Far` gives the first entry whose sled
/// doesn't.
pub(crate) fn check_distances(
    trampolines: &Trampolines,
    spots: &[SledSpot],
    entries: &[SledEntry],
) -> Result<(), ImageFault>
    requires few { length entries.now < 2 ^ 32 }
    requires spots { length entries.now ≤ length spots.now }
    requires kinds { All (λ e. e.kind < 4) entries.now }
    ensures near { OnOk result ((i : ℕ) → FitsAt (map place_of spots.now) (map entry_of entries.now)
        (Reaches (trampolines_of trampolines.now)) i) }
    ensures refused { IfErr result (IsFirstFault (FitsAt (map place_of spots.now)
        (map entry_of entries.now) (Reaches (trampolines_of trampolines.now))) ImageFault.Far) }
{
    for (number, entry) in entries.iter().enumerate() {
        let trampoline = trampolines.of(kind_of(entry.kind));
        if !reaches(spots[number].address, trampoline) {
            return Err(ImageFault::Far(number as u32));
        }
    }
    Ok(())
}

/// The sleds of a code, with what the map's entries say of them, and the ids of their functions.
pub(crate) fn read_sleds(
    alloc: Global,
    spots: &[SledSpot],
    entries: &[SledEntry],
    ids: &[u32],
) -> Result<Vec<Sled>, AllocError>
    requires spots { length entries.now ≤ length spots.now }
    requires kinds { All (λ e. e.kind < 4) entries.now }
    requires ids { ids.now ≡ map (λ e. id_of (map entry_of entries.now) (entry_of e).function) entries.now }
    ensures { IfOk result (λ sleds. sleds.items
        ≡ map (sled_of (map entry_of entries.now)) (zip (map place_of spots.now) (map entry_of entries.now))) }
{
    let mut sleds = Vec::with_capacity(alloc, entries.len())?;
    for (number, entry) in entries.iter().enumerate() {
        let spot = &spots[number];
        sleds.push(Sled {
            address: spot.address,
            function: entry.function,
            id: ids[number],
            kind: kind_of(entry.kind),
            always: entry.always != 0,
            shift: spot.shift,
        })?;
    }
    Ok(sleds)
}
