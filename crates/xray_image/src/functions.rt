//! Checks of a file's functions against the units of its code.

ghost use Rattle.std.specs.Prelude.{◌≡◌, ◌<◌, ◌^◌, ◌↔◌, ◌⊎◌, ℕ, List, length, map, not, Contains, ◌||◌, IsTrue, OnOk, IfOk, IfErr};
ghost use Rattle.std.specs.Str.{bytes_eq};
ghost use Rattle.xray_image.specs.declared.unit.Unit.{Unit};
ghost use Rattle.xray_image.specs.private.Index.{IsIndexOf};
ghost use Rattle.xray_image.specs.private.Judging.{IsAbove, IsName, StandsAfter, is_among};
ghost use Rattle.xray_image.specs.Program.{addresses};
ghost use Rattle.xray_image.specs.private.Reading.{IsFirstFault};
ghost use Rattle.xray_image.specs.Table.{FunctionIsFit};
ghost use Rattle.xray_image.specs.private.Views.{function_of};

use crate::fault::ImageFault;
use crate::format::is_name_byte;
use crate::parts::FunctionEntry;
use crate::unit_index::UnitIndex;
use std::alloc::Global;
use std::collections::BTreeSet;

/// Whether bytes are a name.
fn is_name(name: &[u8]) -> bool
    ensures { IsTrue result ↔ IsName name.now }
{
    !name.is_empty() && name.iter().all(|&byte| is_name_byte(byte))
}

/// Whether a function may begin at `start` after one that begins at `last`: above it, or at the
/// base if there is none before.
fn is_above(base: u64, last: Option<u64>, start: u64) -> bool
    ensures { IsTrue result ↔ IsAbove base last start }
{
    match last {
        None => start == base,
        Some(last) => last < start,
    }
}

/// Whether a unit begins at an address.
fn is_unit(index: &UnitIndex, address: u64) -> bool
    ensures { (all : List ℕ) → IsIndexOf all index.now → IsTrue result ↔ Contains all address }
{
    index.find(address).is_some()
}

/// Whether a function may come after one that begins at `last`. Earlier names aren't looked at.
fn may_stand(base: u64, index: &UnitIndex, last: Option<u64>, function: &FunctionEntry<'_>) -> bool
    ensures { (all : List ℕ) → IsIndexOf all index.now
        → IsTrue result ↔ StandsAfter base all last (function_of function.now) }
{
    is_above(base, last, function.start) && is_unit(index, function.start) && is_name(function.name)
}

/// Adds a name to those of the earlier functions. Returns whether it is none of them.
fn add_name<'a>(names: &mut BTreeSet<&'a [u8]>, name: &'a [u8]) -> Result<bool, ImageFault>
    ensures own { IfOk result (λ own. own ≡ not (is_among (map (λ k. k.now) names.old.keys) name.now)) }
    ensures names { OnOk result ((other : List ℕ) → is_among (map (λ k. k.now) names.new.keys) other
        ≡ (bytes_eq other name.now || is_among (map (λ k. k.now) names.old.keys) other)) }
    ensures full { IfErr result (λ fault. fault ≡ ImageFault.NoMemory) }
{
    Ok(names.insert(name)?)
}

/// Checks each function: that it begins at a unit and in order, and that its name is its own.
/// `Names` gives the first that fails.
pub(crate) fn check_functions(
    alloc: Global,
    base: u64,
    index: &UnitIndex,
    functions: &[FunctionEntry<'_>],
) -> Result<(), ImageFault>
    requires few { length functions.now < 2 ^ 32 }
    ensures fit { OnOk result ((units : List Unit) → IsIndexOf (addresses units) index.now
        → (i : ℕ) → FunctionIsFit base units (map function_of functions.now) i) }
    ensures refused { IfErr result (λ fault. (fault ≡ ImageFault.NoMemory)
        ⊎ ((units : List Unit) → IsIndexOf (addresses units) index.now
        → IsFirstFault (FunctionIsFit base units (map function_of functions.now)) ImageFault.Names fault)) }
{
    let mut names = BTreeSet::new(alloc);
    let mut last = None;
    for (number, function) in functions.iter().enumerate() {
        if !may_stand(base, index, last, function) {
            return Err(ImageFault::Names(number as u32));
        }
        if !add_name(&mut names, function.name)? {
            return Err(ImageFault::Names(number as u32));
        }
        last = Some(function.start);
    }
    Ok(())
}
