//! The ids of functions.

ghost use Rattle.std.specs.Prelude.{◌≡◌, ◌<◌, ◌≤◌, ◌^◌, ◌+◌, ◌-◌, ℕ, List, [], ◌∷◌, ◌++◌, map, length, All, Contains, Some, slice_get, IfOk, OnOk};
ghost use Rattle.std.specs.List.Sorted.{IsStrictlyIncreasing, IsNonDecreasing};
ghost use Rattle.xray_image.specs.Program.{distinct, id_of};
ghost use Rattle.xray_image.specs.private.{Numbering.{AreNumbersOf}, Views.{entry_of}};

use crate::map_entry::SledEntry;
use crate::parts::FunctionEntry;
use std::alloc::{AllocError, Global};

/// The number of the function that begins at an address. The functions ascend by address.
fn number_of(functions: &[FunctionEntry<'_>], start: u64) -> u32
    requires ascend { IsStrictlyIncreasing (map (λ f. f.start) functions.now) }
    requires known { Contains (map (λ f. f.start) functions.now) start }
    requires few { length functions.now < 2 ^ 32 }
    ensures { slice_get (map (λ f. f.start) functions.now) result ≡ Some start }
{
    functions.partition_point(|f| f.start < start) as u32
}

/// The ids that the entries of a sled map give to functions.
#[derive(Drop)]
pub(crate) struct FunctionIds {
    /// The id of each entry's function, in the order of the map.
    pub(crate) of_entries: Vec<u32>,
    /// For each id, from 1 on, the number of its function.
    pub(crate) functions: Vec<u32>,
}

impl FunctionIds {
    /// The id of the next entry's function. If it isn't the function of the entry before, it gets a
    /// new id.
    fn next_id(
        &mut self,
        functions: &[FunctionEntry<'_>],
        last: Option<u64>,
        function: u64,
    ) -> Result<u32, AllocError>
        requires ascend { IsStrictlyIncreasing (map (λ f. f.start) functions.now) }
        requires known { Contains (map (λ f. f.start) functions.now) function }
        requires few { length functions.now < 2 ^ 32 }
        requires room { length self.old.functions.items < 2 ^ 32 - 1 }
        ensures id { IfOk result (λ id. id ≡ length self.new.functions.items) }
        ensures known { last ≡ Some function
            → self.new.functions.items ≡ self.old.functions.items }
        ensures added { OnOk result ((last ≡ Some function → ⊥) → (some : List ℕ)
            → AreNumbersOf (map (λ f. f.start) functions.now) some self.old.functions.items
            → AreNumbersOf (map (λ f. f.start) functions.now) (some ++ function ∷ [])
            self.new.functions.items) }
        ensures few { OnOk result
            (length self.new.functions.items ≤ length self.old.functions.items + 1) }
        ensures of_entries { self.new.of_entries ≡ self.old.of_entries }
    {
        if last != Some(function) {
            self.functions.push(number_of(functions, function))?;
        }
        Ok(self.functions.len() as u32)
    }

    /// The ids that a map's entries give. Each entry's function is one of the functions, and the
    /// map has them in the order of the file.
    pub(crate) fn new(
        alloc: Global,
        functions: &[FunctionEntry<'_>],
        entries: &[SledEntry],
    ) -> Result<FunctionIds, AllocError>
        requires ascend { IsStrictlyIncreasing (map (λ f. f.start) functions.now) }
        requires known { All (λ e. Contains (map (λ f. f.start) functions.now)
            (entry_of e).function) entries.now }
        requires in_order { IsNonDecreasing (map (λ e. (entry_of e).function) entries.now) }
        requires few_functions { length functions.now < 2 ^ 32 }
        requires few_entries { length entries.now < 2 ^ 32 }
        ensures of_entries { IfOk result (λ ids. ids.of_entries.items
            ≡ map (λ e. id_of (map entry_of entries.now) (entry_of e).function) entries.now) }
        ensures functions { IfOk result (λ ids. AreNumbersOf (map (λ f. f.start) functions.now)
            (distinct [] (map (λ e. (entry_of e).function) entries.now)) ids.functions.items) }
    {
        let mut ids = FunctionIds {
            of_entries: Vec::new(alloc),
            functions: Vec::new(alloc),
        };
        let mut last = None;
        for entry in entries {
            let function = entry.function;
            let id = ids.next_id(functions, last, function)?;
            ids.of_entries.push(id)?;
            last = Some(function);
        }
        Ok(ids)
    }
}
