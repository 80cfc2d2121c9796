//! An image that was read, and what it says.

ghost use Rattle.std.specs.Prelude.{◌≡◌, ◌<◌, ◌≤◌, ◌↔◌, List, ℕ, length, true, Some, slice_get, All, Contains, MatchOption, IsSome, IfOk};
ghost use Rattle.std.specs.List.Sorted.{IsNonDecreasingBy};
ghost use Rattle.std.specs.Option.{option_map};
ghost use Rattle.xray_image.specs.Program.{is_name_byte};
ghost use Rattle.xray_image.specs.private.ImageView.{named_function};

mod reading;

use crate::header::Trampolines;
use crate::sled::{Sled, SledKind};
use crate::unit::{Unit, UnitTable};
use crate::unit_index::UnitIndex;
pub use reading::read_image;
use std::alloc::{AllocError, Global};
use std::marker::Model;

/// A function of the image.
#[derive(Drop)]
pub(crate) struct Function {
    pub(crate) start: u64,
    pub(crate) name: String,
}

impl Function {
    /// The function that begins at an address, with this name.
    pub(crate) fn new(alloc: Global, start: u64, name: &[u8]) -> Result<Function, AllocError>
        requires { All (λ b. is_name_byte b ≡ true) name.now }
        ensures { IfOk result (λ f. named_function f ≡ record { start = start; name = name.now }) }
    {
        let name = String::from_utf8_lossy(alloc, name)?;
        Ok(Function { start, name })
    }
}

/// A program with sleds, as an accepted image file says: its units, the sleds among them, and the
/// addresses of the handlers' trampolines. Addresses are absolute, in bytes.
#[derive(Drop)]
pub struct Image {
    base: u64,
    entry: u64,
    functions: Vec<Function>,
    units: UnitTable,
    sleds: Vec<Sled>,
    trampolines: Trampolines,
    index: UnitIndex,
    /// For each id, from 1 on, the number of its function.
    ids: Vec<u32>,
}

impl Model for Image {
    ghost use Rattle.xray_image.specs.Program.{Program};

    ghost Value = { Program };

    ghost use Rattle.xray_image.specs.private.ImageView.{program_in, IsSound};

    ghost view = { program_in };

    ghost invariant = { IsSound };
}

impl Image {
    ghost use Rattle.xray_image.specs.Limits.{most_sleds};
    ghost use Rattle.xray_image.specs.Program.{Program, IsAccepted, addresses, trampoline_of};
    ghost use Rattle.xray_image.specs.{Layout.{AreContiguous, SledsStand}, Ids.{id_count, name_of}};

    /// The address of the code's first byte.
    pub fn base(&self) -> u64
        ensures { result ≡ self.now.base }
    {
        self.base
    }

    /// The address at which threads start.
    pub fn entry(&self) -> u64
        ensures { result ≡ self.now.entry }
    {
        self.entry
    }

    /// The bytes of the code as in the file, with its sleds unpatched.
    pub fn code(&self) -> &[u8]
        ensures { result.now ≡ self.now.code }
    {
        self.units.code()
    }

    /// How many functions there are.
    pub fn function_count(&self) -> u32
        ensures { result ≡ length self.now.functions }
    {
        self.functions.len() as u32
    }

    /// How many units the code has.
    pub fn unit_count(&self) -> u32
        ensures count { result ≡ length self.now.units }
        ensures contiguous { AreContiguous self.now.base self.now.units }
    {
        self.units.len() as u32
    }

    /// The unit of this number, counted from 0 in ascending address. There has to be one: `i` is below
    /// `unit_count`.
    pub fn unit(&self, i: u32) -> Unit
        requires { i < length self.now.units }
        ensures { slice_get self.now.units i ≡ Some result }
    {
        self.units.get(i as usize)
    }

    /// The number of the unit that begins at an address. The answer is `None` exactly when none
    /// begins there.
    pub fn unit_at(&self, address: u64) -> Option<u32>
        ensures { MatchOption result (Contains (addresses self.now.units) address → ⊥)
            (λ i. slice_get (addresses self.now.units) i ≡ Some address) }
    {
        self.index.find(address)
    }

    /// How many sleds the code has.
    pub fn sled_count(&self) -> u32
        ensures count { result ≡ length self.now.sleds }
        ensures few { result ≤ most_sleds }
    {
        self.sleds.len() as u32
    }

    /// The sled of this number, counted from 0 in ascending address. There has to be one: `k` is below
    /// `sled_count`.
    pub fn sled(&self, k: u32) -> Sled
        requires { k < length self.now.sleds }
        ensures { slice_get self.now.sleds k ≡ Some result }
    {
        self.sleds[k as usize]
    }

    /// How many function ids there are. As in XRay, ids count from 1 over the functions that have a
    /// sled, in the order of the sled map.
    pub fn id_count(&self) -> u32
        ensures { result ≡ id_count self.now }
    {
        self.ids.len() as u32
    }

    /// The name of the function with an id. The answer is `None` exactly for 0 and for numbers
    /// above the count of ids.
    pub fn name_of(&self, id: u32) -> Option<&str>
        ensures name { option_map (λ name. name.now) result ≡ name_of self.now id }
        ensures some { IsSome result ↔ (0 < id) × (id ≤ id_count self.now) }
    {
        if id == 0 || id > self.id_count() {
            return None;
        }
        let number = self.ids[id as usize - 1];
        Some(self.functions[number as usize].name.as_str())
    }

    /// The address of the trampoline that patched sleds of this kind call.
    pub fn trampoline(&self, kind: SledKind) -> u64
        ensures { result ≡ trampoline_of self.now.trampolines kind }
    {
        self.trampolines.of(kind)
    }

    /// A law: an image is what some accepted file holds. The call does nothing.
    #[inline(always)]
    pub fn each_was_accepted(&self)
        ensures { (bytes : List ℕ) × IsAccepted bytes self.now }
    {
        // Reading a field brings in what holds of each image.
        let _base = self.base;
    }

    /// A law: the sleds of an image are few. They are where its units are sleds, and those of a
    /// function are next to each other. The call does nothing.
    #[inline(always)]
    pub fn sleds_stand_in_units(&self)
        ensures few { length self.now.sleds ≤ most_sleds }
        ensures in_order { IsNonDecreasingBy (λ s. s.id) self.now.sleds }
        ensures stand { SledsStand self.now.units self.now.sleds }
    {
        // Reading a field brings in what holds of each image.
        let _base = self.base;
    }
}
