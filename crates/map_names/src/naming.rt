//! The names of a sled map by ids.

ghost use Rattle.std.specs.Prelude.{◌≡◌, OnOk, if◌then◌else◌, Some, None, ℕ, option_map};
ghost use Rattle.std.specs.Option.{option_or};
ghost use Rattle.map_names.specs.Maps.{names_id};
ghost use Rattle.map_names.specs.private.Parts.{entry_read};

use crate::entry::IdName;
use std::alloc::Global;
use std::collections::HashMap;
use xray_io::NoMemory;

/// The names that a sled map gives to functions, by their ids. In contracts these are `named`.
#[derive(Drop)]
pub struct MapNames {
    names: HashMap<u32, Vec<u8>>,
}

impl MapNames {
    ghost use Rattle.map_names.specs.MapNames.{named};

    /// No names.
    pub(crate) fn new(alloc: Global) -> MapNames
        ensures { (id : ℕ) → (named result).name id ≡ None }
    {
        MapNames {
            names: HashMap::new(alloc),
        }
    }

    /// Takes the name of an entry, unless it is empty, or its id has one.
    pub(crate) fn add(&mut self, entry: IdName) -> Result<(), NoMemory>
        ensures { OnOk result ((id : ℕ) → (named self.new).name id ≡ option_or ((named self.old).name id)
            (if names_id id (entry_read entry) then Some entry.name.items else None)) }
    {
        let IdName { id, name } = entry;
        if name.is_empty() || self.names.contains_key(&id) {
            return Ok(());
        }
        self.names.insert(id, name)?;
        Ok(())
    }

    /// The name of the function with an id, or `None` if the map has no name for it.
    pub fn name_of(&self, id: u32) -> Option<&[u8]>
        ensures { option_map (λ name. name.now) result ≡ (named self.now).name id }
    {
        match self.names.get(&id) {
            Some(name) => Some(name.as_slice()),
            None => None,
        }
    }
}
