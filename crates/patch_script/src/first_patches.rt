//! Which sleds were patched by earlier commands.

ghost use Rattle.std.specs.Prelude.{◌≡◌, ◌||◌, [], IfOk};
ghost use Rattle.patch_script.specs.private.FirstPatches.{is_before};

use crate::command::PatchCommand;
use std::alloc::{AllocError, Global};

/// The numbers, counted from 0, of the first commands that patch sleds.
#[derive(Drop)]
pub(crate) struct FirstPatches {
    /// The number of the first `patch`.
    all: Option<u32>,
    /// For each function id, from 1 on, the number of its first `patch_function`.
    by_id: Vec<Option<u32>>,
}

/// Whether a command comes before the one with this number.
fn is_before(command: Option<u32>, number: u32) -> bool
    ensures { result ≡ is_before command number }
{
    command.is_some_and(|first| first < number)
}

impl FirstPatches {
    ghost use Rattle.patch_script.specs.private.FirstPatches.{first_in, AreFirst, AddsFirst, HasRoom};

    /// No commands yet, for an image with this many function ids.
    pub(crate) fn new(alloc: Global, ids: u32) -> Result<FirstPatches, AllocError>
        ensures { IfOk result (λ first. AreFirst ids [] first) }
    {
        Ok(FirstPatches {
            all: None,
            by_id: vec![in alloc; None; ids as usize]?,
        })
    }

    /// Adds a command with its number.
    pub(crate) fn add(&mut self, command: PatchCommand, number: u32)
        requires { HasRoom command self.old }
        ensures { AddsFirst self.old command number self.new }
    {
        match command {
            PatchCommand::Patch => self.all = self.all.or(Some(number)),
            PatchCommand::PatchFunction { id } => {
                let first = &mut self.by_id[id as usize - 1];
                *first = first.or(Some(number));
            }
            _ => {}
        }
    }

    /// Whether a command before the one with this number patches the sleds of a function.
    pub(crate) fn patch_before(&self, id: u32, number: u32) -> bool
        ensures { result ≡ (is_before self.now.all number || is_before (first_in self.now.by_id.items id) number) }
    {
        is_before(self.all, number) || is_before(self.of_function(id), number)
    }

    /// The number of the first `patch_function` of a function, or `None` if there is none.
    fn of_function(&self, id: u32) -> Option<u32>
        ensures { result ≡ first_in self.now.by_id.items id }
    {
        let place = id.checked_sub(1)?;
        *self.by_id.get(place as usize)?
    }
}
