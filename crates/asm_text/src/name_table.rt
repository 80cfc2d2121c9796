//! Where the names of a text are defined.

ghost use Rattle.std.specs.Prelude.{◌≡◌, List, ℕ, Some, None, OnOk, if◌then◌else◌};

use std::alloc::{AllocError, Global};
use std::collections::HashMap;

/// The lines that define the names so far. Each is a number among the lines with words, counted
/// from 0.
#[derive(Drop)]
pub(crate) struct NameTable<'a> {
    lines: HashMap<&'a [u8], usize>,
}

impl<'a> NameTable<'a> {
    ghost use Rattle.std.specs.Str.{bytes_eq};
    ghost use Rattle.asm_text.specs.private.NameTables.{line_named};

    /// No names.
    pub(crate) fn new(alloc: Global) -> Self
        ensures { (q : List ℕ) → line_named result q ≡ None }
    {
        NameTable {
            lines: HashMap::new(alloc),
        }
    }

    /// The line that defines a name.
    pub(crate) fn line_of(&self, name: &[u8]) -> Option<usize>
        ensures { result ≡ line_named self.now name.now }
    {
        self.lines.get(name).copied()
    }

    /// Adds a name, with the line that defines it.
    pub(crate) fn define(&mut self, name: &'a [u8], line: usize) -> Result<(), AllocError>
        ensures { OnOk result ((q : List ℕ) → line_named self.new q
            ≡ (if bytes_eq name.now q then Some line else line_named self.old q)) }
    {
        self.lines.insert(name, line)?;
        Ok(())
    }
}
