//! What is said of a sled map.
ghost use Rattle.std.specs.Prelude.{◌≡◌, ◌≤◌, ◌<◌, ◌+◌, ◌^◌, ◌++◌, ◌∷◌, [], List, length};
ghost use Rattle.std.specs.List.{flat_map};
ghost use Rattle.elf_file.specs.Views.{names_held};
ghost use Rattle.program_map.specs.MapText.{has_name, map_facts, map_facts_text, functions_named};
ghost use Rattle.program_map.specs.Programs.{program_held};
ghost use Rattle.program_map.specs.declared.numbering.NumberedSled.{NumberedSled as TheNumbered};
ghost use Rattle.program_map.specs.private.MapLines.{fact_text};
ghost use Rattle.program_map.specs.private.Counts.{is_last};
ghost use Rattle.program_map.specs.private.NamedIds.{IsNamed};

use crate::line::sled_name;
use crate::numbering::NumberedSled;
use crate::program::ProgramMap;
use elf_file::FunctionNames;
use xray_io::{Each, Piece, Printed, Sink, Text, WriteFault};

/// The width of a number. A longer one is printed whole.
const WIDTH: usize = 20;

/// What is said of a sled map.
#[derive(Clone, Copy, Debug, PartialEq, Eq)]
pub struct MapFacts {
    /// How many sleds have an id.
    pub sleds: u64,
    /// How many functions have an id.
    pub functions: u64,
    /// How many of them have no name.
    pub unnamed: u64,
    /// How many sleds have no id.
    pub left_out: u64,
}

impl MapFacts {
    /// The lines.
    fn lines(&self) -> [FactLine; 4]
        ensures { flat_map fact_text result ≡ map_facts_text self.now }
    {
        [
            FactLine(self.sleds, b"sleds"),
            FactLine(self.functions, b"functions"),
            FactLine(self.unnamed, b"functions without a name"),
            FactLine(self.left_out, b"sleds without an id left out"),
        ]
    }
}

impl Printed for MapFacts {
    ghost use Rattle.std.specs.Prelude.{⊤};

    ghost text = { map_facts_text };

    ghost ready = { λ _. ⊤ };

    fn add_to<S: Sink>(&self, to: &mut Text<S>) -> Result<(), WriteFault> {
        Each(&self.lines()).add_to(to)
    }
}

/// A line: a number, and what it is.
#[derive(Clone, Copy)]
struct FactLine(u64, &'static [u8]);

impl Printed for FactLine {
    ghost use Rattle.std.specs.Prelude.{⊤};

    ghost text = { fact_text };

    ghost ready = { λ _. ⊤ };

    #[tactic(auto, unfolding(crate::specs::MapText::map_fact_line))]
    fn add_to<S: Sink>(&self, to: &mut Text<S>) -> Result<(), WriteFault> {
        to.pieces(&[
            Piece::Right {
                number: u128::from(self.0),
                width: WIDTH,
            },
            Piece::Bytes(b" "),
            Piece::Bytes(self.1),
            Piece::Bytes(b"\n"),
        ])
    }
}

/// Whether the function of a sled has a name.
fn has_name(names: &FunctionNames, sled: &NumberedSled) -> bool
    ensures { result ≡ has_name (names_held names.now) sled.now }
{
    !sled_name(names, sled).is_empty()
}

/// How many functions have a name, of some sleds in their order.
#[derive(Clone, Copy)]
pub(crate) struct Named {
    pub(crate) functions: u64,
    /// The id of the last sled whose function has a name.
    pub(crate) last: Option<u32>,
}

impl Named {
    /// Whether the last sled whose function has a name has this id.
    fn is_last(&self, id: u32) -> bool
        ensures { result ≡ is_last self.now.last id }
    {
        match self.last {
            Some(last) => last == id,
            None => false,
        }
    }

    /// Takes a sled, of which there are fewer than 2^63.
    fn take_sled(self, names: &FunctionNames, sled: &NumberedSled) -> Named
        requires { self.functions < 2 ^ 63 }
        ensures took { (sleds : List TheNumbered) → IsNamed (names_held names.now) sleds self →
            IsNamed (names_held names.now) (sleds ++ sled.now ∷ []) result }
        ensures few { result.functions ≤ self.functions + 1 }
    {
        if self.is_last(sled.id) || !has_name(names, sled) {
            return self;
        }
        Named {
            functions: self.functions + 1,
            last: Some(sled.id),
        }
    }
}

/// How many functions of sleds have a name.
#[tactic(auto, using(std::proofs::lemmas::List::take_more))]
fn named_functions(names: &FunctionNames, sleds: &[NumberedSled]) -> u64
    requires { length sleds.now < 2 ^ 63 }
    ensures { result ≡ functions_named (names_held names.now) sleds.now }
{
    let mut named = Named {
        functions: 0,
        last: None,
    };
    for sled in sleds {
        named = named.take_sled(names, sled);
    }
    named.functions
}

impl ProgramMap {
    /// What is said of the map.
    pub fn facts(&self) -> MapFacts
        ensures { result ≡ map_facts (program_held self.now) }
    {
        let functions = u64::from(self.functions);
        let named = named_functions(&self.names, &self.sleds);
        MapFacts {
            sleds: self.sleds.len() as u64,
            functions,
            unnamed: functions.saturating_sub(named),
            left_out: self.left_out,
        }
    }
}
