//! `map`: the sled map of a compiled program.
use crate::delivery::{Output, deliver};
use crate::input::take;
use crate::inputs::ProgramKind;
use crate::stop::Stop;
use crate::work::Work;
use program_map::ProgramMap;
use std::alloc::Global;
use xray_io::{Desk, Sink};

/// `map PROGRAM MAP`.
#[derive(Drop)]
pub(crate) struct MapProgram<'a> {
    /// The program's name.
    pub(crate) program: &'a str,
    /// The name of the sled map, which is the output.
    pub(crate) map: &'a str,
}

impl<'a> Work<'a> for MapProgram<'a> {
    ghost use Rattle.std.specs.Prelude.{◌≡◌, ⊤};
    ghost use Rattle.command_words.specs.Words as words;
    ghost use Rattle.program_map.specs.Programs.{program_held};

    type Inputs = ProgramMap;

    ghost says = { λ m. words.Map m.program.now m.map.now };

    ghost means = { λ _ made program. program_held made ≡ program };

    ghost fits = { λ _ _. ⊤ };

    fn take<D: Desk>(&self, alloc: Global, desk: &mut D) -> Result<ProgramMap, Stop<'a>> {
        take(alloc, desk, self.program, &ProgramKind)
    }

    fn finish<D: Desk, O: Sink>(
        &self,
        _alloc: Global,
        made: &ProgramMap,
        desk: &mut D,
        out: &mut O,
    ) -> Result<(), Stop<'a>> {
        let output = Output {
            name: self.map,
            text: made,
        };
        deliver(desk, out, &output, &made.facts(), None)
    }
}
