//! `soak`: a replay over large inputs that are drawn from a number, and a summary of it.

use crate::delivery::{NoOutputs, deliver};
use crate::stop::Stop;
use crate::summary::summary_of;
use crate::work::Work;
use std::alloc::Global;
use xray_io::{Desk, Piece, Sink};

/// `soak SEED`.
#[derive(Drop)]
pub(crate) struct Soak {
    /// The number that the inputs are drawn from.
    pub(crate) number: u64,
}

impl<'a> Work<'a> for Soak {
    ghost use Rattle.std.specs.Prelude.{⊤};
    ghost use Rattle.command_words.specs.Words as words;

    type Inputs = ();

    ghost says = { λ s. words.Soak s.number };

    ghost means = { λ _ _ _. ⊤ };

    ghost fits = { λ _ _. ⊤ };

    fn take<D: Desk>(&self, _alloc: Global, _desk: &mut D) -> Result<(), Stop<'a>> {
        Ok(())
    }

    fn finish<D: Desk, O: Sink>(
        &self,
        alloc: Global,
        _inputs: &(),
        desk: &mut D,
        out: &mut O,
    ) -> Result<(), Stop<'a>> {
        let summary = summary_of(alloc, self.number)?;
        deliver(desk, out, &NoOutputs, &Piece::Bytes(summary.bytes()), None)
    }
}
