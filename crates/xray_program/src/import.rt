//! `import`: a log of LLVM's runtime as a trace.
use crate::delivery::{Output, deliver};
use crate::input::take;
use crate::inputs::RuntimeLogKind;
use crate::stop::Stop;
use crate::work::Work;
use runtime_log::ImportedLog;
use std::alloc::Global;
use xray_io::{Desk, Piece, Sink};

/// `import LOG TRACE`.
#[derive(Drop)]
pub(crate) struct Import<'a> {
    /// The log's name.
    pub(crate) log: &'a str,
    /// The name of the trace, which is the output.
    pub(crate) trace: &'a str,
}

impl<'a> Work<'a> for Import<'a> {
    ghost use Rattle.std.specs.Prelude.{◌≡◌, ⊤};
    ghost use Rattle.command_words.specs.Words as words;

    type Inputs = ImportedLog;

    ghost says = { λ i. words.Import i.log.now i.trace.now };

    ghost means = { λ _ made imported. made ≡ imported };

    ghost fits = { λ _ _. ⊤ };

    fn take<D: Desk>(&self, alloc: Global, desk: &mut D) -> Result<ImportedLog, Stop<'a>> {
        take(alloc, desk, self.log, &RuntimeLogKind)
    }

    fn finish<D: Desk, O: Sink>(
        &self,
        _alloc: Global,
        made: &ImportedLog,
        desk: &mut D,
        out: &mut O,
    ) -> Result<(), Stop<'a>> {
        let file = Piece::Bytes(made.file());
        let output = Output {
            name: self.trace,
            text: &file,
        };
        deliver(desk, out, &output, made.facts(), None)
    }
}
