//! `fdr-dump`: the records of a trace, as far as it can be read.
ghost use Rattle.std.specs.Prelude.{◌≡◌};
ghost use Rattle.xray_program.specs.Inputs.{readable_form};

use crate::delivery::{NoOutputs, deliver};
use crate::inputs::TRACE;
use crate::readable_file::ReadableFile;
use crate::stop::Stop;
use crate::stream::{StreamKind, take_stream};
use crate::work::Work;
use command_words::TRACE_LIMIT;
use fdr_file::readable;
use std::alloc::Global;
use trace_forms::DumpText;
use trace_words::TraceRefusal;
use xray_io::{Desk, Sink};

/// A file that begins with a trace.
#[derive(Drop)]
struct DumpKind;

impl StreamKind for DumpKind {
    type Meaning = ReadableFile;

    type Pieces = Vec<u8>;

    type Value = ReadableFile;

    type Refusal = TraceRefusal;

    ghost form = { λ _. readable_form };

    ghost means = { λ _ file meant. file ≡ meant };

    fn word(&self) -> &'static str {
        TRACE
    }

    fn limit(&self) -> u64 {
        TRACE_LIMIT
    }

    fn begin(&self, alloc: Global) -> Vec<u8> {
        Vec::new(alloc)
    }

    fn judge(&self, _alloc: Global, bytes: Vec<u8>) -> Result<ReadableFile, TraceRefusal> {
        match readable(&bytes) {
            Ok(end) => Ok(ReadableFile { bytes, end }),
            Err(fault) => Err(TraceRefusal { fault }),
        }
    }
}

/// `fdr-dump TRACE`.
#[derive(Drop)]
pub(crate) struct Dump<'a> {
    /// The trace's name.
    pub(crate) trace: &'a str,
}

impl<'a> Work<'a> for Dump<'a> {
    ghost use Rattle.command_words.specs.Words as words;
    ghost use Rattle.fdr_file.specs.Prefixes.{IsReadable};

    type Inputs = ReadableFile;

    ghost says = { λ d. words.Dump d.trace.now };

    ghost means = { λ _ file read. file ≡ read };

    ghost fits = { λ _ t. IsReadable t.bytes t.len };

    fn take<D: Desk>(&self, alloc: Global, desk: &mut D) -> Result<ReadableFile, Stop<'a>> {
        take_stream(alloc, desk, self.trace, &DumpKind)
    }

    fn finish<D: Desk, O: Sink>(
        &self,
        _alloc: Global,
        file: &ReadableFile,
        desk: &mut D,
        out: &mut O,
    ) -> Result<(), Stop<'a>> {
        let text = DumpText {
            bytes: &file.bytes,
            end: file.end,
        };
        deliver(desk, out, &NoOutputs, &text, None)
    }
}
