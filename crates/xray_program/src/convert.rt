//! `convert`: a trace or a basic log in another form.
ghost use Rattle.std.specs.Prelude.{◌≡◌, None, Ok, option_map};
ghost use Rattle.fault_words.specs.Words.{words_text};
ghost use Rattle.fdr_file.specs.declared.trace.Trace.{Trace};
ghost use Rattle.fdr_file.specs.{Prefixes.{ReadsAsTrace}, ThreadEvents.{thread_events}, Traces.{trace_of}};
ghost use Rattle.function_names.specs.Name.{naming};
ghost use Rattle.trace_forms.specs.BasicLogs.{wide_cpu};
ghost use Rattle.xray_program.specs.Convert.{cpu_words, no_text_for, too_many};
ghost use Rattle.xray_program.specs.private.Logs.{LogMeans};

use crate::delivery::{NoOutputs, deliver};
use crate::inputs::TRACE;
use crate::log::{Log, LogKind};
use crate::report_inputs::{ReportInputs, take_report};
use crate::stop::Stop;
use crate::work::Work;
use command_words::{ConvertFormat, ConvertOptions, NameSource};
use fault_words::Words;
use fdr_file::{EventCursor, EventSource, Trace, TraceCursor};
use function_names::Names;
use std::alloc::Global;
use trace_forms::{
    BasicBytes, BasicText, EventsBytes, EventsText, has_too_many, wide_cpu_of_bytes,
};
use xray_io::{Desk, Piece, Printed, Sink, Text, WriteFault};
use yaml_convert::{YamlBytes, YamlText};

/// `convert TRACE [IMAGE]`.
#[derive(Drop)]
pub(crate) struct Convert<'a> {
    /// The trace's name.
    pub(crate) trace: &'a str,
    /// What names its functions.
    pub(crate) names: NameSource<'a>,
    /// The form that the trace has, and the form in which it is printed.
    pub(crate) options: ConvertOptions,
}

impl<'a> Work<'a> for Convert<'a> {
    ghost use Rattle.command_words.specs.Views.{source_view};
    ghost use Rattle.command_words.specs.Words as words;
    ghost use Rattle.xray_program.specs.private.ReportTakes.{AreOfReport};

    type Inputs = ReportInputs<Log>;

    ghost says = { λ c. words.Convert c.trace.now (source_view c.names) c.options };

    ghost means = { λ _. AreOfReport LogMeans };

    ghost fits = { λ _ inputs. (trace : Trace) × LogMeans inputs.log trace };

    fn take<D: Desk>(&self, alloc: Global, desk: &mut D) -> Result<ReportInputs<Log>, Stop<'a>> {
        let kind = LogKind {
            form: self.options.input,
        };
        take_report(alloc, desk, self.trace, &kind, self.names)
    }

    fn finish<D: Desk, O: Sink>(
        &self,
        _alloc: Global,
        inputs: &ReportInputs<Log>,
        desk: &mut D,
        out: &mut O,
    ) -> Result<(), Stop<'a>> {
        let format = self.options.format;
        let names = inputs.names.as_names();
        match refusal_of(format, &inputs.log) {
            Some(words) => Err(Stop::Refused {
                name: self.trace,
                kind: TRACE,
                words,
            }),
            None => match &inputs.log {
                Log::Fdr(bytes) => {
                    let text = BytesReport {
                        bytes,
                        names,
                        format,
                    };
                    deliver(desk, out, &NoOutputs, &text, None)
                }
                Log::Basic(trace) => {
                    let text = TraceReport {
                        trace,
                        names,
                        format,
                    };
                    deliver(desk, out, &NoOutputs, &text, None)
                }
            },
        }
    }
}

/// Why a log isn't printed in a form, if it isn't.
fn refusal_of(format: ConvertFormat, log: &Log) -> Option<Words<'static>>
    requires { (trace : Trace) × LogMeans log.now trace }
    ensures { (trace : Trace) → LogMeans log.now trace
        → option_map words_text result ≡ no_text_for format trace }
{
    match log {
        Log::Fdr(bytes) => refusal_of_bytes(format, bytes),
        Log::Basic(trace) => refusal_of_trace(format, trace),
    }
}

/// Why the trace that bytes read as isn't printed in a form, if it isn't.
fn refusal_of_bytes(format: ConvertFormat, bytes: &[u8]) -> Option<Words<'static>>
    requires { ReadsAsTrace bytes.now }
    ensures { (trace : Trace) → trace_of bytes.now ≡ Ok trace
        → option_map words_text result ≡ no_text_for format trace }
{
    match format {
        ConvertFormat::Yaml => None,
        ConvertFormat::TraceEvents => too_many_of(&mut EventCursor::new(bytes)),
        ConvertFormat::Basic => wide_of(wide_cpu_of_bytes(bytes)),
    }
}

/// The same for a trace each of whose CPUs fits the byte that a basic log has for it.
fn refusal_of_trace(format: ConvertFormat, trace: &Trace) -> Option<Words<'static>>
    requires { wide_cpu (thread_events trace.now.blocks) ≡ None }
    ensures { option_map words_text result ≡ no_text_for format trace.now }
{
    match format {
        ConvertFormat::Yaml | ConvertFormat::Basic => None,
        ConvertFormat::TraceEvents => too_many_of(&mut TraceCursor::new(trace)),
    }
}

/// The words for more events than trace events are printed of, if so many are still to come.
fn too_many_of<E: EventSource>(events: &mut E) -> Option<Words<'static>>
    ensures { option_map words_text result ≡ too_many (E.left events.old) }
{
    if has_too_many(events) {
        Some(Words::name(b"Many"))
    } else {
        None
    }
}

/// The words for the number of the first event whose CPU a basic log has no room for.
fn wide_of(number: Option<u64>) -> Option<Words<'static>>
    ensures { option_map words_text result ≡ option_map cpu_words number }
{
    match number {
        Some(number) => Some(Words::two(Piece::Bytes(b"Cpu "), Piece::Number(u128::from(number)))),
        None => None,
    }
}

/// The trace that bytes read as, in a form.
#[derive(Clone, Copy)]
struct BytesReport<'a> {
    bytes: &'a [u8],
    names: Names<'a>,
    format: ConvertFormat,
}

impl Printed for BytesReport<'_> {
    ghost use Rattle.xray_program.specs.private.Logs.{BytesFit, bytes_text};

    ghost text = { λ t. bytes_text t.format (naming t.names) t.bytes.now };

    ghost ready = { λ t. BytesFit t.format t.bytes.now };

    fn add_to<S: Sink>(&self, to: &mut Text<S>) -> Result<(), WriteFault> {
        let bytes = self.bytes;
        let names = self.names;
        match self.format {
            ConvertFormat::Yaml => YamlBytes { bytes, names }.add_to(to),
            ConvertFormat::TraceEvents => EventsBytes { bytes, names }.add_to(to),
            ConvertFormat::Basic => BasicBytes { bytes }.add_to(to),
        }
    }
}

/// A trace in a form.
#[derive(Clone, Copy)]
struct TraceReport<'a> {
    trace: &'a Trace,
    names: Names<'a>,
    format: ConvertFormat,
}

impl Printed for TraceReport<'_> {
    ghost use Rattle.xray_program.specs.Convert.{converted};
    ghost use Rattle.xray_program.specs.private.Logs.{TraceFits};

    ghost text = { λ t. converted t.format (naming t.names) t.trace.now };

    ghost ready = { λ t. TraceFits t.format t.trace.now };

    fn add_to<S: Sink>(&self, to: &mut Text<S>) -> Result<(), WriteFault> {
        let trace = self.trace;
        let names = self.names;
        match self.format {
            ConvertFormat::Yaml => YamlText { trace, names }.add_to(to),
            ConvertFormat::TraceEvents => EventsText { trace, names }.add_to(to),
            ConvertFormat::Basic => BasicText { trace }.add_to(to),
        }
    }
}
