//! `stack`: on which paths the functions of a trace were called, and for how long.
ghost use Rattle.std.specs.Prelude.{◌≡◌, map};
ghost use Rattle.function_names.specs.Name.{naming};
ghost use Rattle.stack_rebuild.specs.Stacks.{told};
ghost use Rattle.fdr_file.specs.declared.trace.Trace.{Trace};
ghost use Rattle.xray_program.specs.private.Meant.{StacksMean};

use crate::delivery::{NoOutputs, deliver};
use crate::input::fault_stop;
use crate::inputs::TRACE;
use crate::report_inputs::{ReportInputs, take_report};
use crate::stop::Stop;
use crate::stream::StreamKind;
use crate::trace_feed::TraceFeed;
use crate::work::Work;
use command_words::{NameSource, StackFormat, TRACE_LIMIT};
use fdr_file::Trace;
use flame_graph::{FlameGraph, stacks_can_be_drawn};
use function_names::Names;
use stack_rebuild::{StackFault, StackFold, StackForm, StackRow, StackText};
use std::alloc::Global;
use trace_words::TraceRefusal;
use xray_io::{Desk, Printed, Sink, Text, WriteFault};

/// The stacks of a trace.
#[derive(Drop)]
pub(crate) struct TraceStacks {
    /// How often the counter advances, in cycles a second, or 0.
    frequency: u64,
    /// The rows, or why there are none.
    rows: Result<Vec<StackRow>, StackFault>,
}

/// A trace of which the stacks are made.
#[derive(Drop)]
struct StackKind;

impl StreamKind for StackKind {
    ghost use Rattle.xray_program.specs.Inputs.{trace_form};

    type Meaning = Trace;

    type Pieces = TraceFeed<StackFold>;

    type Value = TraceStacks;

    type Refusal = TraceRefusal;

    ghost form = { λ _. trace_form };

    ghost means = { λ _. StacksMean };

    fn word(&self) -> &'static str {
        TRACE
    }

    fn limit(&self) -> u64 {
        TRACE_LIMIT
    }

    fn begin(&self, alloc: Global) -> TraceFeed<StackFold> {
        TraceFeed::new(StackFold::new(alloc))
    }

    fn judge(
        &self,
        _alloc: Global,
        feed: TraceFeed<StackFold>,
    ) -> Result<TraceStacks, TraceRefusal> {
        match feed.finish_with_header() {
            Ok((header, fold)) => Ok(TraceStacks {
                frequency: header.frequency,
                rows: fold.rows(),
            }),
            Err(fault) => Err(TraceRefusal { fault }),
        }
    }
}

/// `stack TRACE [IMAGE]`.
#[derive(Drop)]
pub(crate) struct Stack<'a> {
    /// The trace's name.
    pub(crate) trace: &'a str,
    /// What names its functions.
    pub(crate) names: NameSource<'a>,
    /// How the stacks are printed.
    pub(crate) format: StackFormat,
}

impl<'a> Work<'a> for Stack<'a> {
    ghost use Rattle.command_words.specs.Views.{source_view};
    ghost use Rattle.command_words.specs.Words as words;
    ghost use Rattle.xray_program.specs.private.ReportTakes.{AreOfReport};

    type Inputs = ReportInputs<TraceStacks>;

    ghost says = { λ s. words.Stack s.trace.now (source_view s.names) s.format };

    ghost means = { λ _. AreOfReport StacksMean };

    ghost fits = { λ _ inputs. (trace : Trace) × StacksMean inputs.log trace };

    fn take<D: Desk>(
        &self,
        alloc: Global,
        desk: &mut D,
    ) -> Result<ReportInputs<TraceStacks>, Stop<'a>> {
        take_report(alloc, desk, self.trace, &StackKind, self.names)
    }

    fn finish<D: Desk, O: Sink>(
        &self,
        _alloc: Global,
        inputs: &ReportInputs<TraceStacks>,
        desk: &mut D,
        out: &mut O,
    ) -> Result<(), Stop<'a>> {
        match &inputs.log.rows {
            Ok(rows) => {
                stacks_can_be_drawn();
                let text = StackReport {
                    rows,
                    names: inputs.names.as_names(),
                    frequency: inputs.log.frequency,
                    format: self.format,
                };
                deliver(desk, out, &NoOutputs, &text, None)
            }
            Err(fault) => Err(fault_stop(self.trace, TRACE, fault)),
        }
    }
}

/// Stacks in a format.
#[derive(Clone, Copy)]
pub(crate) struct StackReport<'a> {
    pub(crate) rows: &'a [StackRow],
    /// What names the functions.
    pub(crate) names: Names<'a>,
    /// How often the counter advances, in cycles a second, or 0.
    pub(crate) frequency: u64,
    pub(crate) format: StackFormat,
}

impl Printed for StackReport<'_> {
    ghost use Rattle.flame_graph.specs.Frames.{AreStacks};
    ghost use Rattle.xray_program.specs.Stack.{rows_text};

    ghost text = { λ report. rows_text report.format report.frequency
        (naming report.names) (map told report.rows.now) };

    ghost ready = { λ report. AreStacks (map told report.rows.now) };

    fn add_to<S: Sink>(&self, to: &mut Text<S>) -> Result<(), WriteFault> {
        match self.format {
            StackFormat::Human => self.in_lines(StackForm::Human).add_to(to),
            StackFormat::Flame => self.in_lines(StackForm::Flame).add_to(to),
            StackFormat::Svg => FlameGraph {
                rows: self.rows,
                names: self.names,
                frequency: self.frequency,
            }
            .add_to(to),
        }
    }
}

impl<'a> StackReport<'a> {
    /// The same with a line for each row.
    fn in_lines(&self, form: StackForm) -> StackText<'a>
        ensures form { result.form ≡ form }
        ensures rows { result.rows.now ≡ self.now.rows.now }
        ensures names { naming result.names ≡ naming self.now.names }
    {
        StackText {
            rows: self.rows,
            names: self.names,
            form,
        }
    }
}
