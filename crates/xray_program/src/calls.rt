//! `calls`: the calls of a trace, one by one.
ghost use Rattle.std.specs.Prelude.{◌≡◌, IfSome};
ghost use Rattle.fdr_file.specs.declared.trace.Trace.{Trace};
ghost use Rattle.xray_program.specs.Calls.{listed_calls};
ghost use Rattle.xray_program.specs.private.Meant.{CallsMean};

use crate::account_options::format_of;
use crate::calls_options::{call_filter_of, call_order_of};
use crate::delivery::{NoOutputs, deliver};
use crate::inputs::TRACE;
use crate::report_inputs::{ReportInputs, take_report};
use crate::stop::Stop;
use crate::stream::StreamKind;
use crate::trace_feed::TraceFeed;
use crate::work::Work;
use call_rows::{CallRow, CallsText, KeptCalls};
use command_words::{CallsOptions, NameSource, TRACE_LIMIT};
use fdr_file::{Taker, Trace, TraceFault};
use std::alloc::Global;
use trace_words::TraceRefusal;
use xray_io::{Desk, Sink};

/// A trace whose calls are listed.
#[derive(Drop)]
struct CallsKind {
    /// The calls that are printed, and their order.
    options: CallsOptions,
}

impl StreamKind for CallsKind {
    ghost use Rattle.xray_program.specs.Inputs.{trace_form};

    type Meaning = Trace;

    type Pieces = TraceFeed<KeptCalls>;

    type Value = Vec<CallRow>;

    type Refusal = TraceRefusal;

    ghost form = { λ _. trace_form };

    ghost means = { λ k. CallsMean k.options };

    fn word(&self) -> &'static str {
        TRACE
    }

    fn limit(&self) -> u64 {
        TRACE_LIMIT
    }

    fn begin(&self, alloc: Global) -> TraceFeed<KeptCalls> {
        let wanted = call_filter_of(&self.options);
        TraceFeed::new(KeptCalls::new(alloc, wanted, call_order_of(&self.options)))
    }

    fn judge(
        &self,
        _alloc: Global,
        feed: TraceFeed<KeptCalls>,
    ) -> Result<Vec<CallRow>, TraceRefusal> {
        match feed.finish() {
            Ok(kept) => match rows_of(kept, &self.options) {
                Some(rows) => Ok(rows),
                None => Err(TraceRefusal {
                    fault: TraceFault::NoMemory,
                }),
            },
            Err(fault) => Err(TraceRefusal { fault }),
        }
    }
}

/// The calls of the blocks that were taken, as the options ask for them. `None` if others were kept.
fn rows_of(kept: KeptCalls, options: &CallsOptions) -> Option<Vec<CallRow>>
    ensures { IfSome result (λ rows. (trace : Trace) →
        ⟦<KeptCalls as Taker>⟧.took kept trace.blocks → CallsMean options.now rows trace) }
{
    kept.rows_for(&call_filter_of(options), &call_order_of(options))
}

/// `calls TRACE [IMAGE]`.
#[derive(Drop)]
pub(crate) struct Calls<'a> {
    /// The trace's name.
    pub(crate) trace: &'a str,
    /// What names its functions.
    pub(crate) names: NameSource<'a>,
    /// The calls that are printed, their order, and their form.
    pub(crate) options: CallsOptions,
}

impl<'a> Work<'a> for Calls<'a> {
    ghost use Rattle.std.specs.Prelude.{⊤};
    ghost use Rattle.command_words.specs.Views.{source_view};
    ghost use Rattle.command_words.specs.Words as words;
    ghost use Rattle.xray_program.specs.private.ReportTakes.{AreOfReport};

    type Inputs = ReportInputs<Vec<CallRow>>;

    ghost says = { λ c. words.Calls c.trace.now (source_view c.names) c.options };

    ghost means = { λ c. AreOfReport (CallsMean c.options) };

    ghost fits = { λ _ _. ⊤ };

    fn take<D: Desk>(
        &self,
        alloc: Global,
        desk: &mut D,
    ) -> Result<ReportInputs<Vec<CallRow>>, Stop<'a>> {
        let kind = CallsKind {
            options: self.options,
        };
        take_report(alloc, desk, self.trace, &kind, self.names)
    }

    fn finish<D: Desk, O: Sink>(
        &self,
        _alloc: Global,
        inputs: &ReportInputs<Vec<CallRow>>,
        desk: &mut D,
        out: &mut O,
    ) -> Result<(), Stop<'a>> {
        let text = CallsText {
            rows: &inputs.log,
            names: inputs.names.as_names(),
            format: format_of(self.options.format),
        };
        deliver(desk, out, &NoOutputs, &text, None)
    }
}
