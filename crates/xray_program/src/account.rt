//! `account`: how often the functions of a trace were called, and for how long.
ghost use Rattle.std.specs.Prelude.{◌≡◌, List, IfErr, IfOk, None};
ghost use Rattle.account_report.specs.{Account.{account_of}, AccountText.{latencies_of}, Ordered.{arranged}};
ghost use Rattle.fdr_file.specs.declared.trace.{Block.{Block}, Trace.{Trace}};
ghost use Rattle.trace_words.specs.TraceWords.{trace_words};
ghost use Rattle.xray_program.specs.Account.{is_descending, key_of};
ghost use Rattle.xray_program.specs.private.Meant.{AccountMeans};

use crate::account_options::{format_of, is_descending, key_of};
use crate::delivery::{NoOutputs, deliver};
use crate::inputs::TRACE;
use crate::report_inputs::{ReportInputs, take_report};
use crate::stop::Stop;
use crate::stream::StreamKind;
use crate::trace_feed::TraceFeed;
use crate::work::Work;
use account_report::{AccountFold, AccountRow, AccountText, order_rows};
use command_words::{AccountOptions, NameSource, TRACE_LIMIT};
use fdr_file::{Taker, Trace, TraceFault};
use std::alloc::Global;
use trace_words::TraceRefusal;
use xray_io::{Desk, NoMemory, Sink};

/// The account of a trace.
#[derive(Drop)]
pub(crate) struct AccountRows {
    /// The rows that are printed, in their order.
    rows: Vec<AccountRow>,
    /// How many functions have a pair.
    latencies: u64,
}

/// A trace of which an account is made.
#[derive(Drop)]
struct AccountKind {
    /// The rows that are printed, and their order.
    options: AccountOptions,
}

impl StreamKind for AccountKind {
    ghost use Rattle.xray_program.specs.Inputs.{trace_form};

    type Meaning = Trace;

    type Pieces = TraceFeed<AccountFold>;

    type Value = AccountRows;

    type Refusal = TraceRefusal;

    ghost form = { λ _. trace_form };

    ghost means = { λ k. AccountMeans k.options };

    fn word(&self) -> &'static str {
        TRACE
    }

    fn limit(&self) -> u64 {
        TRACE_LIMIT
    }

    fn begin(&self, alloc: Global) -> TraceFeed<AccountFold> {
        TraceFeed::new(AccountFold::new(alloc))
    }

    fn judge(
        &self,
        _alloc: Global,
        feed: TraceFeed<AccountFold>,
    ) -> Result<AccountRows, TraceRefusal> {
        match feed.finish() {
            Ok(fold) => match account_rows(fold, self.options) {
                Ok(rows) => Ok(rows),
                Err(_) => Err(TraceRefusal {
                    fault: TraceFault::NoMemory,
                }),
            },
            Err(fault) => Err(TraceRefusal { fault }),
        }
    }
}

/// The account of the blocks that a fold took, as the options ask for it.
fn account_rows(fold: AccountFold, options: AccountOptions) -> Result<AccountRows, NoMemory>
    ensures { IfOk result (λ account. (trace : Trace) →
        ⟦<AccountFold as Taker>⟧.took fold trace.blocks → AccountMeans options account trace) }
{
    let (mut rows, latencies) = fold.rows()?;
    order_rows(
        &mut rows,
        key_of(options.sort),
        is_descending(options.order),
        options.top,
    );
    Ok(AccountRows { rows, latencies })
}

/// `account TRACE [IMAGE]`.
#[derive(Drop)]
pub(crate) struct Account<'a> {
    /// The trace's name.
    pub(crate) trace: &'a str,
    /// What names its functions.
    pub(crate) names: NameSource<'a>,
    /// The rows that are printed, their order, and their form.
    pub(crate) options: AccountOptions,
}

impl<'a> Work<'a> for Account<'a> {
    ghost use Rattle.std.specs.Prelude.{⊤};
    ghost use Rattle.xray_program.specs.private.ReportTakes.{AreOfReport};
    ghost use Rattle.command_words.specs.Views.{source_view};
    ghost use Rattle.command_words.specs.Words as words;

    type Inputs = ReportInputs<AccountRows>;

    ghost says = { λ a. words.Account a.trace.now (source_view a.names) a.options };

    ghost means = { λ a. AreOfReport (AccountMeans a.options) };

    ghost fits = { λ _ _. ⊤ };

    fn take<D: Desk>(
        &self,
        alloc: Global,
        desk: &mut D,
    ) -> Result<ReportInputs<AccountRows>, Stop<'a>> {
        let kind = AccountKind {
            options: self.options,
        };
        take_report(alloc, desk, self.trace, &kind, self.names)
    }

    fn finish<D: Desk, O: Sink>(
        &self,
        _alloc: Global,
        inputs: &ReportInputs<AccountRows>,
        desk: &mut D,
        out: &mut O,
    ) -> Result<(), Stop<'a>> {
        let text = AccountText {
            rows: &inputs.log.rows,
            latencies: inputs.log.latencies,
            names: inputs.names.as_names(),
            format: format_of(self.options.format),
        };
        deliver(desk, out, &NoOutputs, &text, None)
    }
}
