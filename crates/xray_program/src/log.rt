//! A log: a trace, or a basic log.
ghost use Rattle.std.specs.Prelude.{◌≡◌, ◌⊎◌, ℕ, List, Ok, Err, Some, IfErr, IfOk, OnOk};
ghost use Rattle.fdr_file.specs.declared.trace.Trace.{Trace};
ghost use Rattle.fdr_file.specs.Traces.{trace_of};
ghost use Rattle.trace_forms.specs.BasicLogs.{basic_of};
ghost use Rattle.xray_program.specs.Inputs.{basic_form, trace_form};
ghost use Rattle.xray_program.specs.private.Logs.{LogMeans, log_words};

use crate::inputs::TRACE;
use crate::stream::StreamKind;
use crate::trace_feed::TraceFeed;
use command_words::{InputForm, TRACE_LIMIT};
use fault_words::{Fault, Words};
use fdr_file::{KeepNothing, Trace, TraceFault};
use std::alloc::Global;
use trace_forms::{BasicFault, read_basic};
use trace_words::TraceRefusal;
use xray_io::Feed;

/// What is known of a log that was judged.
#[derive(Drop)]
pub(crate) enum Log {
    /// The bytes of a trace. No list of its events is made.
    Fdr(Vec<u8>),
    /// The trace that a basic log reads as.
    Basic(Trace),
}

/// Why bytes aren't a log.
#[derive(Clone, Copy)]
pub(crate) enum LogFault {
    /// They aren't a trace.
    Fdr(TraceFault),
    /// They aren't a basic log.
    Basic(BasicFault),
}

impl Fault for LogFault {
    ghost told = { log_words };

    fn refusal(&self) -> Option<Words<'static>> {
        match *self {
            LogFault::Fdr(fault) => (TraceRefusal { fault }).refusal(),
            LogFault::Basic(fault) => fault.refusal(),
        }
    }
}

/// A log in the form that the words say.
#[derive(Drop)]
pub(crate) struct LogKind {
    /// The form.
    pub(crate) form: InputForm,
}

impl StreamKind for LogKind {
    ghost use Rattle.xray_program.specs.Convert.{log_form};

    type Meaning = Trace;

    type Pieces = Vec<u8>;

    type Value = Log;

    type Refusal = LogFault;

    ghost form = { λ k. log_form k.form };

    ghost means = { λ _. LogMeans };

    #[tactic(auto, using(crate::proofs::LogForms::log_kind))]
    fn word(&self) -> &'static str {
        TRACE
    }

    #[tactic(auto, using(crate::proofs::LogForms::log_limit))]
    fn limit(&self) -> u64 {
        TRACE_LIMIT
    }

    fn begin(&self, alloc: Global) -> Vec<u8> {
        Vec::new(alloc)
    }

    fn judge(&self, alloc: Global, bytes: Vec<u8>) -> Result<Log, LogFault> {
        match self.form {
            InputForm::Fdr => judge_trace(bytes),
            InputForm::Basic => judge_basic(alloc, &bytes),
        }
    }
}

/// The bytes, if they are a trace.
fn judge_trace(bytes: Vec<u8>) -> Result<Log, LogFault>
    ensures reads { IfOk result (λ log. (trace : Trace) × LogMeans log trace
        × (trace_of bytes.items ≡ Ok trace)) }
    ensures refuses { IfErr result (λ fault. (refusal : List ℕ) → log_words fault ≡ Some refusal
        → trace_form.Refuses bytes.items refusal) }
{
    match scan(&bytes) {
        Ok(()) => Ok(Log::Fdr(bytes)),
        Err(fault) => Err(LogFault::Fdr(fault)),
    }
}

/// Whether bytes are a trace. The answer is an error if they aren't. No list of events is made.
fn scan(bytes: &[u8]) -> Result<(), TraceFault>
    ensures reads { OnOk result ((trace : Trace) × (trace_of bytes.now ≡ Ok trace)) }
    ensures faults { IfErr result (λ fault. (trace_of bytes.now ≡ Err fault) ⊎ (fault ≡ TraceFault.NoMemory)) }
{
    let mut feed = TraceFeed::new(KeepNothing);
    feed.feed(bytes)?;
    feed.finish()?;
    Ok(())
}

/// The trace that bytes read as, if they are a basic log.
fn judge_basic(alloc: Global, bytes: &[u8]) -> Result<Log, LogFault>
    ensures reads { IfOk result (λ log. (trace : Trace) × LogMeans log trace
        × (basic_of bytes.now ≡ Ok trace)) }
    ensures refuses { IfErr result (λ fault. (refusal : List ℕ) → log_words fault ≡ Some refusal
        → basic_form.Refuses bytes.now refusal) }
{
    match read_basic(alloc, bytes) {
        Ok(trace) => Ok(Log::Basic(trace)),
        Err(fault) => Err(LogFault::Basic(fault)),
    }
}
