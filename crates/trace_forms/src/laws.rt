//! Laws of the further forms. Each law is the contract of a function that does nothing.

ghost use Rattle.std.specs.Prelude.{◌≡◌, ◌<◌, All, List, None, Ok, ℕ};
ghost use Rattle.fdr_file.specs.declared.trace.{Block.{Block}, Trace.{Trace}};
ghost use Rattle.fdr_file.specs.{ThreadEvents.{ThreadEvent, thread_events}, Traces.{trace_of}};
ghost use Rattle.trace_forms.specs.{BasicLogs.{LogReadsAs, TraceFits, basic_of, wide_cpu}, Runs.{AreRuns, runs}};

use fdr_file::what_is_read_fits;

/// The basic log of a trace reads back with the same frequency and the same events, each with its
/// thread and its process, in the same order. Its fields have to fit the bytes that a record has for
/// them. Those of a trace that was read from bytes do, if each CPU is below 256, and so do those of a
/// basic log that was read.
pub fn a_basic_log_reads_back()
    ensures fits { (trace : Trace) → TraceFits trace → (back : Trace) × LogReadsAs trace back }
    ensures read { (bytes : List ℕ) (trace : Trace) → All (λ b. b < 256) bytes
        → trace_of bytes ≡ Ok trace → wide_cpu (thread_events trace.blocks) ≡ None
        → (back : Trace) × LogReadsAs trace back }
    ensures log { (bytes : List ℕ) (trace : Trace) → All (λ b. b < 256) bytes
        → basic_of bytes ≡ Ok trace → (back : Trace) × LogReadsAs trace back }
{
    what_is_read_fits();
}

/// The runs of events are blocks with these events, in order. None is empty, and no two that follow
/// each other are of one thread and one process. No other blocks are so, with a wall time of 0.
pub fn runs_are_longest()
    ensures are { (events : List ThreadEvent) → AreRuns events (runs events) }
    ensures only { (events : List ThreadEvent) (blocks : List Block) → AreRuns events blocks
        → blocks ≡ runs events }
{}
