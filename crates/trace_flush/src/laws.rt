//! Laws of what is written of a run. Each law is the contract of a function that does nothing.

ghost use Rattle.std.specs.Prelude.{◌≡◌, ◌<◌, ◌≤◌, ◌+◌, ◌*◌, ◌^◌, List, ℕ, All, length};
ghost use Rattle.xray_image.specs.Program.{IsAccepted, Program};
ghost use Rattle.fdr_buffer.specs.Filled.{Filled};
ghost use Rattle.machine_step.specs.Buffers.{spare_of};
ghost use Rattle.machine_step.specs.declared.setup.Setup.{Setup};
ghost use Rattle.machine_step.specs.{Setups.{IsSetup}, Traced.{Traced}};
ghost use Rattle.traced_run.specs.{Left.{Leaves}, Losses.{AreLost, recycled_of}, Runs.{IsRun, ThreadRun}};
ghost use Rattle.trace_flush.specs.Audit.{ThreadAudit, audit_text, recycled_by, thread_audits};
ghost use Rattle.trace_flush.specs.{Flush.{trace_bytes, IsTraceOf}, Lines.{audit_lines_of, audit_of_run, audits_of}};
ghost use Rattle.trace_flush.specs.Telling.{HasNumbers, HasRunNumbers, HasSetupNumbers};

use fdr_file::a_file_reads_back;
use machine_step::one_end;
use traced_run::{a_run_fits_its_buffers, a_run_leaves_few_buffers, a_run_without_losses_is_whole};

/// The text of an audit determines its setup, what it says of its threads, and how many segments it
/// says were recycled, if all numbers have at most 64 bits. If two audits have the same text, each
/// thread has the same end, the same marks, and the same numbers. The numbers may be any: an audit may
/// say of a thread that it made three passings, and list the marks of two.
pub fn audit_tells_its_run()
    ensures threads { (setup other : Setup) (threads others : List ThreadAudit) (n m : ℕ)
        → All HasNumbers threads → All HasNumbers others
        → audit_text setup threads n ≡ audit_text other others m → threads ≡ others }
    ensures recycled { (setup other : Setup) (threads others : List ThreadAudit) (n m : ℕ)
        → All HasNumbers threads → All HasNumbers others → n < 2 ^ 64 → m < 2 ^ 64
        → audit_text setup threads n ≡ audit_text other others m → n ≡ m }
    ensures setup { (setup other : Setup) (threads others : List ThreadAudit) (n m : ℕ)
        → HasSetupNumbers setup → HasSetupNumbers other
        → audit_text setup threads n ≡ audit_text other others m → setup ≡ other }
{}

/// The audit of a run of an accepted image determines the setup and the run, and so the trace, if its
/// numbers have at most 64 bits.
pub fn one_run_of_an_audit()
    ensures { (bytes : List ℕ) (program : Program) (setup other : Setup) (runs others : List ThreadRun)
        → IsAccepted bytes program → IsRun program setup runs → IsRun program other others
        → HasRunNumbers setup runs → HasRunNumbers other others
        → audit_of_run setup runs ≡ audit_of_run other others
        → (setup ≡ other) × (runs ≡ others) × (trace_bytes setup runs ≡ trace_bytes other others) }
{
    one_end();
}

/// The trace of a run is what the marks of its threads say: a header with the setup's numbers, and
/// the last whole segments of exactly the events that they record.
pub fn a_run_is_traced()
    ensures { (bytes : List ℕ) (program : Program) (setup : Setup) (runs : List ThreadRun)
        → IsAccepted bytes program → IsSetup setup → IsRun program setup runs
        → IsTraceOf setup runs (trace_bytes setup runs) }
{
    a_file_reads_back();
    a_run_fits_its_buffers();
    a_run_without_losses_is_whole();
}

/// The trace of a run is no longer than its buffers allow: the header's 32 bytes, and for each
/// buffer its size and the 16 bytes of its extents.
pub fn a_trace_is_short()
    ensures { (bytes : List ℕ) (program : Program) (setup : Setup) (runs : List ThreadRun)
        → IsAccepted bytes program → IsSetup setup → IsRun program setup runs
        → AreLost setup.size (spare_of setup) runs
        → length (trace_bytes setup runs) ≤ setup.max * (setup.size + 16) + 32 }
{
    a_run_fits_its_buffers();
    a_run_leaves_few_buffers();
}

/// The audit of what a run leaves is that of the run. For each thread it says its number, its end, its
/// segments, how many of them are lost, and its marks, and how many segments are lost in all.
pub fn a_run_is_audited()
    ensures threads { (setup : Setup) (runs : List ThreadRun) (cpus : List Traced) (segments first : List ℕ)
        (buffers : List Filled) → Leaves setup runs cpus segments first buffers
        → thread_audits (audit_lines_of cpus segments first) cpus ≡ audits_of setup runs }
    ensures recycled { (setup : Setup) (runs : List ThreadRun) (cpus : List Traced) (segments first : List ℕ)
        (buffers : List Filled) → Leaves setup runs cpus segments first buffers
        → recycled_by (audit_lines_of cpus segments first) ≡ recycled_of runs }
{}
