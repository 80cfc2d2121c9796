//! Laws of audits and of verdicts. Each law is the contract of a function that does nothing.

ghost use Rattle.std.specs.Prelude.{◌≡◌, ℕ, List, Result};
ghost use Rattle.xray_image.specs.Program.{IsAccepted, Program};
ghost use Rattle.patch_script.specs.declared.command.PatchCommand.{PatchCommand};
ghost use Rattle.machine_step.specs.{Buffers.{spare_of}, Setups.{IsSetup}};
ghost use Rattle.machine_step.specs.declared.setup.Setup.{Setup};
ghost use Rattle.traced_run.specs.{Following.{AllMarksFollow}, Losses.{AreLost}, Runs.{IsRun, ThreadRun}};
ghost use Rattle.trace_flush.specs.{Flush.{trace_bytes}, Lines.{audit_of_run}};
ghost use Rattle.audit_check.specs.declared.fault.AuditFault.{AuditFault};
ghost use Rattle.audit_check.specs.declared.verdict.Verdict.{Verdict};
ghost use Rattle.audit_check.specs.declared.verdict.Verdict.TheVariants.{Yes};
ghost use Rattle.audit_check.specs.Reading.{ReadsAsAudit};
ghost use Rattle.audit_check.specs.Statements.{MayState, AuditStatement, run_statement, text_of};
ghost use Rattle.audit_check.specs.Verdicts.{IsJudged};

use machine_step::{one_end, passings_are_limited, some_end};
use text_lines::a_written_number_is_itself;
use trace_flush::audit_tells_its_run;

/// Bytes read as one statement, or are refused at one line.
pub fn one_reading()
    ensures { (bytes : List ℕ) (reading other : Result AuditStatement AuditFault)
        → ReadsAsAudit bytes reading → ReadsAsAudit bytes other → reading ≡ other }
{
    audit_tells_its_run();
}

/// Any bytes read as a statement, or are refused at a line. With `one_reading` there is exactly one
/// reading of them.
pub fn some_reading()
    ensures { (bytes : List ℕ) → (reading : Result AuditStatement AuditFault) × ReadsAsAudit bytes reading }
{
    a_written_number_is_itself();
}

/// There is only one verdict on a statement and a trace, for an accepted image and a script.
pub fn one_verdict()
    ensures { (bytes : List ℕ) (program : Program) (script : List PatchCommand) (statement : AuditStatement)
        (trace : List ℕ) (verdict other : Verdict) → IsAccepted bytes program
        → IsJudged program script statement trace verdict → IsJudged program script statement trace other
        → verdict ≡ other }
{
    one_end();
}

/// There is a verdict on any statement that an audit may make and any trace, for an accepted image and
/// any script.
pub fn some_verdict()
    ensures { (bytes : List ℕ) (program : Program) (script : List PatchCommand) (statement : AuditStatement)
        (trace : List ℕ) → IsAccepted bytes program → MayState statement
        → (verdict : Verdict) × IsJudged program script statement trace verdict }
{
    some_end();
}

/// The verdict on the audit and the trace of a lawful run is `Yes` (`yes`): the marks of its threads
/// follow the script, and as many segments are lost as the threads' queue had no spare buffers for. This
/// is what a replay and a run on real threads promise. Its audit is read as what the run states (`read`).
pub fn a_lawful_run_is_accepted()
    ensures read { (program : Program) (script : List PatchCommand) (setup : Setup) (runs : List ThreadRun)
        → IsSetup setup → IsRun program setup runs → AllMarksFollow program setup.threads script runs
        → AreLost setup.size (spare_of setup) runs
        → MayState (run_statement setup runs) × (audit_of_run setup runs ≡ text_of (run_statement setup runs)) }
    ensures yes { (program : Program) (script : List PatchCommand) (setup : Setup) (runs : List ThreadRun)
        → IsRun program setup runs → AllMarksFollow program setup.threads script runs
        → AreLost setup.size (spare_of setup) runs
        → IsJudged program script (run_statement setup runs) (trace_bytes setup runs) Yes }
{
    passings_are_limited();
}
