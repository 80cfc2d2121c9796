//! Laws of orders. Each law is the contract of a function that does nothing.

ghost use Rattle.std.specs.Prelude.{◌≡◌, ◌≤◌, ℕ, All, List, None, Ok, Result, length};
ghost use Rattle.xray_image.specs.Program.{IsAccepted, Program};
ghost use Rattle.audit_check.specs.Statements.{MayState, AuditStatement, run_statement};
ghost use Rattle.patch_script.specs.declared.command.PatchCommand.{PatchCommand};
ghost use Rattle.patch_script.specs.{Micros.{start_of, total_of}, Plans.{Plan, plan_of, waiting_line}, Refusals.{commands_of}};
ghost use Rattle.machine_step.specs.Buffers.{spare_of};
ghost use Rattle.machine_step.specs.declared.setup.Setup.{Setup};
ghost use Rattle.traced_run.specs.{Following.{AllMarksFollow}, Losses.{AreLost, without_losses}, Runs.{IsRun, ThreadRun}};
ghost use Rattle.step_sim.specs.declared.turns.Turns.{Turns as Line};
ghost use Rattle.step_sim.specs.{Replayed.{IsReplayOf}, Schedules.{AreTurnsOf, schedule_of}};
ghost use Rattle.step_sim.specs.WrittenSchedules.{schedule_text};
ghost use Rattle.run_order.specs.Answers.{IsOrderOrLong, IsOrdered};
ghost use Rattle.run_order.specs.declared.fault.OrderFault.{OrderFault};
ghost use Rattle.run_order.specs.{FreeScripts.{free_commands, free_text}, KeptWaits.{KeepScriptOf}, Merges.{IsMerge}, RunOrders.{IsOrderOf}};

use audit_check::some_verdict;
use machine_step::one_end;
use patch_script::awaits_bound_passings;
use step_sim::{a_written_schedule_is_read, buffers_change_no_replay};

/// The text of a script without its lines of `hold`, `release` and `await` reads as the script without
/// these commands (`reads`). Nothing waits in it, so it can be replayed. It isn't longer than the text of
/// the script (`short`).
pub fn a_script_reads_without_its_waits()
    ensures reads { (program : Program) (threads : ℕ) (text : List ℕ) (plan : Plan)
        → plan_of program threads text ≡ Ok plan
        → (free : Plan) × (plan_of program threads (free_text text) ≡ Ok free)
        × (commands_of free.lines ≡ free_commands (commands_of plan.lines)) × (waiting_line free.lines ≡ None) }
    ensures short { (text : List ℕ) → length (free_text text) ≤ length text }
{}

/// The order of a run is a schedule for its threads (`turns`). The replay of this schedule, beside the
/// script without waits, leaves the run (`leaves`): each thread has the same passings, end, last state
/// and marks. Only which segments are lost may differ.
pub fn an_order_leaves_its_run()
    ensures turns { (program : Program) (text : List ℕ) (plan : Plan) (setup : Setup) (runs : List ThreadRun)
        (schedule : List Line) → IsRun program setup runs
        → IsOrderOf program setup.threads (commands_of plan.lines) runs schedule
        → All (AreTurnsOf setup.threads) schedule }
    ensures leaves { (program : Program) (text : List ℕ) (plan : Plan) (setup : Setup) (runs : List ThreadRun)
        (schedule : List Line) → plan_of program setup.threads text ≡ Ok plan → IsRun program setup runs
        → IsOrderOf program setup.threads (commands_of plan.lines) runs schedule
        → (replayed : List ThreadRun)
        × IsReplayOf program (free_commands (commands_of plan.lines)) schedule setup replayed
        × (without_losses replayed ≡ without_losses runs) }
{
    awaits_bound_passings();
    buffers_change_no_replay();
}

/// The order of a run keeps the waits of the script. Its loads are those of threads beside the script, in
/// the order of the script's places: no load of a passing is before the release of its thread, if the script
/// holds it, or after the first await of the passing. Each load is at the least place at which its passing
/// may end with its mark, or before it.
pub fn an_order_keeps_the_waits()
    ensures { (program : Program) (script : List PatchCommand) (setup : Setup) (runs : List ThreadRun)
        (schedule : List Line) → IsRun program setup runs
        → (order : IsOrderOf program setup.threads script runs schedule)
        → KeepScriptOf program setup.threads script runs order.places }
{
    awaits_bound_passings();
}

/// The order of a run is a merge of the loads of its threads: all loads by their places in the script
/// without waits, those at one place by their threads, and all micro steps between them. If the script is
/// read, the merge begins where threads start in the script without waits, and goes up to its end
/// (`merge`). There is only one merge of the same places (`one`).
pub fn an_order_is_a_merge()
    ensures merge { (program : Program) (text : List ℕ) (plan : Plan) (setup : Setup) (runs : List ThreadRun)
        (schedule : List Line) → plan_of program setup.threads text ≡ Ok plan → IsRun program setup runs
        → (order : IsOrderOf program setup.threads (commands_of plan.lines) runs schedule)
        → IsMerge (start_of program setup.threads (free_commands (commands_of plan.lines)))
        (total_of program setup.threads (free_commands (commands_of plan.lines))) order.places schedule }
    ensures one { (start total : ℕ) (places : List (List ℕ)) (schedule other : List Line)
        → IsMerge start total places schedule → IsMerge start total places other → schedule ≡ other }
{
    awaits_bound_passings();
}

/// A run whose marks follow a script has an order (`some`), and only one (`one`). With
/// `an_order_leaves_its_run`, some schedule replays the run. So the marks of all threads together come
/// from one order of all loads and stores.
pub fn each_lawful_run_has_one_order()
    ensures some { (program : Program) (text : List ℕ) (plan : Plan) (setup : Setup) (runs : List ThreadRun)
        → plan_of program setup.threads text ≡ Ok plan → IsRun program setup runs
        → AllMarksFollow program setup.threads (commands_of plan.lines) runs
        → (schedule : List Line) × IsOrderOf program setup.threads (commands_of plan.lines) runs schedule }
    ensures one { (program : Program) (plan : Plan) (setup : Setup) (runs : List ThreadRun)
        (schedule other : List Line) → IsOrderOf program setup.threads (commands_of plan.lines) runs schedule
        → IsOrderOf program setup.threads (commands_of plan.lines) runs other → schedule ≡ other }
{
    awaits_bound_passings();
}

/// There is one answer to what an audit states (`one`), and always some answer (`some`), for an accepted
/// image and any script.
pub fn one_order_of_an_audit()
    ensures one { (bytes : List ℕ) (program : Program) (script : List PatchCommand) (statement : AuditStatement)
        (answer other : Result (List Line) OrderFault) → IsAccepted bytes program
        → IsOrdered program script statement answer → IsOrdered program script statement other → answer ≡ other }
    ensures some { (bytes : List ℕ) (program : Program) (script : List PatchCommand) (statement : AuditStatement)
        → IsAccepted bytes program → MayState statement
        → (answer : Result (List Line) OrderFault) × IsOrdered program script statement answer }
{
    awaits_bound_passings();
    one_end();
    some_verdict();
}

/// What comes of the audit of a lawful run is its order, unless this has too many lines for a schedule.
pub fn a_lawful_run_is_ordered()
    ensures { (program : Program) (script : List PatchCommand) (setup : Setup) (runs : List ThreadRun)
        → IsRun program setup runs → AllMarksFollow program setup.threads script runs
        → AreLost setup.size (spare_of setup) runs
        → (answer : Result (List Line) OrderFault)
        × IsOrdered program script (run_statement setup runs) answer × IsOrderOrLong answer }
{
    awaits_bound_passings();
}

/// If an order comes of an audit, for an accepted image and a script that is read, the text of the order
/// reads as the order (`reads`). The text has at most as many bytes as a schedule may have (`short`).
pub fn an_order_is_a_schedule()
    ensures reads { (bytes : List ℕ) (program : Program) (text : List ℕ) (plan : Plan) (statement : AuditStatement)
        (schedule : List Line) → IsAccepted bytes program → MayState statement
        → plan_of program statement.setup.threads text ≡ Ok plan
        → IsOrdered program (commands_of plan.lines) statement (Ok schedule)
        → schedule_of statement.setup.threads (schedule_text schedule) ≡ Ok schedule }
    ensures short { (bytes : List ℕ) (program : Program) (text : List ℕ) (plan : Plan) (statement : AuditStatement)
        (schedule : List Line) → IsAccepted bytes program → MayState statement
        → plan_of program statement.setup.threads text ≡ Ok plan
        → IsOrdered program (commands_of plan.lines) statement (Ok schedule)
        → length (schedule_text schedule) ≤ 16777216 }
{
    awaits_bound_passings();
    a_written_schedule_is_read();
}
