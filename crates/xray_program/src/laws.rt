//! Laws of what the program means. Each law is the contract of a function that does nothing.
ghost use Rattle.std.specs.Prelude.{◌≡◌, ◌≢◌, ◌<◌, ◌⊎◌, ◌↔◌, ◌∷◌, ◌++◌, [], ℕ, List, Option, None, Some, Ok, All, IsPermutation, map};
ghost use Rattle.audit_check.specs.{Reading.{ReadsAsAudit}, Statements.{AuditStatement}};
ghost use Rattle.audit_check.specs.Texts.{verdict_text};
ghost use Rattle.audit_check.specs.declared.verdict.Verdict.TheVariants.{Yes};
ghost use Rattle.command_words.specs.Files.{inputs_in, names_given, names_of, row_of};
ghost use Rattle.machine_step.specs.Buffers.{spare_of};
ghost use Rattle.machine_step.specs.declared.setup.Setup.{Setup};
ghost use Rattle.patch_script.specs.declared.command.PatchCommand.{PatchCommand};
ghost use Rattle.patch_script.specs.{Plans.{Plan, plan_of}, Refusals.{commands_of}};
ghost use Rattle.trace_flush.specs.Telling.{HasRunNumbers};
ghost use Rattle.traced_run.specs.{Following.{AllMarksFollow}, Losses.{AreLost}, Recording.{RecordsAll}, Runs.{IsRun, ThreadRun, events_of}};
ghost use Rattle.xray_image.specs.Program.{IsAccepted, Program};
ghost use Rattle.xray_io.specs.Desk.{Entry, Holds};
ghost use Rattle.xray_io.specs.World.{World};
ghost use Rattle.xray_program.specs.{Accepted.{AreAccepted, CountsNoFault, HasAnOrder}, Answers.{IsAnswer}};
ghost use Rattle.xray_program.specs.Commands.{IsDecided, IsProfile, Means, TellsAll, doing_of};
ghost use Rattle.xray_program.specs.{
  Headline.{HaveHeadline},
  Import.{RunsImportThemselves},
  OrderReplays.{HaveSameThreads, IsLeftByOrder, IsLeftByRun, IsOrderedOrLong, LeavesRunsOf},
  OtherOptions.{LeavesAlike},
  Profile.{profile_of, states_before, trouble_of},
  ProfiledStacks.{MakeMarksOf},
  SameRuns.{MayLeaveWhole},
  Setups.{setup_of},
  Spoken.{commands_said},
};
ghost use Rattle.xray_program.specs.Outcomes.{Done, Outcome, status_of, written_by};
ghost use Rattle.xray_program.specs.private.CallLaws.{CallLaws};
ghost use Rattle.xray_program.specs.private.Lawful.{IsLawfulDoing};
ghost use Rattle.machine_step.specs.Setups.{IsSetup};
ghost use Rattle.xray_program.specs.{Stack.{rows_text}, Traced.{IsReported, state_texts}};
ghost use Rattle.call_trie.specs.Tries.{state_after};
ghost use Rattle.command_words.specs.declared.profile_options.ProfileOptions.{ProfileOptions};
ghost use Rattle.function_names.specs.Name.{program_names};
ghost use Rattle.command_words.specs.Ranges.{AreRunOptions};
ghost use Rattle.command_words.specs.Words.{Check, Command, Order, Run, Sim};
ghost use Rattle.command_words.specs.declared.run_options.RunOptions.{RunOptions};
ghost use Rattle.fdr_file.specs.declared.trace.Trace.{Trace};
ghost use Rattle.flame_graph.specs.Laws.{LowestAddUp, NoneSticksOut};
ghost use Rattle.stack_rebuild.specs.Stacks.{stack_of, stack_of_threads};

use crate::drawn::each_input_is_read;
use audit_check::{a_lawful_run_is_accepted, one_reading, some_reading};
use fdr_buffer::segments_hold_all;
use fdr_file::{a_file_reads_back, a_trace_is_read};
use flame_graph::{no_frame_sticks_out, stacks_can_be_drawn, the_lowest_frames_add_up};
use machine_step::{one_end, some_end, some_marks_follow, what_follows_is_allowed};
use patch_script::{each_script_keeps_sleds, each_script_lets_threads_end};
use run_order::{
    a_lawful_run_is_ordered, a_script_reads_without_its_waits, an_order_is_a_schedule,
    an_order_leaves_its_run, one_order_of_an_audit,
};
use runtime_log::{a_trace_in_order_is_imported_as_itself, one_import, some_import};
use stack_rebuild::stacks_are_of_threads;
use step_sim::{
    a_replay_loses_few, buffers_change_no_replay, marks_of_a_replay_follow, no_replay_tears_a_sled,
    one_replay, one_run, some_run,
};
use trace_flush::{a_run_is_traced, a_trace_is_short};
use traced_run::{
    a_run_fits_its_buffers, a_script_that_records_all_leaves_one_run,
    a_whole_run_executes_to_its_end, some_losses_are_of_a_queue, stamps_change_no_run,
};
use xray_image::{one_verdict, some_verdict};

/// A law. No thread of a replay decodes a torn sled, and none of a run does. So each thread that
/// executes its code always comes to the end of its plain run. A replay loses as few segments as its
/// buffers allow, and makes the same loads as one without buffers.
pub(crate) fn what_runs_leave()
    ensures { CallLaws }
{
    no_replay_tears_a_sled();
    each_script_keeps_sleds();
    what_follows_is_allowed();
    a_replay_loses_few();
    buffers_change_no_replay();
    a_whole_run_executes_to_its_end();
}

/// A law. Each command is lawful: its inputs are read in one way or are refused for one reason, what it
/// finds is there and is only one thing, and there is something to choose where it chooses.
fn each_command_is_lawful()
    ensures { (command : Command) → IsLawfulDoing (doing_of command) }
{
    one_verdict();
    some_verdict();
    one_end();
    some_end();
    one_run();
    some_run();
    each_script_lets_threads_end();
    some_marks_follow();
    some_losses_are_of_a_queue();
    each_input_is_read();
    a_run_is_traced();
    a_trace_is_read();
    one_reading();
    some_reading();
    audit_check::one_verdict();
    audit_check::some_verdict();
    one_order_of_an_audit();
    one_import();
    some_import();
    what_runs_leave();
}

/// If a command leaves nothing to choice, its words mean only one thing over a desk that reports every
/// name: one status and one line on err, or the same outputs and the same text.
pub fn one_meaning()
    ensures { (said : Option Command) (held : List ℕ → Entry) (one other : Outcome)
        → TellsAll held → IsDecided said → Means said held one → Means said held other → one ≡ other }
{
    each_command_is_lawful();
}

/// If words mean an outcome that writes nothing, they mean nothing else, over a desk that reports
/// every name. This holds for every command.
pub fn refusal_is_the_only_meaning()
    ensures { (said : Option Command) (held : List ℕ → Entry) (refusal other : Outcome)
        → TellsAll held → written_by refusal ≡ None → Means said held refusal → Means said held other
        → other ≡ refusal }
{
    each_command_is_lawful();
}

/// Words mean something over a desk that reports every name, whatever bytes the names hold. For
/// `run` and `profile` this says that each script that is read has lawful runs: its awaits and holds
/// leave a place for each load of each thread. For `check` it says that bytes are an audit or are
/// refused at a line, and that there is a verdict on any audit and any trace. For `order` it says that
/// the run of an audit has an order, or is refused.
pub fn some_meaning()
    ensures { (said : Option Command) (held : List ℕ → Entry) → TellsAll held
        → ((name bytes : List ℕ) → held name ≡ Holds bytes → All (λ b. b < 256) bytes)
        → (outcome : Outcome) × Means said held outcome }
{
    each_command_is_lawful();
}

/// The inputs of a command, whose turns come one after another, are the files that are read by its
/// row in the table of commands, and those that its options name. They may be taken in another order
/// than that of their names.
pub fn inputs_follow_the_rows()
    ensures { (command : Command)
        → IsPermutation (inputs_in (row_of command).files (names_of command) ++ names_given command)
        (doing_of command).names }
{}

/// If words say a command, each of its inputs is held, within its limit and accepted, nothing else is
/// wrong with them (`AreAccepted`), and no fault is counted, then the status is 0, unless memory runs
/// out, or the recorder of a `profile` stops. For `run` and `profile` this is about a call that
/// returns. `IsAnswer` is the field `complete` of the contract of a call.
pub fn accepted_inputs_mean_done()
    ensures { (command : Command) (before after : World) (status : ℕ)
        → AreAccepted before.desk.held command → CountsNoFault before after
        → IsAnswer (Some command) before after status
        → (status ≡ 0) ⊎ (status ≡ 5) ⊎ ((status ≡ 7) × IsProfile command) }
{
    each_command_is_lawful();
}

/// The inputs of an `order` are accepted (`AreAccepted`) exactly if the run that the audit states has an
/// order. `AreAccepted` says that each answer to the audit is written. There is exactly one answer.
pub fn accepted_orders_are_written()
    ensures { (held : List ℕ → Entry) (i s a f o : List ℕ)
        → AreAccepted held (Order i s a f o) ↔ HasAnOrder held i s a }
{
    one_order_of_an_audit();
}

/// Only the words of a `profile` mean an outcome with status 7, whatever the desk holds.
pub fn only_profiles_mean_7()
    ensures { (said : Option Command) (held : List ℕ → Entry) (outcome : Outcome)
        → Means said held outcome → status_of outcome ≡ 7
        → (command : Command) × (said ≡ Some command) × IsProfile command }
{}

/// What is done is of one list of runs, which have run lawfully. Suppose that words mean an outcome that
/// writes, over a desk that held the inputs of their `sim`, `run` or `profile`. Then the image is
/// accepted. No thread of these runs has decoded a torn sled, and each ends as its plain run does, by
/// loads that follow the lines of the schedule or of the script. What is written is exactly what these
/// runs leave: the trace, the audit and the state texts, or the stacks. The calls cite it for the headline
/// of what is done (`LeavesAll`).
pub fn what_is_done_is_traced()
    ensures { HaveHeadline }
{
    buffers_change_no_replay();
}

/// The audit of a run has only numbers of 64 bits (`HasRunNumbers`), if a run may have its setup, the marks
/// of its threads follow a script, and as many segments are lost as its queue had no buffers for. This is
/// true of each list of runs that `sim` or `run` means. So the law `one_run_of_an_audit` of `trace_flush`
/// says that their audit determines them.
pub fn a_lawful_run_has_small_numbers()
    ensures { (program : Program) (script : List PatchCommand) (setup : Setup) (runs : List ThreadRun)
        → IsSetup setup → IsRun program setup runs → AllMarksFollow program setup.threads script runs
        → AreLost setup.size (spare_of setup) runs → HasRunNumbers setup runs }
{
    a_lawful_run_is_accepted();
}

/// The reports take the trace of a run that its setup allows (`IsSetup`): its bytes are the trace of the
/// run (`IsTraceOf`), a report reads that many bytes, and they read as this trace. With the headline,
/// this says what the file of a `sim` or a `run` reads as.
pub fn reports_take_a_run()
    ensures { (image : List ℕ) (program : Program) (setup : Setup) (runs : List ThreadRun)
        → IsAccepted image program → IsSetup setup → IsRun program setup runs
        → AreLost setup.size (spare_of setup) runs → IsReported setup runs }
{
    a_run_is_traced();
    a_trace_is_short();
    a_trace_is_read();
}

/// The trace that `sim` or `run` wrote is imported as itself, byte for byte, if the counter of no thread
/// falls, and no two segments of a thread have the same events. With `--tick 0` two of them may. Then
/// `import` leaves one of them out. If the counter rises from each event to the next, no two do.
pub fn a_run_is_imported_as_itself()
    ensures { RunsImportThemselves }
{
    a_trace_in_order_is_imported_as_itself();
    segments_hold_all();
    a_run_fits_its_buffers();
    a_file_reads_back();
}

/// What `sim` and `run` leave is accepted. If a desk holds the trace and the audit that one of them means
/// to leave, beside the same image and the same script, then `check` of these four means `yes`.
pub fn what_is_left_is_accepted()
    ensures sim { (held after : List ℕ → Entry) (i s c t a : List ℕ) (options : RunOptions) (trace audit text : List ℕ)
        → AreRunOptions options → Means (Some (Sim i s c t a options)) held (Done ((t, trace) ∷ (a, audit) ∷ []) text)
        → after i ≡ held i → after s ≡ held s → after t ≡ Holds trace → after a ≡ Holds audit
        → Means (Some (Check i s t a)) after (Done [] (verdict_text Yes)) }
    ensures run { (held after : List ℕ → Entry) (i s t a : List ℕ) (options : RunOptions) (trace audit text : List ℕ)
        → AreRunOptions options → Means (Some (Run i s t a options)) held (Done ((t, trace) ∷ (a, audit) ∷ []) text)
        → after i ≡ held i → after s ≡ held s → after t ≡ Holds trace → after a ≡ Holds audit
        → Means (Some (Check i s t a)) after (Done [] (verdict_text Yes)) }
{
    a_lawful_run_is_accepted();
    a_trace_is_short();
    marks_of_a_replay_follow();
}

/// What `order` writes is replayed. If a desk holds the script without waits and the schedule that `order`
/// means to leave of an audit, beside the same image, then `sim` of these three means to leave the runs of
/// which the audit speaks, if it has as many threads and the same limits. It prints their state texts, and
/// its audit states the same ends and marks. Only which segments are lost may differ. If the setup is the
/// same, the losses are those of a run (`AreLost`) and no segment is lost, it leaves the very trace.
pub fn what_is_ordered_is_replayed()
    ensures { (held after : List ℕ → Entry) (i s a f o t b : List ℕ) (options : RunOptions)
        (image audit free schedule : List ℕ) (statement : AuditStatement)
        → held i ≡ Holds image → held a ≡ Holds audit → ReadsAsAudit audit (Ok statement)
        → HaveSameThreads (setup_of options) statement.setup
        → IsLeftByOrder held after i s a f o free schedule
        → LeavesRunsOf (Means (Some (Sim i f o t b options)) after) image t b (setup_of options) statement }
{
    what_runs_leave();
    one_reading();
    a_script_reads_without_its_waits();
    an_order_leaves_its_run();
    an_order_is_a_schedule();
}

/// A run can be replayed. If a desk holds the audit that `run` means to leave, beside the same image and
/// the same script, then `order` of these means an order, or refuses the audit as `Long` (`ordered`). If it
/// means an order, `sim` replays it: with as many threads and the same limits, it means to print the same
/// text (`replayed`). With an equal setup, and if the audit states that no segment was recycled, it means to
/// leave the same trace and the same audit (`whole`).
pub fn a_run_is_replayed()
    ensures ordered { (held after : List ℕ → Entry) (i s t a f o : List ℕ) (options : RunOptions)
        (image trace audit text : List ℕ) → IsLeftByRun held after i s t a options image trace audit text
        → IsOrderedOrLong (Means (Some (Order i s a f o)) after) a f o }
    ensures replayed { (held after last : List ℕ → Entry) (i s t a f o u b : List ℕ) (options other : RunOptions)
        (image trace audit text free schedule : List ℕ)
        → IsLeftByRun held after i s t a options image trace audit text
        → IsLeftByOrder after last i s a f o free schedule
        → HaveSameThreads (setup_of other) (setup_of options)
        → (outputs : List (List ℕ × List ℕ)) × Means (Some (Sim i f o u b other)) last (Done outputs text) }
    ensures whole { (held after last : List ℕ → Entry) (i s t a f o u b : List ℕ) (options other : RunOptions)
        (image trace audit text free schedule : List ℕ) (statement : AuditStatement)
        → IsLeftByRun held after i s t a options image trace audit text
        → IsLeftByOrder after last i s a f o free schedule → setup_of other ≡ setup_of options
        → ReadsAsAudit audit (Ok statement) → statement.recycled ≡ 0
        → Means (Some (Sim i f o u b other)) last (Done ((u, trace) ∷ (b, audit) ∷ []) text) }
{
    what_runs_leave();
    one_reading();
    one_end();
    a_lawful_run_is_accepted();
    a_lawful_run_is_ordered();
    a_script_reads_without_its_waits();
    an_order_leaves_its_run();
    an_order_is_a_schedule();
    xray_image::one_reading();
}

/// What a profile and a run print of the same calls is the same. If the threads of a `profile` make the
/// marks of a `run` or a `sim`, and no segment of that one is lost (`MakeMarksOf`), then the rows that
/// `profile` prints are those that `stack` prints of the trace. If no recorder stops, `profile` prints the
/// state texts of the run, and then these rows, with the names of the image, as `stack` prints them of a
/// counter with no frequency. Only a picture shows the frequency.
pub fn a_profile_prints_the_stacks_of_a_run()
    ensures rows { (program : Program) (setup : Setup) (runs : List ThreadRun) (trace : Trace) (options : ProfileOptions)
        (profiled : List ThreadRun) → MakeMarksOf program setup runs trace options profiled
        → stack_of_threads (map events_of profiled) ≡ stack_of trace.blocks }
    ensures printed { (program : Program) (setup : Setup) (runs : List ThreadRun) (trace : Trace) (options : ProfileOptions)
        (profiled : List ThreadRun) → MakeMarksOf program setup runs trace options profiled
        → trouble_of 1 (map (state_after options.nodes) (map events_of profiled)) ≡ None
        → profile_of options program profiled
        ≡ Done [] (states_before options.format (state_texts 1 runs)
        ++ rows_text options.format 0 (program_names program) (stack_of trace.blocks)) }
{
    one_end();
    reports_take_a_run();
    stacks_are_of_threads();
}

/// In the picture that `stack --format svg` prints of a trace, no frame sticks out of that of its
/// caller, and the widths of the lowest row add up to the whole, if any time was spent. Both are true
/// of the numbers that are printed.
pub fn pictures_add_up()
    ensures within { (trace : Trace) → NoneSticksOut (stack_of trace.blocks) }
    ensures lowest { (trace : Trace) → LowestAddUp (stack_of trace.blocks) }
{
    stacks_can_be_drawn();
    no_frame_sticks_out();
    the_lowest_frames_add_up();
}

/// Of the options of `sim` and `run`, only those that bound the threads decide what is printed: how many
/// there are, and how many instructions and passings each makes. All others, from `--buffer-size` on,
/// change neither the state texts nor what the audit states of ends and marks. Whatever a command may
/// print and state with some of them, it may print and state with others (`LeavesAlike`). For `sim`, whose
/// outcome is the only one (`one_meaning`), both texts are the same.
pub fn stamps_and_buffers_change_no_text()
    ensures sim { (held : List ℕ → Entry) (i s c t a u b : List ℕ) (options other : RunOptions)
        (outputs : List (List ℕ × List ℕ)) (text : List ℕ) → options.bounds ≡ other.bounds
        → Means (Some (Sim i s c t a options)) held (Done outputs text)
        → LeavesAlike (setup_of options) (setup_of other) t a u b outputs text (Means (Some (Sim i s c u b other)) held) }
    ensures run { (held : List ℕ → Entry) (i s t a u b : List ℕ) (options other : RunOptions)
        (outputs : List (List ℕ × List ℕ)) (text : List ℕ) → options.bounds ≡ other.bounds
        → Means (Some (Run i s t a options)) held (Done outputs text)
        → LeavesAlike (setup_of options) (setup_of other) t a u b outputs text (Means (Some (Run i s u b other)) held) }
{
    what_runs_leave();
    stamps_change_no_run();
    buffers_change_no_replay();
    one_replay();
    some_run();
    some_end();
    some_losses_are_of_a_queue();
}

/// Beside a script that records each passing, all runs leave and print the same, if none of them loses a
/// segment. Suppose that the lines of the script say commands by which all is recorded (`RecordsAll`). Then
/// whatever two runs with equal options may leave, the traces, the audits and the texts are equal, if both
/// audits state that nothing was recycled (`same`). The commands of a script that is read are those that
/// its lines say (`said`). So the law `a_script_that_sets_all_before_go_records_all` of `traced_run` shows
/// by its commands that a script is one.
pub fn a_script_that_records_all_leaves_one_outcome()
    ensures same { (held : List ℕ → Entry) (i s t a : List ℕ) (options : RunOptions) (image script : List ℕ)
        (program : Program) (arguments : ℕ) (trace audit text other_trace other_audit other_text : List ℕ)
        → AreRunOptions options → held i ≡ Holds image → held s ≡ Holds script → IsAccepted image program
        → RecordsAll program options.bounds.threads (commands_said script) arguments
        → MayLeaveWhole held i s t a options trace audit text
        → MayLeaveWhole held i s t a options other_trace other_audit other_text
        → (trace ≡ other_trace) × (audit ≡ other_audit) × (text ≡ other_text) }
    ensures said { (program : Program) (threads : ℕ) (text : List ℕ) (plan : Plan)
        → plan_of program threads text ≡ Ok plan → commands_of plan.lines ≡ commands_said text }
{
    one_reading();
    a_lawful_run_is_accepted();
    a_script_that_records_all_leaves_one_run();
    xray_image::one_reading();
}
