//! Laws of runs. Each law is the contract of a function that does nothing.

ghost use Rattle.std.specs.Prelude.{
  ◌≡◌,
  ◌≢◌,
  ◌≤◌,
  ◌<◌,
  ◌^◌,
  ◌++◌,
  List,
  ℕ,
  All,
  Ok,
  Option,
  Some,
  false,
  filter,
  length,
  map,
  slice_get,
  take,
  true,
};
ghost use Rattle.std.specs.List.{flat_map, list_any};
ghost use Rattle.subset_decode.specs.Encoding.{IsEncodable};
ghost use Rattle.subset_decode.specs.declared.instr.Instr.TheVariants.{Call, Jmp, Mov};
ghost use Rattle.xray_image.specs.Program.{IsAccepted, Program};
ghost use Rattle.xray_image.specs.declared.sled.Sled.{Sled};
ghost use Rattle.sled_words.specs.Words.{release_word};
ghost use Rattle.patch_script.specs.declared.command.PatchCommand.{PatchCommand};
ghost use Rattle.patch_script.specs.{CodeAt.{code_at}, Plans.{Plan, plan_of}, Refusals.{commands_of}};
ghost use Rattle.handler_word.specs.declared.mark.Mark.{Mark};
ghost use Rattle.fdr_buffer.specs.{Filled.{Filled, has_event}, Fits.{BufferFits}};
ghost use Rattle.machine_step.specs.{Buffers.{spare_of}, Setups.{AreLimits, IsSetup}};
ghost use Rattle.machine_step.specs.declared.end.End.{End};
ghost use Rattle.machine_step.specs.declared.limits.Limits.{Limits};
ghost use Rattle.machine_step.specs.declared.setup.Setup.{Setup};
ghost use Rattle.machine_step.specs.PlainStep.{Passing, PlainRun, State};
ghost use Rattle.machine_step.specs.{Loads.{Load}, Traced.{Traced, sleds_passed}};
ghost use Rattle.traced_run.specs.Decoded.{DecodesWhole};
ghost use Rattle.traced_run.specs.Executed.{Executes, to_trampoline};
ghost use Rattle.traced_run.specs.Fits.{PassingFits};
ghost use Rattle.traced_run.specs.Following.{AllMarksFollow, LoadsFollow, MarksFollowScript};
ghost use Rattle.traced_run.specs.Kept.{kept_buffers, kept_of, segments_of, thread_buffers};
ghost use Rattle.traced_run.specs.Left.{Leaves, LeavesInAnyOrder};
ghost use Rattle.traced_run.specs.Losses.{AreLost, recycled_of, without_losses};
ghost use Rattle.traced_run.specs.Recording.{RecordsAll, recorded_mark};
ghost use Rattle.traced_run.specs.RecordingScripts.{RecordsFromGo, is_left_done, removes_arg_handler, sets_arg_handler};
ghost use Rattle.traced_run.specs.Runs.{EachThread, IsRun, ThreadRun, events_of};

use fdr_buffer::{a_body_has_room, segments_hold_all};
use machine_step::{Cpu, Steps, wanted_loads_have_one_value};
use patch_script::each_script_lets_threads_end;

/// No event of a thread falls between its segments. The events of as many of the first segments as
/// are lost, and then those of the segments that are left, are all events that its marks record.
/// Whatever makes a run says that the lost segments are the first ones: for a replay it is the law
/// `lost_segments_are_the_oldest` of `step_sim`.
pub fn lost_and_left_segments_hold_all()
    ensures { (size : ℕ) (run : ThreadRun)
        → flat_map (λ s. s) (take run.lost (segments_of size run)) ++ flat_map (λ s. s) (kept_of size run)
        ≡ events_of run }
{
    segments_hold_all();
}

/// If a thread has lost no segment, its segments that are left hold all events that its marks record
/// (`thread`). If a run has lost no segment, each thread has all of its segments, and so they hold all
/// of its events.
pub fn a_run_without_losses_is_whole()
    ensures thread { (size : ℕ) (run : ThreadRun) → run.lost ≡ 0
        → flat_map (λ s. s) (kept_of size run) ≡ events_of run }
    ensures segments { (size : ℕ) (runs : List ThreadRun) → recycled_of runs ≡ 0
        → EachThread runs (λ number run. kept_of size run ≡ segments_of size run) }
    ensures events { (size : ℕ) (runs : List ThreadRun) → recycled_of runs ≡ 0
        → EachThread runs (λ number run. flat_map (λ s. s) (kept_of size run) ≡ events_of run) }
{
    segments_hold_all();
}

/// Each buffer that a run leaves holds an event: those of one thread, and those of all. So what a run
/// leaves in order it also leaves in any order.
pub fn kept_buffers_hold_events()
    ensures one { (setup : Setup) (thread : ℕ) (run : ThreadRun)
        → filter has_event (thread_buffers setup (thread, run)) ≡ thread_buffers setup (thread, run) }
    ensures all { (setup : Setup) (runs : List ThreadRun)
        → filter has_event (kept_buffers setup runs) ≡ kept_buffers setup runs }
    ensures any_order { (setup : Setup) (runs : List ThreadRun) (cpus : List Traced) (segments first : List ℕ)
        (buffers : List Filled) → Leaves setup runs cpus segments first buffers
        → LeavesInAnyOrder setup runs cpus segments first buffers }
{
    segments_hold_all();
}

/// Some accepted file holds the image of these steps.
pub fn some_file_holds(steps: &Steps)
    ensures { (bytes : List ℕ) × IsAccepted bytes steps.now }
{
    steps.image();
}

/// The passings of a thread, and so its events, fit 32 bits.
pub fn passings_are_few(cpu: &Cpu)
    ensures { length cpu.now.marks < 2 ^ 32 }
{
    cpu.passings();
}

/// The ids of a plain run's passings fit the records of events. So do their stamps and their
/// arguments, if threads may have its limits and its number has 64 bits.
pub fn passings_fit()
    ensures ids { (bytes : List ℕ) (program : Program) (limits : Limits) (thread : ℕ)
        (passed : List Passing) (end : End) (last : State) → IsAccepted bytes program
        → PlainRun program limits thread passed end last → All (λ p. p.id < 2 ^ 28) passed }
    ensures all { (bytes : List ℕ) (program : Program) (limits : Limits) (thread : ℕ)
        (passed : List Passing) (end : End) (last : State) → IsAccepted bytes program → AreLimits limits
        → thread < 2 ^ 64 → PlainRun program limits thread passed end last → All PassingFits passed }
{}

/// All that a run leaves in its buffers fits them, and fits the records that it is read from later.
pub fn a_run_fits_its_buffers()
    ensures { (bytes : List ℕ) (program : Program) (setup : Setup) (runs : List ThreadRun)
        → IsAccepted bytes program → IsSetup setup → IsRun program setup runs
        → All BufferFits (kept_buffers setup runs) }
{
    segments_hold_all();
    a_body_has_room();
}

/// A run leaves at most as many buffers as its setup has, and each has the setup's size.
pub fn a_run_leaves_few_buffers()
    ensures few { (setup : Setup) (runs : List ThreadRun) → IsSetup setup
        → length runs ≡ setup.threads → AreLost setup.size (spare_of setup) runs
        → length (kept_buffers setup runs) ≤ setup.max }
    ensures sizes { (setup : Setup) (runs : List ThreadRun)
        → All (λ buffer. buffer.size ≡ setup.size) (kept_buffers setup runs) }
{}

/// However many spare buffers the threads of a run share, there are losses that are those of a
/// queue with these buffers.
pub fn some_losses_are_of_a_queue()
    ensures { (size spare : ℕ) (runs : List ThreadRun)
        → (others : List ThreadRun) × (without_losses others ≡ without_losses runs) × AreLost size spare others }
{}

/// The instructions of a patched sled name its id and its trampoline: in an accepted image the id and
/// the distances from a thread at the sled fit their fields.
pub fn patched_sleds_name_their_trampolines()
    ensures id { (bytes : List ℕ) (program : Program) (k : ℕ) (sled : Sled) → IsAccepted bytes program
        → slice_get program.sleds k ≡ Some sled → IsEncodable (Mov 10 sled.id) }
    ensures trampoline { (bytes : List ℕ) (program : Program) (k : ℕ) (sled : Sled) (s : State)
        → IsAccepted bytes program → slice_get program.sleds k ≡ Some sled → s.address ≡ sled.address
        → IsEncodable (Call (to_trampoline program.trampolines sled s))
        × IsEncodable (Jmp (to_trampoline program.trampolines sled s)) }
{}

/// A thread that executes the code with the bytes of its sleds as it loaded them comes to the end of
/// its plain run, if it decodes no torn sled. Only r10 may differ.
pub fn a_whole_run_executes_to_its_end()
    ensures { (bytes : List ℕ) (program : Program) (limits : Limits) (threads number : ℕ) (hold : Option ℕ)
        (run : ThreadRun) (loads : List Load) → IsAccepted bytes program
        → PlainRun program limits number run.passed run.end run.last
        → DecodesWhole program threads number hold run loads → Executes program limits threads number hold run loads }
{
    wanted_loads_have_one_value();
}

/// If all sleds are patched when the threads start, a handler is set and the log records, and none of
/// this changes later, every passing is recorded (`marks`). So two runs of the image beside this script
/// that lose no segment are the same run, with one trace and one audit (`runs`).
pub fn a_script_that_records_all_leaves_one_run()
    ensures marks { (program : Program) (limits : Limits) (threads thread : ℕ) (script : List PatchCommand) (arguments : ℕ)
        (passed : List Passing) (end : End) (last : State) (marks : List Mark)
        → PlainRun program limits thread passed end last → RecordsAll program threads script arguments
        → MarksFollowScript program threads script thread (sleds_passed passed) marks
        → marks ≡ map (λ p. recorded_mark program arguments p.sled) passed }
    ensures runs { (bytes : List ℕ) (program : Program) (setup : Setup) (script : List PatchCommand) (arguments : ℕ)
        (runs others : List ThreadRun) → IsAccepted bytes program
        → RecordsAll program setup.threads script arguments
        → IsRun program setup runs → IsRun program setup others
        → AllMarksFollow program setup.threads script runs → AllMarksFollow program setup.threads script others
        → recycled_of runs ≡ 0 → recycled_of others ≡ 0 → runs ≡ others }
{}

/// The text of a script shows that all is recorded: before `go` it patches all sleds, sets the handler
/// and initializes the log, and undoes none of this, not even after `go`, where the argument handler
/// isn't changed either (`some`). If the argument handler is set before `go`, and not removed after that,
/// its word is 1 (`with_arguments`). If it is never set before `go`, its word is 0 (`without_arguments`).
pub fn a_script_that_sets_all_before_go_records_all()
    ensures some { (program : Program) (threads : ℕ) (text : List ℕ) (plan : Plan)
        → plan_of program threads text ≡ Ok plan → RecordsFromGo (commands_of plan.lines)
        → (arguments : ℕ) × RecordsAll program threads (commands_of plan.lines) arguments }
    ensures with_arguments { (program : Program) (threads : ℕ) (text : List ℕ) (plan : Plan)
        → plan_of program threads text ≡ Ok plan → (sets : RecordsFromGo (commands_of plan.lines))
        → is_left_done sets_arg_handler removes_arg_handler sets.before ≡ true
        → RecordsAll program threads (commands_of plan.lines) 1 }
    ensures without_arguments { (program : Program) (threads : ℕ) (text : List ℕ) (plan : Plan)
        → plan_of program threads text ≡ Ok plan → (sets : RecordsFromGo (commands_of plan.lines))
        → list_any sets_arg_handler sets.before ≡ false
        → RecordsAll program threads (commands_of plan.lines) 0 }
{
    each_script_lets_threads_end();
}

/// Once a held thread has loaded that it is released, each of its loads sees all stores that come
/// before the release: it is made at a place after every place up to which the release word is 0.
pub fn a_released_thread_sees_all_earlier_stores()
    ensures { (program : Program) (threads : ℕ) (script : List PatchCommand) (thread : ℕ) (sleds : List ℕ)
        (loads : List Load) (place i j : ℕ) (release load : Load)
        → LoadsFollow program threads script thread sleds loads place
        → slice_get loads i ≡ Some release → release.word ≡ release_word program thread → release.value ≢ 0
        → i ≤ j → slice_get loads j ≡ Some load
        → (at : ℕ) × (at ≤ place) × (load.value ≡ code_at program threads script at load.word)
        × ((p : ℕ) → ((q : ℕ) → q ≤ p → code_at program threads script q (release_word program thread) ≡ 0) → p < at) }
{}

/// Of the limits of a thread, only its fuel and how many passings it may make decide how it runs. The
/// others change the stamps of its passings, and neither its end, nor its last state, nor the sleds
/// that it passes. What marks may follow a script depends only on these sleds.
pub fn stamps_change_no_run()
    ensures { (bytes : List ℕ) (program : Program) (limits other : Limits) (thread : ℕ)
        (passed passed' : List Passing) (end end' : End) (last last' : State) → IsAccepted bytes program
        → limits.fuel ≡ other.fuel → limits.passings ≡ other.passings
        → PlainRun program limits thread passed end last → PlainRun program other thread passed' end' last'
        → (end ≡ end') × (last ≡ last') × (sleds_passed passed ≡ sleds_passed passed') }
{}
