//! Laws of the moments of a replay. Each law is the contract of a function that does nothing.

ghost use Rattle.std.specs.Prelude.{◌≡◌, ◌<◌, ℕ, List, None, Some, Ok, All, length};
ghost use Rattle.xray_image.specs.Program.{Program};
ghost use Rattle.sled_words.specs.Allowed.{IsAllowed};
ghost use Rattle.patch_script.specs.declared.command.PatchCommand.{PatchCommand};
ghost use Rattle.patch_script.specs.{CodeAt.{code_at}, Micros.{hold_of}, Plans.{waiting_line}};
ghost use Rattle.patch_script.specs.Refusals.{Lines, commands_of};
ghost use Rattle.machine_step.specs.declared.setup.Setup.{Setup};
ghost use Rattle.traced_run.specs.{Decoded.{DecodesWhole}, Following.{AllMarksFollow}, Runs.{EachThread, ThreadRun}};
ghost use Rattle.step_sim.specs.declared.turns.Turns.{Turns as Line};
ghost use Rattle.step_sim.specs.Along.{IsAlong, LoadsAreWanted, NamesThread, TearsNoSled};
ghost use Rattle.step_sim.specs.{Schedules.{schedule_of}, Plays.{Plays}};
ghost use Rattle.step_sim.specs.Replay.{Cast, Moment, first_moment, moment_rules, of_thread, patcher_turn, thread_count, thread_turn, wanted_by};
ghost use Rattle.step_sim.specs.Replayed.{IsReplayOf};

use machine_step::what_follows_is_allowed;
use patch_script::each_script_keeps_sleds;

/// At each moment of a replay the loads of each thread follow the script: at the first moment, and
/// after each turn of a thread or of the patcher. So each load is of the word that its thread wanted
/// next, the value of the word that a thread wants next is allowed, and no passing has torn its sled.
pub fn a_replay_reads_along()
    ensures first { (cast : Cast) → IsAlong cast (first_moment cast) }
    ensures thread { (cast : Cast) (thread : ℕ) (moment : Moment) → 0 < thread
        → IsAlong cast moment → IsAlong cast (thread_turn cast thread moment) }
    ensures patcher { (cast : Cast) (moment : Moment)
        → IsAlong cast moment → IsAlong cast (patcher_turn cast moment) }
    ensures allowed { (cast : Cast) (moment : Moment) (thread word : ℕ) → 0 < thread
        → IsAlong cast moment → wanted_by cast thread moment ≡ Some word
        → IsAllowed cast.program (thread_count cast) thread word
        (code_at cast.program (thread_count cast) cast.script moment.place word) }
    ensures wanted { (cast : Cast) (moment : Moment) → IsAlong cast moment → LoadsAreWanted cast moment }
    ensures whole { (cast : Cast) (moment : Moment) → IsAlong cast moment → TearsNoSled cast moment }
{
    each_script_keeps_sleds();
    what_follows_is_allowed();
}

/// No replay tears a sled, whatever the program and the script are, and whatever the schedule is, if
/// it names threads from 1 on. When all threads have run out, each of their passings has decoded its
/// sled whole. A queue of buffers changes nothing.
pub fn no_replay_tears_a_sled()
    ensures named { (cast : Cast) (schedule : List Line) (last : Moment) → All NamesThread schedule
        → Plays (moment_rules cast) (length cast.passings) (first_moment cast) schedule last
        → TearsNoSled cast last }
    // The same holds for the runs that a schedule's text leaves, since it names only threads from 1
    // on. The loads are those of the moment at which the replay leaves these runs.
    ensures runs { (program : Program) (script : List PatchCommand) (text : List ℕ) (schedule : List Line)
        (setup : Setup) (runs : List ThreadRun) → schedule_of setup.threads text ≡ Ok schedule
        → (replay : IsReplayOf program script schedule setup runs) → EachThread runs (λ number run.
        DecodesWhole program setup.threads number (hold_of number script) run
        (of_thread replay.last.moment.loads number)) }
{
    a_replay_reads_along();
}

/// The marks that a replay leaves follow its script, if nothing waits in the script: each thread's
/// loads are made at places that never fall, and they give its marks.
pub fn marks_of_a_replay_follow()
    ensures { (program : Program) (lines : Lines) (text : List ℕ) (schedule : List Line) (setup : Setup)
        (runs : List ThreadRun) → schedule_of setup.threads text ≡ Ok schedule → waiting_line lines ≡ None
        → IsReplayOf program (commands_of lines) schedule setup runs
        → AllMarksFollow program setup.threads (commands_of lines) runs }
{
    a_replay_reads_along();
}
