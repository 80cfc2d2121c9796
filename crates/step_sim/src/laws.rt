//! Laws of replays. Each law is the contract of a function that does nothing.
ghost use Rattle.std.specs.Prelude.{◌≡◌, ℕ, All, List, None, Ok, length};
ghost use Rattle.xray_image.specs.Program.{IsAccepted, Program};
ghost use Rattle.patch_script.specs.declared.command.PatchCommand.{PatchCommand};
ghost use Rattle.patch_script.specs.{Micros.{hold_of}, Plans.{waiting_line}};
ghost use Rattle.patch_script.specs.Refusals.{Lines, commands_of};
ghost use Rattle.handler_word.specs.declared.mark.Mark.{Mark};
ghost use Rattle.machine_step.specs.declared.setup.Setup.{Setup};
ghost use Rattle.traced_run.specs.{Losses.{AreLost}, Runs.{ThreadRun}};
ghost use Rattle.step_sim.specs.declared.turns.Turns.{Turns as Line};
ghost use Rattle.step_sim.specs.Pool.{Pooled, PooledReplay, Pooling};
ghost use Rattle.step_sim.specs.Plays.{Plays};
ghost use Rattle.step_sim.specs.Replay.{Cast, Replay, first_moment, marks_at, moment_rules};
ghost use Rattle.step_sim.specs.Replayed.{IsReplayOf, LoseOldest, TakesFirst};
ghost use Rattle.machine_step.specs.Buffers.{spare_of};
ghost use Rattle.step_sim.specs.Schedules.{AreTurnsOf, schedule_of};

use machine_step::{one_end, some_end};

/// A schedule leaves each thread only one list of marks. What is printed of a replay depends only
/// on the program, the script, the passings and the schedule.
pub fn one_replay()
    ensures { (cast : Cast) (schedule : List Line) (marks others : List (List Mark))
        → Replay cast schedule marks → Replay cast schedule others → marks ≡ others }
{}

/// If the script holds no thread, a schedule leaves marks, whatever the program, the passings and
/// the schedule are. Each thread runs out after finitely many turns. With `one_replay`, each thread
/// has exactly one list of marks.
pub fn some_replay()
    ensures free { (cast : Cast) (schedule : List Line) → ((thread : ℕ) → hold_of thread cast.script ≡ None)
        → (marks : List (List Mark)) × Replay cast schedule marks }
    // A script holds no thread if it has no line at which a thread or the patcher may wait.
    ensures still { (cast : Cast) (schedule : List Line) (lines : Lines) → cast.script ≡ commands_of lines
        → waiting_line lines ≡ None → (marks : List (List Mark)) × Replay cast schedule marks }
{}

/// A replay with buffers comes to a moment of the replay without them, and leaves the same marks.
/// It doesn't matter what counts as a segment, or how many buffers there are. Each replay is one
/// with buffers.
pub fn buffers_change_no_replay()
    ensures moments { (cast : Cast) (pooling : Pooling) (schedule : List Line) (last : Pooled)
        → PooledReplay cast pooling schedule last
        → Plays (moment_rules cast) (length cast.passings) (first_moment cast) schedule last.moment }
    ensures is { (cast : Cast) (pooling : Pooling) (schedule : List Line) (last : Pooled)
        → PooledReplay cast pooling schedule last → Replay cast schedule (marks_at cast last.moment) }
    ensures has { (cast : Cast) (pooling : Pooling) (schedule : List Line) (marks : List (List Mark))
        → Replay cast schedule marks
        → (last : Pooled) × PooledReplay cast pooling schedule last
        × (marks ≡ marks_at cast last.moment) }
{}

/// A schedule leaves only one moment, one queue of buffers, and one list of the buffers that were
/// taken away.
pub fn one_pooled_replay()
    ensures { (cast : Cast) (pooling : Pooling) (schedule : List Line) (last other : Pooled)
        → PooledReplay cast pooling schedule last → PooledReplay cast pooling schedule other
        → last ≡ other }
{}

/// A schedule leaves only one list of runs. What is printed and written of them depends only on the
/// program, the script, the schedule and the setup.
pub fn one_run()
    ensures { (bytes : List ℕ) (program : Program) (script : List PatchCommand) (schedule : List Line)
        (setup : Setup) (runs others : List ThreadRun) → IsAccepted bytes program
        → IsReplayOf program script schedule setup runs
        → IsReplayOf program script schedule setup others → runs ≡ others }
{
    one_end();
}

/// If the script holds no thread, a schedule leaves runs, whatever the program, the schedule and
/// the setup are. With `one_run`, there is exactly one list of them.
pub fn some_run()
    ensures free { (bytes : List ℕ) (program : Program) (script : List PatchCommand) (schedule : List Line)
        (setup : Setup) → IsAccepted bytes program → ((thread : ℕ) → hold_of thread script ≡ None)
        → (runs : List ThreadRun) × IsReplayOf program script schedule setup runs }
    // A script holds no thread if it has no line at which a thread or the patcher may wait.
    ensures still { (bytes : List ℕ) (program : Program) (script : List PatchCommand) (schedule : List Line)
        (setup : Setup) (lines : Lines) → IsAccepted bytes program → script ≡ commands_of lines
        → waiting_line lines ≡ None
        → (runs : List ThreadRun) × IsReplayOf program script schedule setup runs }
{
    some_end();
}

/// A replay loses as many segments as its queue has no buffers for. It keeps the last segment of
/// each thread that has segments. This holds for any program, script and setup, if the schedule
/// gives turns only to the setup's threads.
pub fn a_replay_loses_few()
    ensures named { (program : Program) (script : List PatchCommand) (schedule : List Line) (setup : Setup)
        (runs : List ThreadRun) → All (AreTurnsOf setup.threads) schedule
        → IsReplayOf program script schedule setup runs → AreLost setup.size (spare_of setup) runs }
    // A text that is a schedule for this many threads gives turns only to them.
    ensures read { (program : Program) (script : List PatchCommand) (text : List ℕ) (schedule : List Line)
        (setup : Setup) (runs : List ThreadRun) → schedule_of setup.threads text ≡ Ok schedule
        → IsReplayOf program script schedule setup runs → AreLost setup.size (spare_of setup) runs }
{}

/// The queue of a replay by its places (`TakesFirst`). It holds at first the spare buffers. A thread puts
/// its segments in, each when it begins the next one. For each that comes in, the first one that is there
/// is taken away. So of all buffers and segments, in the order in which they came, the first ones are
/// taken: as many as segments came.
pub fn the_first_buffers_are_taken()
    ensures named { (program : Program) (script : List PatchCommand) (schedule : List Line) (setup : Setup)
        (runs : List ThreadRun) → All (AreTurnsOf setup.threads) schedule
        → (replay : IsReplayOf program script schedule setup runs)
        → TakesFirst setup.size (spare_of setup) runs replay.last.stock }
    ensures read { (program : Program) (script : List PatchCommand) (text : List ℕ) (schedule : List Line)
        (setup : Setup) (runs : List ThreadRun) → schedule_of setup.threads text ≡ Ok schedule
        → (replay : IsReplayOf program script schedule setup runs)
        → TakesFirst setup.size (spare_of setup) runs replay.last.stock }
{}

/// The segments that a replay loses are each thread's oldest, in their order. Buffers are taken from
/// the front of the queue, and those of a thread stand in it in the order of its segments. So what
/// is left of a thread is its last segments: those in the queue, and the one that it holds.
pub fn lost_segments_are_the_oldest()
    ensures named { (program : Program) (script : List PatchCommand) (schedule : List Line) (setup : Setup)
        (runs : List ThreadRun) → All (AreTurnsOf setup.threads) schedule
        → (replay : IsReplayOf program script schedule setup runs)
        → LoseOldest setup.size runs replay.last.stock }
    ensures read { (program : Program) (script : List PatchCommand) (text : List ℕ) (schedule : List Line)
        (setup : Setup) (runs : List ThreadRun) → schedule_of setup.threads text ≡ Ok schedule
        → (replay : IsReplayOf program script schedule setup runs)
        → LoseOldest setup.size runs replay.last.stock }
{}
