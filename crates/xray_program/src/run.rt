//! `run`: threads that run over an image while a script patches their sleds.
ghost use Rattle.std.specs.Prelude.{◌≡◌, ◌∷◌, [], IfOk, OnErr, OnOk, Some, map, true};
ghost use Rattle.command_words.specs.Words.{outputs_of};
ghost use Rattle.patch_script.specs.Refusals.{commands_of};
ghost use Rattle.machine_step.specs.Setups.{IsSetup};
ghost use Rattle.machine_step.specs.declared.setup.Setup.{Setup};
ghost use Rattle.sled_rule.specs.Seats.{work_view};
ghost use Rattle.thread_run.specs.{Runs.{HaveRunBeside}, Starters.{has_started}};
ghost use Rattle.xray_io.specs.World.{desk_view, sink_view};
ghost use Rattle.xray_program.specs.{Answers.{IsUnwriting}, Started.{CameToOutputs, StartsLate}};
ghost use Rattle.xray_program.specs.Commands.{doing_of};
ghost use Rattle.xray_program.specs.private.RunInputs.{said_by, AreValues, IsReadFor};
ghost use Rattle.xray_program.specs.private.Stops.{answer_of, told_of};
ghost use Rattle.xray_program.specs.private.Turns.{ComesOfAll};
ghost use Rattle.xray_program.specs.private.Works.{Ends, Finishes, KeepsOthers};

use crate::laws::what_runs_leave;
use crate::run_inputs::{Run, RunInputs};
use crate::script_inputs::take_script;
use crate::setups::setup_of;
use crate::stop::Stop;
use crate::traced::{RunLeft, deliver_run, room_for};
use machine_step::{Setup, Steps};
use patch_script::Script;
use sled_rule::CodeTable;
use std::alloc::Global;
use std::sync::Wait;
use std::thread::Threads;
use thread_run::{ReadyRun, RunEnd, Starter};
use xray_io::{Desk, Gate, NoMemory, Sink};

/// Does all of `run`, and leaves err as it is. Its threads start through the starter. No clause says
/// that the call returns: threads may wait for the patcher.
pub(crate) fn perform_run<'a, T: Threads + Wait + Sync, D: Desk, O: Sink, G: Gate + Sync>(
    starter: &mut Starter<'_, T, G>,
    alloc: Global,
    command: &Run<'a>,
    desk: &mut D,
    out: &mut O,
) -> Result<(), Stop<'a>>
    ensures ends { let seen = desk_view D.held D.read_faults D.write_faults in
        let got = sink_view O.written O.faults in
        Ends (Some (said_by command.now)) (seen desk.old) (seen desk.new) (got out.old) (got out.new)
        (D.along desk.old desk.new) (answer_of result) (told_of result) }
    ensures starts { StartsLate (Some (said_by command.now)) (answer_of result)
        (has_started starter.old) (has_started starter.new) }
{
    let threads = command.options.bounds.threads;
    let inputs = take_script(alloc, desk, command.image, command.script, threads)?;
    finish(starter, alloc, command, inputs, desk, out)
}

/// Runs the threads beside the script, and writes what comes of it. If nothing is written, no thread
/// was started.
fn finish<'a, T: Threads + Wait + Sync, D: Desk, O: Sink, G: Gate + Sync>(
    starter: &mut Starter<'_, T, G>,
    alloc: Global,
    command: &Run<'a>,
    inputs: RunInputs,
    desk: &mut D,
    out: &mut O,
) -> Result<(), Stop<'a>>
    requires { IsReadFor command.now.options.bounds.threads inputs }
    ensures finishes { let seen = desk_view D.held D.read_faults D.write_faults in
        let got = sink_view O.written O.faults in
        Finishes (ComesOfAll (AreValues inputs) (doing_of (said_by command.now)).leaves)
        (seen desk.old) (seen desk.new) (got out.old) (got out.new)
        (D.along desk.old desk.new) result }
    ensures others { let seen = desk_view D.held D.read_faults D.write_faults in
        KeepsOthers (outputs_of (said_by command.now)) (seen desk.old) (seen desk.new) }
    ensures starts { IsUnwriting (answer_of result) → has_started starter.new ≡ has_started starter.old }
    ensures started { CameToOutputs (answer_of result) → has_started starter.new ≡ true }
{
    let RunInputs { image, script } = inputs;
    // Called for their contracts: the image was accepted, and threads that run over it run lawfully.
    image.each_was_accepted();
    what_runs_leave();
    let setup = setup_of(command.options);
    let lines = room_for(alloc, setup.threads)?;
    let steps = Steps::new(alloc, &image)?;
    let end = run_beside(starter, alloc, &steps, script, &setup)?;
    deliver_run(desk, out, &command.files, &setup, RunLeft::from(end), lines)
}

/// Runs all threads over an image's steps, and a script beside them. All memory is taken before the
/// threads start.
fn run_beside<'s, T: Threads + Wait + Sync, G: Gate + Sync>(
    starter: &mut Starter<'_, T, G>,
    alloc: Global,
    steps: &'s Steps<'s>,
    script: Script,
    setup: &Setup,
) -> Result<RunEnd<'s>, NoMemory>
    requires program { script.program ≡ steps.now }
    requires threads { script.threads ≡ setup.now.threads }
    requires setup { IsSetup setup.now }
    ensures left { IfOk result (λ end. HaveRunBeside steps.now (commands_of script.lines) setup.now
        end.cpus.items (map work_view end.seats.items) end.segments.items end.first.items end.buffers.items) }
    ensures unstarted { OnErr result (has_started starter.new ≡ has_started starter.old) }
    ensures started { OnOk result (has_started starter.new ≡ true) }
{
    let (table, mut seat) = CodeTable::new(alloc, steps.image(), script, setup.threads)?;
    let ready = ReadyRun::new(starter, alloc, steps, &table, setup)?;
    Ok(ready.go(starter, &mut seat))
}
