//! `profile`: threads that run over an image while a script patches their sleds, and the stacks of
//! what they recorded.
ghost use Rattle.std.specs.Prelude.{◌≡◌, ◌≤◌, ◌++◌, [], All, IfOk, None, OnErr, OnOk, Some, length, map, option_map, true};
ghost use Rattle.std.specs.List.{flat_map};
ghost use Rattle.call_trie.specs.Tries.{StandsFor};
ghost use Rattle.command_words.specs.Ranges.{AreProfileOptions};
ghost use Rattle.command_words.specs.Words.{outputs_of};
ghost use Rattle.fault_words.specs.Words.{words_text};
ghost use Rattle.flame_graph.specs.Frames.{AreStacks};
ghost use Rattle.function_names.specs.Name.{program_names};
ghost use Rattle.machine_step.specs.{EndedText.{thread_text}, Traced.{IsDone}};
ghost use Rattle.stack_rebuild.specs.Stacks.{told};
ghost use Rattle.thread_run.specs.Starters.{has_started};
ghost use Rattle.xray_io.specs.World.{desk_view, sink_view};
ghost use Rattle.xray_program.specs.{Answers.{IsUnwriting}, Started.{CameToOutputs, StartsLate}};
ghost use Rattle.xray_program.specs.Profile.{states_before, trouble_in, trouble_of};
ghost use Rattle.xray_program.specs.Commands.{doing_of};
ghost use Rattle.xray_program.specs.private.Profiled.{said_by, HaveProfiled};
ghost use Rattle.xray_program.specs.private.RunInputs.{AreValues, IsReadFor};
ghost use Rattle.xray_program.specs.private.Stops.{answer_of, told_of};
ghost use Rattle.xray_program.specs.Stack.{rows_text};
ghost use Rattle.xray_program.specs.private.Turns.{ComesOfAll};
ghost use Rattle.xray_program.specs.private.Works.{Delivers, Ends, Finishes, KeepsOthers};

use crate::delivery::{Both, NoOutputs, deliver};
use crate::laws::what_runs_leave;
use crate::run_inputs::{Profile, RunInputs};
use crate::script_inputs::take_script;
use crate::setups::profile_limits;
use crate::stack::StackReport;
use crate::stop::Stop;
use call_trie::{MOST_NODES, TrieRecorder, TrieState, merged};
use command_words::{ProfileOptions, StackFormat};
use fault_words::Words;
use flame_graph::stacks_of_threads_can_be_drawn;
use function_names::Names;
use machine_step::{Cpu, Steps};
use patch_script::Script;
use sled_patch::run_prefix;
use sled_rule::CodeTable;
use sled_words::MAX_THREADS;
use stack_rebuild::StackRow;
use std::alloc::Global;
use std::sync::Wait;
use std::thread::Threads;
use thread_run::{ReadyThreads, RecordedEnd, Starter};
use xray_image::Image;
use xray_io::{Desk, Each, Gate, NoMemory, Piece, Printed, Sink, Text, WriteFault};

/// Does all of `profile`, and leaves err as it is. Its threads start through the starter. No clause
/// says that the call returns: threads may wait for the patcher.
pub(crate) fn perform_profile<'a, T: Threads + Wait + Sync, D: Desk, O: Sink, G: Gate + Sync>(
    starter: &mut Starter<'_, T, G>,
    alloc: Global,
    command: &Profile<'a>,
    desk: &mut D,
    out: &mut O,
) -> Result<(), Stop<'a>>
    ensures ends { let seen = desk_view D.held D.read_faults D.write_faults in
        let got = sink_view O.written O.faults in
        Ends (Some (said_by command.now)) (seen desk.old) (seen desk.new) (got out.old) (got out.new)
        (D.along desk.old desk.new) (answer_of result) (told_of result) }
    ensures starts { StartsLate (Some (said_by command.now)) (answer_of result)
        (has_started starter.old) (has_started starter.new) }
{
    let threads = command.options.bounds.threads;
    let inputs = take_script(alloc, desk, command.image, command.script, threads)?;
    finish(starter, alloc, command, inputs, desk, out)
}

/// Runs the threads beside the script, and writes what comes of it. All memory is taken before the
/// threads start, except that of the report.
fn finish<'a, T: Threads + Wait + Sync, D: Desk, O: Sink, G: Gate + Sync>(
    starter: &mut Starter<'_, T, G>,
    alloc: Global,
    command: &Profile<'a>,
    inputs: RunInputs,
    desk: &mut D,
    out: &mut O,
) -> Result<(), Stop<'a>>
    requires { IsReadFor command.now.options.bounds.threads inputs }
    ensures finishes { let seen = desk_view D.held D.read_faults D.write_faults in
        let got = sink_view O.written O.faults in
        Finishes (ComesOfAll (AreValues inputs) (doing_of (said_by command.now)).leaves)
        (seen desk.old) (seen desk.new) (got out.old) (got out.new)
        (D.along desk.old desk.new) result }
    ensures others { let seen = desk_view D.held D.read_faults D.write_faults in
        KeepsOthers (outputs_of (said_by command.now)) (seen desk.old) (seen desk.new) }
    ensures stops { IsUnwriting (answer_of result) → answer_of result ≡ 5 }
    ensures started { CameToOutputs (answer_of result) → has_started starter.new ≡ true }
{
    let RunInputs { image, script } = inputs;
    // Called for their contracts: the image was accepted, and threads that run over it run lawfully.
    image.each_was_accepted();
    what_runs_leave();
    let steps = Steps::new(alloc, &image)?;
    let end = run_profiled(starter, alloc, &steps, script, command.options)?;
    match trouble_of(&end.recorders) {
        Some(trouble) => deliver_states(desk, out, &end.cpus, trouble),
        None => {
            let rows = merged(alloc, &end.recorders)?;
            // Called for its contract: the rows can be printed in any format.
            stacks_of_threads_can_be_drawn();
            deliver_report(desk, out, &end.cpus, &rows, &image, command.options.format)
        }
    }
}

/// Prints the state texts, and reports what went wrong.
fn deliver_states<'a, D: Desk, O: Sink>(
    desk: &mut D,
    out: &mut O,
    cpus: &[Cpu],
    trouble: Words<'a>,
) -> Result<(), Stop<'a>>
    requires done { All (λ cpu. IsDone cpu.want) cpus.now }
    ensures delivers { let seen = desk_view D.held D.read_faults D.write_faults in
        let got = sink_view O.written O.faults in
        Delivers [] (flat_map thread_text cpus.now) (Some (words_text trouble.entry))
        (seen desk.old) (seen desk.new) (got out.old) (got out.new) (D.along desk.old desk.new) result }
    ensures others { let seen = desk_view D.held D.read_faults D.write_faults in
        KeepsOthers [] (seen desk.old) (seen desk.new) }
{
    deliver(desk, out, &NoOutputs, &Each(cpus), Some(trouble))
}

/// Prints the state texts, and then the rows of their stacks.
fn deliver_report<'a, D: Desk, O: Sink>(
    desk: &mut D,
    out: &mut O,
    cpus: &[Cpu],
    rows: &[StackRow],
    image: &Image,
    format: StackFormat,
) -> Result<(), Stop<'a>>
    requires done { All (λ cpu. IsDone cpu.want) cpus.now }
    requires rows { AreStacks (map told rows.now) }
    ensures delivers { let seen = desk_view D.held D.read_faults D.write_faults in
        let got = sink_view O.written O.faults in
        Delivers [] (states_before format (flat_map thread_text cpus.now)
        ++ rows_text format 0 (program_names image.now) (map told rows.now)) None
        (seen desk.old) (seen desk.new) (got out.old) (got out.new) (D.along desk.old desk.new) result }
    ensures others { let seen = desk_view D.held D.read_faults D.write_faults in
        KeepsOthers [] (seen desk.old) (seen desk.new) }
{
    let states = StatesBefore { cpus, format };
    let stacks = StackReport {
        rows,
        names: Names::Image(image),
        frequency: 0,
        format,
    };
    let text = Both {
        first: &states,
        second: &stacks,
    };
    deliver(desk, out, &NoOutputs, &text, None)
}

/// The state texts of threads that are done, as they stand before a report in a format.
#[derive(Clone, Copy)]
struct StatesBefore<'c, 's> {
    cpus: &'c [Cpu<'s>],
    format: StackFormat,
}

impl Printed for StatesBefore<'_, '_> {
    ghost use Rattle.std.specs.List.{All, flat_map};
    ghost use Rattle.machine_step.specs.{EndedText.{thread_text}, Traced.{IsDone}};
    ghost use Rattle.xray_program.specs.Profile.{states_before};

    ghost text = { λ states. states_before states.format (flat_map thread_text states.cpus.now) };

    ghost ready = { λ states. All (λ cpu. IsDone cpu.want) states.cpus.now };

    fn add_to<S: Sink>(&self, to: &mut Text<S>) -> Result<(), WriteFault> {
        let states = Each(self.cpus);
        match self.format {
            StackFormat::Human | StackFormat::Flame => states.add_to(to),
            StackFormat::Svg => {
                let close = Piece::Bytes(b"-->\n");
                let closed = Both {
                    first: &states,
                    second: &close,
                };
                let open = Piece::Bytes(b"<!--\n");
                let comment = Both {
                    first: &open,
                    second: &closed,
                };
                comment.add_to(to)
            }
        }
    }
}

/// Runs all threads over an image's steps, and a script beside them. Each thread has a recorder of its
/// own, which stands for the events of the thread. All memory is taken before the threads start.
fn run_profiled<'s, T: Threads + Wait + Sync, G: Gate + Sync>(
    starter: &mut Starter<'_, T, G>,
    alloc: Global,
    steps: &'s Steps<'s>,
    script: Script,
    options: ProfileOptions,
) -> Result<RecordedEnd<'s, TrieRecorder>, NoMemory>
    requires program { script.program ≡ steps.now }
    requires threads { script.threads ≡ options.bounds.threads }
    requires options { AreProfileOptions options }
    ensures profiled { IfOk result (λ end.
        HaveProfiled options steps.now script end.cpus.items end.recorders.items) }
    ensures few { IfOk result (λ end. length end.recorders.items ≤ MAX_THREADS) }
    ensures unstarted { OnErr result (has_started starter.new ≡ has_started starter.old) }
    ensures started { OnOk result (has_started starter.new ≡ true) }
{
    let threads = options.bounds.threads;
    let (table, mut seat) = CodeTable::new(alloc, steps.image(), script, threads)?;
    let recorders = new_recorders(alloc, threads, options.nodes)?;
    let limits = profile_limits(options);
    let ready = ReadyThreads::new(alloc, steps, &table, threads, limits)?;
    run_prefix(&table, &mut seat);
    Ok(ready.go(starter, &mut seat, recorders))
}

/// A recorder for each thread, each with so many nodes.
fn new_recorders(alloc: Global, threads: u32, nodes: u32) -> Result<Vec<TrieRecorder>, NoMemory>
    requires { (1 ≤ nodes) × (nodes ≤ MOST_NODES) }
    ensures count { IfOk result (λ tries. length tries.items ≡ threads) }
    ensures room { IfOk result (λ tries. All (λ trie. trie.room ≡ nodes) tries.items) }
    ensures no_events { IfOk result (λ tries. All (λ trie. StandsFor trie []) tries.items) }
{
    let mut recorders = Vec::with_capacity(alloc, threads as usize)?;
    for _ in 0..threads {
        recorders.push(TrieRecorder::new(alloc, nodes)?)?;
    }
    Ok(recorders)
}

/// What went wrong with the least thread whose recorder has stopped, if there is one.
fn trouble_of<'a>(recorders: &[TrieRecorder]) -> Option<Words<'a>>
    requires { length recorders.now ≤ MAX_THREADS }
    ensures { option_map words_text result
        ≡ trouble_of 1 (map (λ recorder. recorder.state) recorders.now) }
{
    let mut thread = 0;
    for recorder in recorders {
        thread += 1;
        if let Some(words) = trouble_in(recorder.state(), thread) {
            return Some(words);
        }
    }
    None
}

/// What went wrong with the recorder of a thread, if it has stopped.
fn trouble_in<'a>(state: TrieState, thread: u32) -> Option<Words<'a>>
    ensures { option_map words_text result ≡ trouble_in state thread }
{
    match state {
        TrieState::Live => None,
        TrieState::Full => Some(Words::numbered(b"profile: full ", thread)),
        TrieState::Deep => Some(Words::numbered(b"profile: deep ", thread)),
    }
}
