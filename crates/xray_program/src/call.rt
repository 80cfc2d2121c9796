//! The top call.
ghost use Rattle.std.specs.Prelude.{◌≡◌, ◌↔◌, ◌⊎◌, IfErr, IfOk, IsFalse, IsTrue, OnOk, Some, codes, slice_get, true};
ghost use Rattle.fdr_buffer.specs.Times.{IsTime};
ghost use Rattle.command_words.specs.{Items.{texts}, Ranges.{HasRanges}, Views.{command_view}};
ghost use Rattle.command_words.specs.Words.{reading};
ghost use Rattle.xray_io.specs.World.{desk_view, sink_view};
ghost use Rattle.thread_run.specs.Starters.{has_started};
ghost use Rattle.xray_program.specs.{Answers.{Answered, Says}, Commands.{IsStill}, Outcomes.{NoMemory, err_line_at}, Started.{StartsLate}};
ghost use Rattle.xray_program.specs.private.Stops.{answer_of, told_of, IsUnsaid};
ghost use Rattle.xray_program.specs.private.Works.{Ends, SaidHasRanges};

use crate::account::Account;
use crate::asm::Asm;
use crate::calls::Calls;
use crate::check::Check;
use crate::convert::Convert;
use crate::dump::Dump;
use crate::extract::Extract;
use crate::import::Import;
use crate::laws::what_is_done_is_traced;
use crate::load_order::LoadOrder;
use crate::map_program::MapProgram;
use crate::plain::Plain;
use crate::profile::perform_profile;
use crate::run::perform_run;
use crate::run_inputs::{Profile, Run};
use crate::sim::Sim;
use crate::soak::Soak;
use crate::stack::Stack;
use crate::stop::Stop;
use crate::traced::TraceFiles;
use crate::work::perform;
use command_words::{Command, commands_follow_their_rows, read_words};
use std::alloc::Global;
use std::sync::Wait;
use std::thread::Threads;
use thread_run::Starter;
use xray_io::{Desk, Gate, Sink, Wall};

/// Does what `words` say, with the files of `desk`. `words` don't hold the program's own name, and say
/// neither a `run` nor a `profile`. If `may_wait` returns `false`, they say none. Returns the program's status.
///
/// The microseconds of `wall` are below 1,000,000.
///
/// Status 0: all is done. 1: the words say no command. 2: an input is refused. 3: an input can't be
/// read. 4: an output of the command, or `out`, failed. 5: memory ran out. 6: an input has more
/// bytes than its limit. 7: all was written, and something is wrong all the same.
///
/// On 1 to 7 a line on `err` says so. Outputs and `out` are written only on 0, 4 and 7. On 4
/// everything before what failed is whole, and nothing after it is touched. No other name of the
/// desk changes. The call waits for nobody, and always returns.
pub fn xray_still<D: Desk, O: Sink, E: Sink>(
    alloc: Global,
    words: &[String],
    wall: Wall,
    desk: &mut D,
    out: &mut O,
    err: &mut E,
) -> u8
    requires still { IsStill (reading wall (texts words.now)) }
    requires wall { IsTime wall }
    ensures { let seen = desk_view D.held D.read_faults D.write_faults in
        let got = sink_view O.written O.faults in
        let heard = sink_view E.written E.faults in
        Answered (reading wall (texts words.now))
        (record { desk = seen desk.old; out = got out.old; err = heard err.old })
        (record { desk = seen desk.new; out = got out.new; err = heard err.new })
        (D.along desk.old desk.new) result }
{
    // Called for its contract: what is done has the headline.
    what_is_done_is_traced();
    let ended = perform_words(alloc, words, wall, desk, out);
    answer(ended, err)
}

/// Does what `words` say, with the files of `desk`. `words` don't hold the program's own name.
/// Returns the program's status, as `xray_still` does. `run` and `profile` start their threads through
/// `rt`, and they and the patcher pass `gate`. No clause says that they pass it, or that the call of
/// `run` or of `profile` returns. All other commands are those of `xray_still`.
///
/// It is `xray_through` with a starter of its own.
pub fn xray<T: Threads + Wait + Sync, D: Desk, O: Sink, E: Sink, G: Gate + Sync>(
    rt: &T,
    alloc: Global,
    words: &[String],
    wall: Wall,
    desk: &mut D,
    out: &mut O,
    err: &mut E,
    gate: &G,
) -> u8
    requires { IsTime wall }
    ensures { let seen = desk_view D.held D.read_faults D.write_faults in
        let got = sink_view O.written O.faults in
        let heard = sink_view E.written E.faults in
        Answered (reading wall (texts words.now))
        (record { desk = seen desk.old; out = got out.old; err = heard err.old })
        (record { desk = seen desk.new; out = got out.new; err = heard err.new })
        (D.along desk.old desk.new) result }
{
    let mut starter = Starter::new(rt, gate);
    xray_through(&mut starter, alloc, words, wall, desk, out, err)
}

/// Does what `words` say, as `xray` does. `run` and `profile` start their threads through the starter,
/// which then says so.
///
/// No thread has run if the words say another command or none, or if an input stops the call: status
/// 1, 2, 3 or 6. Nor has one if memory runs out: status 5. Only a `profile` may run out of memory
/// after its threads have ended, for its report.
pub fn xray_through<T: Threads + Wait + Sync, D: Desk, O: Sink, E: Sink, G: Gate + Sync>(
    starter: &mut Starter<'_, T, G>,
    alloc: Global,
    words: &[String],
    wall: Wall,
    desk: &mut D,
    out: &mut O,
    err: &mut E,
) -> u8
    requires { IsTime wall }
    ensures answered { let seen = desk_view D.held D.read_faults D.write_faults in
        let got = sink_view O.written O.faults in
        let heard = sink_view E.written E.faults in
        Answered (reading wall (texts words.now))
        (record { desk = seen desk.old; out = got out.old; err = heard err.old })
        (record { desk = seen desk.new; out = got out.new; err = heard err.new })
        (D.along desk.old desk.new) result }
    ensures starts { StartsLate (reading wall (texts words.now)) result
        (has_started starter.old) (has_started starter.new) }
{
    // Called for its contract: what is done has the headline.
    what_is_done_is_traced();
    let ended = perform_any_words(starter, alloc, words, wall, desk, out);
    answer(ended, err)
}

/// Whether the call of `words` may wait: the first of them is `run` or `profile`. If it is neither,
/// `xray_still` may make the call, whatever the wall time is.
pub fn may_wait(words: &[String]) -> bool
    ensures waits { IsTrue result ↔ (slice_get (texts words.now) 0 ≡ Some (codes "run"))
        ⊎ (slice_get (texts words.now) 0 ≡ Some (codes "profile")) }
    ensures still { IsFalse result → (wall : Wall) → IsStill (reading wall (texts words.now)) }
{
    commands_follow_their_rows();
    match words.split_first() {
        Some((word, _)) => starts_threads(word),
        None => false,
    }
}

/// Whether this is the word of a command that starts threads.
fn starts_threads(word: &str) -> bool
    ensures { IsTrue result ↔ (word.now ≡ codes "run") ⊎ (word.now ≡ codes "profile") }
{
    match word {
        "run" | "profile" => true,
        _ => false,
    }
}

/// Ends a call for whose words there is no memory. Returns its status, 5. A line on `err` says so.
pub fn out_of_memory<E: Sink>(err: &mut E) -> u8
    ensures status { result ≡ 5 }
    ensures says { let heard = sink_view E.written E.faults in
        Says (heard err.old) (heard err.new) (err_line_at NoMemory) }
{
    answer(Err(Stop::NoMemory), err)
}

/// The status of a call that ended so. If something stopped it, a line on `err` says what.
fn answer<E: Sink>(ended: Result<(), Stop>, err: &mut E) -> u8
    ensures status { result ≡ answer_of ended.entry }
    ensures says { let heard = sink_view E.written E.faults in
        Says (heard err.old) (heard err.new) (told_of ended.entry) }
{
    match ended {
        Ok(()) => 0,
        Err(stop) => {
            stop.report(err);
            stop.status()
        }
    }
}

/// The command that words say, or why they say none.
fn command_said<'a>(alloc: Global, wall: Wall, words: &'a [String]) -> Result<Command<'a>, Stop<'a>>
    requires { IsTime wall }
    ensures said { IfOk result (λ command. reading wall (texts words.entry.now) ≡ Some (command_view command)) }
    ensures ranges { IfOk result (λ command. HasRanges (command_view command)) }
    ensures stops { IfErr result (IsUnsaid (reading wall (texts words.entry.now))) }
{
    match read_words(alloc, wall, words) {
        Ok(Some(command)) => Ok(command),
        Ok(None) => Err(Stop::BadLine),
        Err(_) => Err(Stop::NoMemory),
    }
}

/// Does what any words say, and leaves err as it is.
fn perform_any_words<'a, T: Threads + Wait + Sync, D: Desk, O: Sink, G: Gate + Sync>(
    starter: &mut Starter<'_, T, G>,
    alloc: Global,
    words: &'a [String],
    wall: Wall,
    desk: &mut D,
    out: &mut O,
) -> Result<(), Stop<'a>>
    requires { IsTime wall }
    ensures ends { let seen = desk_view D.held D.read_faults D.write_faults in
        let got = sink_view O.written O.faults in
        Ends (reading wall (texts words.now)) (seen desk.old) (seen desk.new) (got out.old) (got out.new)
        (D.along desk.old desk.new) (answer_of result) (told_of result) }
    ensures ranges { OnOk result (SaidHasRanges (reading wall (texts words.now))) }
    ensures starts { StartsLate (reading wall (texts words.now)) (answer_of result)
        (has_started starter.old) (has_started starter.new) }
{
    let command = command_said(alloc, wall, words)?;
    perform_any(starter, alloc, command, desk, out)
}

/// Does what any command says.
fn perform_any<'a, T: Threads + Wait + Sync, D: Desk, O: Sink, G: Gate + Sync>(
    starter: &mut Starter<'_, T, G>,
    alloc: Global,
    command: Command<'a>,
    desk: &mut D,
    out: &mut O,
) -> Result<(), Stop<'a>>
    requires { HasRanges (command_view command) }
    ensures ends { let seen = desk_view D.held D.read_faults D.write_faults in
        let got = sink_view O.written O.faults in
        Ends (Some (command_view command.entry)) (seen desk.old) (seen desk.new) (got out.old) (got out.new)
        (D.along desk.old desk.new) (answer_of result) (told_of result) }
    ensures starts { StartsLate (Some (command_view command.entry)) (answer_of result)
        (has_started starter.old) (has_started starter.new) }
{
    match command {
        Command::Run {
            image,
            script,
            trace,
            audit,
            options,
        } => {
            let run = Run {
                image,
                script,
                files: TraceFiles { trace, audit },
                options,
            };
            perform_run(starter, alloc, &run, desk, out)
        }
        Command::Profile {
            image,
            script,
            options,
        } => {
            let profile = Profile {
                image,
                script,
                options,
            };
            perform_profile(starter, alloc, &profile, desk, out)
        }
        other => perform_command(alloc, other, desk, out),
    }
}

/// Does what the words say, and leaves err as it is. Their command waits for nobody.
fn perform_words<'a, D: Desk, O: Sink>(
    alloc: Global,
    words: &'a [String],
    wall: Wall,
    desk: &mut D,
    out: &mut O,
) -> Result<(), Stop<'a>>
    requires still { IsStill (reading wall (texts words.now)) }
    requires wall { IsTime wall }
    ensures ends { let seen = desk_view D.held D.read_faults D.write_faults in
        let got = sink_view O.written O.faults in
        Ends (reading wall (texts words.now)) (seen desk.old) (seen desk.new) (got out.old) (got out.new)
        (D.along desk.old desk.new) (answer_of result) (told_of result) }
    ensures ranges { OnOk result (SaidHasRanges (reading wall (texts words.now))) }
{
    let command = command_said(alloc, wall, words)?;
    perform_command(alloc, command, desk, out)
}

/// Does what a command says that waits for nobody.
fn perform_command<'a, D: Desk, O: Sink>(
    alloc: Global,
    command: Command<'a>,
    desk: &mut D,
    out: &mut O,
) -> Result<(), Stop<'a>>
    requires ranges { HasRanges (command_view command) }
    requires still { IsStill (Some (command_view command)) }
    ensures ends { let seen = desk_view D.held D.read_faults D.write_faults in
        let got = sink_view O.written O.faults in
        Ends (Some (command_view command.entry)) (seen desk.old) (seen desk.new) (got out.old) (got out.new)
        (D.along desk.old desk.new) (answer_of result) (told_of result) }
{
    match command {
        Command::Sim {
            image,
            script,
            schedule,
            trace,
            audit,
            options,
        } => {
            let files = TraceFiles { trace, audit };
            let sim = Sim {
                image,
                script,
                schedule,
                files,
                options,
            };
            perform(alloc, &sim, desk, out)
        }
        Command::Order {
            image,
            script,
            audit,
            free,
            schedule,
        } => {
            let order = LoadOrder {
                image,
                script,
                audit,
                free,
                schedule,
            };
            perform(alloc, &order, desk, out)
        }
        Command::Run { .. } | Command::Profile { .. } => unreachable!(),
        Command::Plain { image, bounds } => perform(alloc, &Plain { image, bounds }, desk, out),
        Command::Extract { image } => perform(alloc, &Extract { image }, desk, out),
        Command::Asm {
            text,
            image,
            threshold,
            relative,
        } => {
            let asm = Asm {
                text,
                image,
                threshold,
                relative,
            };
            perform(alloc, &asm, desk, out)
        }
        Command::Dump { trace } => perform(alloc, &Dump { trace }, desk, out),
        Command::Check {
            image,
            script,
            trace,
            audit,
        } => {
            let check = Check {
                image,
                script,
                trace,
                audit,
            };
            perform(alloc, &check, desk, out)
        }
        Command::Soak { number } => perform(alloc, &Soak { number }, desk, out),
        Command::Import { log, trace } => perform(alloc, &Import { log, trace }, desk, out),
        Command::Map { program, map } => perform(alloc, &MapProgram { program, map }, desk, out),
        Command::Account {
            trace,
            names,
            options,
        } => {
            let account = Account {
                trace,
                names,
                options,
            };
            perform(alloc, &account, desk, out)
        }
        Command::Calls {
            trace,
            names,
            options,
        } => {
            let calls = Calls {
                trace,
                names,
                options,
            };
            perform(alloc, &calls, desk, out)
        }
        Command::Stack {
            trace,
            names,
            format,
        } => {
            let stack = Stack {
                trace,
                names,
                format,
            };
            perform(alloc, &stack, desk, out)
        }
        Command::Convert {
            trace,
            names,
            options,
        } => {
            let convert = Convert {
                trace,
                names,
                options,
            };
            perform(alloc, &convert, desk, out)
        }
    }
}
