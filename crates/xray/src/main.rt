//! `xray`: LLVM's XRay function tracing, with sleds that are patched while threads run.
#![tactic(auto)]

ghost use Rattle.fdr_buffer.specs.Times.{IsTime};

use std::process::ExitCode;
use std::time::{SystemTime, UNIX_EPOCH};
use std::{env, io};
use thread_run::Starter;
use xray_io::{ErrSink, FileDesk, OpenGate, OutSink, Wall};
use xray_program::{may_wait, out_of_memory, xray_still, xray_through};

/// Does what the words of the command line say, over files and the standard streams, and ends with
/// the status. Only a command that may wait is given leave to wait.
///
/// Words that aren't UTF-8 say no command. If memory for the words is refused, the report is that
/// of a call for whose words there is no memory.
fn main(rt: HostRuntime) -> ExitCode {
    let words = match words_after_name(&rt) {
        Ok(words) => words,
        Err(error) if error.kind() == io::ErrorKind::OutOfMemory => {
            return ExitCode::from(out_of_memory(&mut ErrSink::new(rt.stderr())));
        }
        Err(_) => Vec::new(rt.alloc()),
    };
    let (alloc, wall) = (rt.alloc(), wall_time(&rt));
    let mut desk = FileDesk::new(&rt);
    let mut out = OutSink::new(&rt);
    let mut err = ErrSink::new(rt.stderr());
    let status = if may_wait(&words) {
        let mut starter = Starter::new(&rt, &OpenGate);
        xray_through(
            &mut starter,
            alloc,
            &words,
            wall,
            &mut desk,
            &mut out,
            &mut err,
        )
    } else {
        xray_still(alloc, &words, wall, &mut desk, &mut out, &mut err)
    };
    ExitCode::from(status)
}

/// The arguments without the first, which is the program's name.
fn words_after_name(rt: &HostRuntime) -> io::Result<Vec<String>> {
    let words = env::args(rt)?.skip(1).collect(rt.alloc())?;
    Ok(words)
}

/// The time of the clock. It is 1970-01-01 00:00:00 UTC if there is no clock, or if the clock is set
/// before that.
fn wall_time(rt: &HostRuntime) -> Wall
    ensures { IsTime result }
{
    match SystemTime::now(rt) {
        Ok(now) => since_epoch(now),
        Err(_) => EPOCH,
    }
}

/// 1970-01-01 00:00:00 UTC.
const EPOCH: Wall = Wall { secs: 0, micros: 0 };

/// A time of the clock as seconds and microseconds.
fn since_epoch(now: SystemTime) -> Wall
    ensures { IsTime result }
{
    match now.duration_since(UNIX_EPOCH) {
        Ok(passed) => Wall {
            secs: passed.as_secs(),
            micros: passed.subsec_micros(),
        },
        Err(_) => EPOCH,
    }
}
