//! The options of the commands that run threads.
ghost use Rattle.std.specs.Prelude.{◌≡◌, IfSome};
ghost use Rattle.fdr_buffer.specs.Times.{IsTime};
ghost use Rattle.command_words.specs.Ranges.{AreBounds, AreBuffers, AreRunOptions, AreStamps};
ghost use Rattle.command_words.specs.private.CodeViews.{line_view};
ghost use Rattle.command_words.specs.Words.{bounds_in, buffers_in, have_room, run_options_in, stamps_in, wall_in};

use crate::line::Line;
use crate::tables::{
    BUFFER_MAX, BUFFER_SIZE, CPUS, FREQUENCY, FUEL, MIGRATE, PASSINGS, PID, THREADS, TICK, TSC,
    WALL,
};
use fdr_buffer::TRACE_LIMIT;
use xray_io::Wall;

/// How many bytes of a trace file come before its buffers: its header (`HEADER_BYTES` of `fdr_file`).
const HEADER_BYTES: u64 = 32;

/// How many bytes of a trace file come before each buffer: its `BufferExtents` record
/// (`METADATA_BYTES` of `fdr_record`).
const EXTENTS_BYTES: u64 = 16;

/// The limits of a run's threads.
#[derive(Clone, Copy)]
pub struct Bounds {
    /// How many threads there are, from 1 to 16.
    pub threads: u32,
    /// The most instructions that a thread makes, up to 1,000,000,000.
    pub fuel: u64,
    /// The most passings of sleds that a thread makes, up to 1,048,576.
    pub passings: u32,
}

/// How the passings of threads are stamped.
#[derive(Clone, Copy)]
pub struct Stamps {
    /// By how many cycles each instruction advances the counter (TSC).
    pub tick: u64,
    /// The counter at the start, in cycles.
    pub tsc: u64,
    /// How many CPUs a thread moves between, at least 1.
    pub cpus: u16,
    /// How many passings a thread makes before it moves to the next CPU, from 1 to 1,048,576.
    pub migrate: u32,
}

/// The buffers of a run's events.
#[derive(Clone, Copy)]
pub struct Buffers {
    /// The size of a buffer in bytes, from 88 to 1,048,576.
    pub size: u32,
    /// How many buffers there are: at least one per thread, at most 1,024.
    pub max: u32,
}

/// All options of a run.
#[derive(Clone, Copy)]
pub struct RunOptions {
    /// The limits of its threads.
    pub bounds: Bounds,
    /// How passings are stamped.
    pub stamps: Stamps,
    /// The frequency of the counter in cycles per second, as the trace's header says it. 0 means
    /// that it isn't known.
    pub frequency: u64,
    /// The buffers of events. All of them fit a trace file of 67,108,864 bytes.
    pub buffers: Buffers,
    /// The number of the process, below 2^31.
    pub pid: u32,
    /// The wall time that is written in each buffer.
    pub wall: Wall,
}

impl RunOptions {
    /// Whether there is a buffer for each thread, and all buffers fit a trace file.
    fn have_room(&self) -> bool
        requires { AreBuffers self.now.buffers }
        ensures { result ≡ have_room self.now }
    {
        let max = u64::from(self.buffers.max);
        let size = u64::from(self.buffers.size);
        self.bounds.threads <= self.buffers.max
            && max * (size + EXTENTS_BYTES) + HEADER_BYTES <= TRACE_LIMIT
    }
}

/// The limits of the threads. `None` if a value isn't allowed.
pub(crate) fn bounds_in(line: &Line<'_>) -> Option<Bounds>
    ensures reads { result ≡ bounds_in (line_view line.now) }
    ensures ranges { IfSome result AreBounds }
{
    Some(Bounds {
        threads: THREADS.number_given(line)? as u32,
        fuel: FUEL.number_given(line)?,
        passings: PASSINGS.number_given(line)? as u32,
    })
}

/// How passings are stamped. `None` if a value isn't allowed.
pub(crate) fn stamps_in(line: &Line<'_>) -> Option<Stamps>
    ensures reads { result ≡ stamps_in (line_view line.now) }
    ensures ranges { IfSome result AreStamps }
{
    Some(Stamps {
        tick: TICK.number_given(line)?,
        tsc: TSC.number_given(line)?,
        cpus: CPUS.number_given(line)? as u16,
        migrate: MIGRATE.number_given(line)? as u32,
    })
}

/// The buffers. `None` if a value isn't allowed.
fn buffers_in(line: &Line<'_>) -> Option<Buffers>
    ensures reads { result ≡ buffers_in (line_view line.now) }
    ensures ranges { IfSome result AreBuffers }
{
    Some(Buffers {
        size: BUFFER_SIZE.number_given(line)? as u32,
        max: BUFFER_MAX.number_given(line)? as u32,
    })
}

/// The wall time that the line gives, or else the one that is passed in. `None` if the value isn't
/// a number of seconds.
fn wall_in(wall: Wall, line: &Line<'_>) -> Option<Wall>
    requires { IsTime wall }
    ensures reads { result ≡ wall_in wall (line_view line.now) }
    ensures time { IfSome result IsTime }
{
    match WALL.number_if_given(line)? {
        Some(secs) => Some(Wall { secs, micros: 0 }),
        None => Some(wall),
    }
}

/// All options of a run. It begins at this wall time, unless the line gives another. `None` if a
/// value isn't allowed, or if the buffers don't fit.
#[tactic(auto, unfolding(crate::specs::Words::run_options_in))]
pub(crate) fn run_options_in(wall: Wall, line: &Line<'_>) -> Option<RunOptions>
    requires { IsTime wall }
    ensures reads { result ≡ run_options_in wall (line_view line.now) }
    ensures ranges { IfSome result AreRunOptions }
{
    let bounds = bounds_in(line)?;
    let stamps = stamps_in(line)?;
    let frequency = FREQUENCY.number_given(line)?;
    let buffers = buffers_in(line)?;
    let pid = PID.number_given(line)?;
    let wall = wall_in(wall, line)?;
    let options = RunOptions {
        bounds,
        stamps,
        frequency,
        buffers,
        pid: pid as u32,
        wall,
    };
    if options.have_room() {
        Some(options)
    } else {
        None
    }
}
