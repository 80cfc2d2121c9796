//! Reading a trace record by record: where the reading stands.

ghost use Rattle.std.specs.Prelude.{◌≡◌, ◌≢◌, ◌≤◌, ◌+◌, ◌==◌, ℕ, Some, IfNone, IfSome, length};
ghost use Rattle.fdr_file.specs.declared.events.Base.{Base as TheBase};
ghost use Rattle.fdr_file.specs.declared.stage.Span.{Span as TheSpan};
ghost use Rattle.fdr_file.specs.Scanning.{after_wall, extents_next, inside_judged, inside_next, record_within, stage_after, stage_judged, stage_within};

use crate::events::{Base, step};
use crate::version::NO_PROCESS;
use crate::{TraceFault, Version};
use fdr_record::{Event, METADATA_BYTES, Rec, RecFault};
use xray_io::Wall;

/// A block's place, and the place after the block.
#[derive(Clone, Copy)]
pub struct Span {
    /// The place of its extents.
    pub begin: u64,
    /// The place after it, which may be beyond the file.
    pub end: u128,
}

/// What the records of a block have said so far.
#[derive(Clone, Copy)]
pub enum Inside {
    /// Nothing. The thread is next.
    Opened,
    /// The thread. The wall time is next.
    Thread {
        /// The thread's id.
        thread: u32,
    },
    /// The thread and the wall time, in version 3. The process is next.
    Wall {
        /// The thread's id.
        thread: u32,
        /// When the buffer was begun.
        wall: Wall,
    },
    /// The preamble, and a CPU and a counter if one was named. CPUs, counters, functions and
    /// arguments are next.
    Events {
        /// The CPU and the counter.
        base: Option<Base>,
    },
}

/// Where the reading stands.
#[derive(Clone, Copy)]
pub enum Stage {
    /// A block is next.
    Due,
    /// Within a block.
    Within {
        /// The block's place.
        span: Span,
        /// What its records have said.
        inside: Inside,
    },
    /// After a fault. It is the fault of the bytes if the block is whole.
    Faulty {
        /// The block's place.
        span: Span,
        /// The fault.
        fault: TraceFault,
    },
}

/// What a record says of the blocks.
#[derive(Clone, Copy)]
pub enum Told {
    /// Nothing yet.
    Nothing,
    /// A block begins.
    Begun {
        /// Its thread.
        thread: u32,
        /// When its buffer was begun.
        wall: Wall,
        /// The process of the thread.
        pid: u32,
    },
    /// The last block has these events more: that of an entry before the record, and that of the
    /// record.
    Noted {
        /// The entry before the record, whose argument it may have.
        entry: Option<Event>,
        /// The event of the record.
        event: Option<Event>,
    },
}

/// The place of the block, and the CPU and the counter, if a record among the events of a block is
/// next, and a CPU was named before. Otherwise `None`.
#[inline(always)]
pub fn within_events(stage: Stage) -> Option<(Span, Base)>
    ensures some { IfSome result (λ x. stage ≡ Stage.Within x.0 (Inside.Events (Some x.1))) }
    ensures none { IfNone result ((span : TheSpan) (base : TheBase)
        → stage ≢ Stage.Within span (Inside.Events (Some base))) }
{
    let Stage::Within { span, inside } = stage else {
        return None;
    };
    let Inside::Events { base: Some(base) } = inside else {
        return None;
    };
    Some((span, base))
}

/// Where a block ends among bytes that begin at this place, counted from their start. It is a place
/// beyond them if the block doesn't end among them.
#[inline(always)]
pub fn end_among(span: Span, at: u64, bytes: &[u8]) -> usize
    ensures { (next : ℕ) → next ≤ length bytes.now → (next == result) ≡ (at + next == span.end) }
{
    let at = u128::from(at);
    if at <= span.end && span.end <= at + bytes.len() as u128 {
        (span.end - at) as usize
    } else {
        bytes.len() + 1
    }
}

/// The stage after the record that a block begins with.
fn extents(version: Version, at: u64, found: Result<Rec, RecFault>) -> Stage
    ensures { result ≡ extents_next version at found }
{
    let end = u128::from(at) + METADATA_BYTES as u128;
    let span = Span { begin: at, end };
    let rec = match found {
        Ok(rec) => rec,
        Err(fault) => {
            let fault = TraceFault::Bad(at, fault);
            return Stage::Faulty { span, fault };
        }
    };
    let Rec::Extents { size } = rec else {
        let fault = TraceFault::Order(at);
        return Stage::Faulty { span, fault };
    };
    if size < version.preamble_bytes() {
        let fault = TraceFault::Extents(at);
        return Stage::Faulty { span, fault };
    }
    let end = end + u128::from(size);
    Stage::Within {
        span: Span { begin: at, end },
        inside: Inside::Opened,
    }
}

/// The record at a place within a block, if it ends within the block.
fn within(span: Span, at: u64, len: usize, found: Result<Rec, RecFault>) -> Result<Rec, TraceFault>
    ensures { result ≡ record_within span at len found }
{
    if span.end < u128::from(at) + len as u128 {
        return Err(TraceFault::Extents(at));
    }
    match found {
        Ok(rec) => Ok(rec),
        Err(RecFault::Short) => Err(TraceFault::Extents(at)),
        Err(fault @ (RecFault::Action(_) | RecFault::Kind(_))) => Err(TraceFault::Bad(at, fault)),
    }
}

/// What a wall time says after a thread, and what is next.
fn past_wall(version: Version, thread: u32, wall: Wall) -> (Inside, Told)
    ensures { result ≡ after_wall version thread wall }
{
    match version {
        Version::Two => {
            let pid = NO_PROCESS;
            (
                Inside::Events { base: None },
                Told::Begun { thread, wall, pid },
            )
        }
        Version::Three => (Inside::Wall { thread, wall }, Told::Nothing),
    }
}

/// What a record within a block says. `ends` says whether the block ends with it.
fn go_on(
    version: Version,
    inside: Inside,
    ends: bool,
    at: u64,
    rec: Rec,
) -> Result<(Inside, Told), TraceFault>
    ensures { result ≡ inside_next version inside ends at rec }
{
    match inside {
        Inside::Opened => {
            let Rec::NewBuffer { thread } = rec else {
                return Err(TraceFault::Order(at));
            };
            Ok((Inside::Thread { thread }, Told::Nothing))
        }
        Inside::Thread { thread } => {
            let Rec::WallTime { wall } = rec else {
                return Err(TraceFault::Order(at));
            };
            Ok(past_wall(version, thread, wall))
        }
        Inside::Wall { thread, wall } => {
            let Rec::Pid { pid } = rec else {
                return Err(TraceFault::Order(at));
            };
            Ok((
                Inside::Events { base: None },
                Told::Begun { thread, wall, pid },
            ))
        }
        Inside::Events { base } => {
            let (known, entry, event) = step(ends, at, rec, base)?;
            let inside = Inside::Events { base: Some(known) };
            Ok((inside, Told::Noted { entry, event }))
        }
    }
}

/// What is at a place within a block says this, if it may stand there.
fn judge_within(
    version: Version,
    span: Span,
    inside: Inside,
    at: u64,
    len: usize,
    found: Result<Rec, RecFault>,
) -> Result<(Inside, Told), TraceFault>
    ensures { result ≡ inside_judged version span inside at len found }
{
    let rec = within(span, at, len, found)?;
    let ends = u128::from(at) + len as u128 == span.end;
    go_on(version, inside, ends, at, rec)
}

/// The stage after a record of a block that ends at this place.
#[inline(always)]
pub fn stage_at(span: Span, at: u128, inside: Inside) -> Stage
    ensures { result ≡ stage_after span at inside }
{
    if at == span.end {
        Stage::Due
    } else {
        Stage::Within { span, inside }
    }
}

/// The stage after a record within a block, and what it says.
fn after(
    span: Span,
    at: u64,
    len: usize,
    judged: Result<(Inside, Told), TraceFault>,
) -> (Stage, Told)
    ensures { result ≡ stage_within span (at + len) judged }
{
    match judged {
        Ok((inside, told)) => {
            let next = u128::from(at) + len as u128;
            (stage_at(span, next, inside), told)
        }
        Err(fault) => (Stage::Faulty { span, fault }, Told::Nothing),
    }
}

/// The stage after what is at a place, and what it says of the blocks. `len` is the length of a
/// record with this first byte. A form of the file may have other records between those of a trace.
/// What such a record does to the counter is said by the record `found` that it stands for, and its
/// length by `len`.
pub fn judge(
    version: Version,
    stage: Stage,
    at: u64,
    len: usize,
    found: Result<Rec, RecFault>,
) -> (Stage, Told)
    ensures { result ≡ stage_judged version stage at len found }
{
    match stage {
        Stage::Due => (extents(version, at, found), Told::Nothing),
        Stage::Within { span, inside } => {
            let judged = judge_within(version, span, inside, at, len, found);
            after(span, at, len, judged)
        }
        Stage::Faulty { .. } => (stage, Told::Nothing),
    }
}
