//! The records of a block of the Flight Data Recorder mode.
ghost use Rattle.std.specs.Prelude.{◌≡◌, ◌<◌, ◌≤◌, ◌+◌, ◌^◌, Err, IfErr, IfOk, IfSome, IsTrue, None, Ok, OnOk, drop, length};
ghost use Rattle.fdr_file.specs.declared.events.Base.{Base as TheBase};
ghost use Rattle.fdr_file.specs.declared.stage.Span.{Span as TheSpan};
ghost use Rattle.runtime_log.specs.Logs.{block_size_rows, cut_length, lacks_an_end, log_record_rows};
ghost use Rattle.runtime_log.specs.OwnEvents.{counter_inside, counter_so_far, log_record_in, log_record_length, own_kind};
ghost use Rattle.runtime_log.specs.private.Walks.{IsCounted, IsPastStretch, OpensTo, StepsTo};

use crate::argument::{may_have_arg, traced_of};
use crate::own_event::{OwnKind, one_typed, own_delta, own_kind, own_size};
use crate::stretch::Stretch;
use crate::version::LogVersion;
use fdr_file::{
    Argument, Base, Inside, Span, Stage, Told, TraceFault, end_among, judge, record_len, stage_at,
    take_step, within_events,
};
use fdr_record::{Event, METADATA_BYTES, Rec, RecFault};

/// How many bytes may be lacking at the end of a block for each typed event in it.
const LACKING: u64 = 16;

/// A way through the records of a block, from one to the next. A record of the program's own stands
/// for the record of a trace that says the counter at it.
#[derive(Clone, Copy)]
pub(crate) struct BlockWalk<'a> {
    version: LogVersion,
    /// The bytes of the block from the next record on.
    rest: &'a [u8],
    /// The place of the next record.
    at: u64,
    stage: Stage,
}

/// What is at a place: its length, the record that it stands for, and its kind if it is an event of
/// the program's own.
#[derive(Clone, Copy)]
struct Found {
    len: usize,
    rec: Result<Rec, RecFault>,
    own: Option<OwnKind>,
}

/// The counter of the last record, if a CPU was named; otherwise 0.
fn counter_inside(inside: Inside) -> u64
    ensures { result ≡ counter_inside inside }
{
    match inside {
        Inside::Opened | Inside::Thread { .. } | Inside::Wall { .. } => 0,
        Inside::Events { base } => match base {
            Some(base) => base.tsc,
            None => 0,
        },
    }
}

/// The same, where the reading of a block stands.
fn counter_so_far(stage: Stage) -> u64
    ensures { result ≡ counter_so_far stage }
{
    match stage {
        Stage::Within { inside, .. } => counter_inside(inside),
        Stage::Due | Stage::Faulty { .. } => 0,
    }
}

/// What bytes begin with, at this stage.
fn found_in(version: LogVersion, stage: Stage, bytes: &[u8]) -> Found
    requires { 0 < length bytes.now }
    ensures len { result.len ≡ log_record_length version bytes.now }
    ensures some { 0 < result.len }
    ensures rec { result.rec ≡ log_record_in version stage bytes.now }
    ensures own { result.own ≡ own_kind version bytes.now }
{
    let own = own_kind(version, bytes);
    if own.is_none() {
        return Found {
            len: record_len(bytes),
            rec: traced_of(bytes),
            own,
        };
    }
    let delta = u64::from(own_delta(version, bytes));
    let tsc = counter_so_far(stage).wrapping_add(delta);
    Found {
        len: METADATA_BYTES + own_size(bytes) as usize,
        rec: Ok(Rec::TscWrap { tsc }),
        own,
    }
}

/// How many bytes the block at a place has after its extents, which these bytes begin with.
fn block_size(version: LogVersion, at: u64, bytes: &[u8]) -> Result<usize, TraceFault>
    requires { length bytes.now < 2 ^ 32 }
    ensures size { result ≡ block_size_rows version (at, bytes.now) }
    ensures whole { OnOk result (16 ≤ length bytes.now) }
    ensures fits { IfOk result (λ size. 16 + size ≤ length bytes.now) }
{
    if bytes.len() < METADATA_BYTES {
        return Err(TraceFault::Short(at));
    }
    let rec = match found_in(version, Stage::Due, bytes).rec {
        Ok(rec) => rec,
        Err(fault) => return Err(TraceFault::Bad(at, fault)),
    };
    let Rec::Extents { size } = rec else {
        return Err(TraceFault::Order(at));
    };
    if size > 0 && size < version.as_trace().preamble_bytes() {
        return Err(TraceFault::Extents(at));
    }
    if (bytes.len() as u128) < METADATA_BYTES as u128 + u128::from(size) {
        return Err(TraceFault::Short(at));
    }
    Ok(size as usize)
}

/// The length of the record that bytes begin with, and of what stands behind it.
fn log_record_len(version: LogVersion, bytes: &[u8]) -> usize
    requires { 0 < length bytes.now }
    ensures is { result ≡ log_record_length version bytes.now }
    ensures some { 0 < result }
    ensures few { result < 2 ^ 33 }
{
    match own_kind(version, bytes) {
        Some(_) => METADATA_BYTES + own_size(bytes) as usize,
        None => record_len(bytes),
    }
}

/// Whether the record that bytes at the end of a block begin with is cut, for so many typed events in
/// this block.
fn is_cut(version: LogVersion, size: usize, typed: u64, rest: &[u8]) -> bool
    requires some { 0 < length rest.now }
    requires few { (length rest.now < 2 ^ 32) × (typed < 2 ^ 32) }
    ensures { result ≡ lacks_an_end version size typed rest.now }
{
    let len = log_record_len(version, rest);
    rest.len() < len
        && len as u64 <= rest.len() as u64 + LACKING * typed
        && version.as_trace().preamble_bytes() + rest.len() as u64 <= size as u64
}

/// How many bytes at the end of a block's content are those of a record that is cut.
fn cut_len(version: LogVersion, content: &[u8]) -> usize
    requires { length content.now < 2 ^ 32 }
    ensures is { result ≡ cut_length version content.now }
    ensures within { result ≤ length content.now }
{
    let mut at = 0;
    let mut typed = 0;
    'records: while at < content.len() {
        let rest = &content[at..];
        typed += one_typed(version, rest[0]);
        if is_cut(version, content.len(), typed, rest) {
            return rest.len();
        }
        at += log_record_len(version, rest);
    }
    0
}

/// A block whose records come next.
#[derive(Clone, Copy)]
pub(crate) struct OpenedBlock<'a> {
    /// The way through its records, up to the one that is cut.
    pub(crate) walk: BlockWalk<'a>,
    /// How many bytes are left of the record that is cut at its end: 0 if none is.
    pub(crate) cut: usize,
}

impl<'a> BlockWalk<'a> {
    /// Before the first record of the block at a place, whose extents these bytes begin with.
    pub(crate) fn open(
        version: LogVersion,
        at: u64,
        bytes: &'a [u8],
    ) -> Result<OpenedBlock<'a>, TraceFault>
        requires few { at + length bytes.now < 2 ^ 32 }
        ensures { OpensTo version at bytes.entry.now result }
    {
        let size = block_size(version, at, bytes)?;
        let content = &bytes[METADATA_BYTES..];
        let content = &content[..size];
        let cut = cut_len(version, content);
        let rest = &content[..size - cut];
        let end = u128::from(at) + (METADATA_BYTES + rest.len()) as u128;
        let walk = BlockWalk {
            version,
            rest,
            at: at + METADATA_BYTES as u64,
            stage: Stage::Within {
                span: Span { begin: at, end },
                inside: Inside::Opened,
            },
        };
        Ok(OpenedBlock { walk, cut })
    }

    /// The place of the next record, or that after the block.
    pub(crate) fn at(&self) -> u64
        ensures { result ≡ self.now.at }
    {
        self.at
    }

    /// How many bytes of the block are left.
    pub(crate) fn left(&self) -> usize
        ensures { result ≡ length self.now.rest.now }
    {
        self.rest.len()
    }

    /// Where the reading stands after the next record, the length of the record and what it says, if it
    /// is one of a trace among the events of the block, and a CPU was named before.
    #[inline(always)]
    fn event_next(&self) -> Option<(Stage, usize, Told)>
        requires few { self.now.at + length self.now.rest.now < 2 ^ 32 }
        requires left { 0 < length self.now.rest.now }
        ensures says { IfSome result (λ x. log_record_rows self.now.version self.now.stage
            (self.now.at, self.now.rest.now) ≡ Ok (x.0, x.2)) }
        ensures len { IfSome result (λ x. (x.1 ≡ log_record_length self.now.version self.now.rest.now)
            × (0 < x.1) × (x.1 ≤ length self.now.rest.now)) }
        ensures own { IfSome result (λ _. own_kind self.now.version self.now.rest.now ≡ None) }
    {
        if own_kind(self.version, self.rest).is_some() || may_have_arg(self.rest) {
            return None;
        }
        let (span, base) = within_events(self.stage)?;
        let end = end_among(span, self.at, self.rest);
        let ((known, entry, event), len) = take_step(self.rest, 0, self.at, end, base)?;
        let next = u128::from(self.at) + len as u128;
        if next > span.end {
            return None;
        }
        let inside = Inside::Events { base: Some(known) };
        let stage = stage_at(span, next, inside);
        Some((stage, len, Told::Noted { entry, event }))
    }

    /// The way after a record of this length, which leads to this stage.
    #[inline(always)]
    fn past(self, stage: Stage, len: usize) -> BlockWalk<'a>
        requires few { self.at + length self.rest.now < 2 ^ 32 }
        requires within { len ≤ length self.rest.now }
        ensures version { result.version ≡ self.entry.version }
        ensures rest { result.rest.now ≡ drop len self.entry.rest.now }
        ensures place { result.at ≡ self.entry.at + len }
        ensures stage { result.stage ≡ stage }
    {
        BlockWalk {
            version: self.version,
            rest: &self.rest[len..],
            at: self.at + len as u64,
            stage,
        }
    }

    /// The way after the next record, whatever it is, and what `step` returns.
    #[inline(never)]
    fn after_any(self) -> Result<(BlockWalk<'a>, Told, Option<OwnKind>), TraceFault>
        requires few { self.at + length self.rest.now < 2 ^ 32 }
        requires left { 0 < length self.rest.now }
        ensures says { IfOk result (λ x. StepsTo self.entry x.0 (Ok (x.1, x.2))) }
        ensures refuses { IfErr result (λ fault. StepsTo self.entry self.entry (Err fault)) }
    {
        let found = found_in(self.version, self.stage, self.rest);
        if self.rest.len() < found.len {
            return Err(TraceFault::Extents(self.at));
        }
        let (stage, told) = judge(
            self.version.as_trace(),
            self.stage,
            self.at,
            found.len,
            found.rec,
        );
        if let Stage::Faulty { fault, .. } = stage {
            return Err(fault);
        }
        Ok((self.past(stage, found.len), told, found.own))
    }

    /// The block's place, and the CPU and the counter of the last record, if the next one is among the
    /// events of the block, and may not be an argument.
    #[inline(always)]
    fn counted(&self) -> Option<(Span, Base)>
        requires few { self.now.at + length self.now.rest.now < 2 ^ 32 }
        ensures { IfSome result (λ x. IsCounted self.now x.0 x.1) }
    {
        let (span, base) = within_events(self.stage)?;
        let Argument::Barred = base.argument else {
            return None;
        };
        if u128::from(self.at) + self.rest.len() as u128 != span.end {
            return None;
        }
        Some((span, base))
    }

    /// Whether the last record was on the CPU and at the counter of an event.
    #[inline(always)]
    pub(crate) fn is_at(&self, event: &Event) -> bool
        requires few { self.now.at + length self.now.rest.now < 2 ^ 32 }
        ensures { IsTrue result → (span : TheSpan) × (base : TheBase) × IsCounted self.now span base
            × (base.cpu ≡ event.now.cpu) × (base.tsc ≡ event.now.tsc) }
    {
        match self.counted() {
            Some((_, base)) => base.cpu == event.cpu && base.tsc == event.tsc,
            None => false,
        }
    }

    /// The longest stretch that is next and has at most so many bytes, and the way after it.
    #[inline(always)]
    pub(crate) fn stretch(&self, most: usize) -> Option<(Stretch<'a>, BlockWalk<'a>)>
        requires few { self.now.at + length self.now.rest.now < 2 ^ 32 }
        ensures past { IfSome result (λ x. IsPastStretch self.now x.0 x.1) }
        ensures within { IfSome result (λ x. length x.0.records.now ≤ most) }
    {
        let (span, base) = self.counted()?;
        let stretch = Stretch::of(base.cpu, base.tsc, self.rest, most)?;
        let len = stretch.records.len();
        let base = Base {
            tsc: stretch.last.tsc,
            ..base
        };
        let next = u128::from(self.at) + len as u128;
        let stage = stage_at(span, next, Inside::Events { base: Some(base) });
        Some((stretch, self.past(stage, len)))
    }

    /// Goes past the next record. Returns what it says, and its kind if it is an event of the
    /// program's own.
    #[inline(always)]
    pub(crate) fn step(&mut self) -> Result<(Told, Option<OwnKind>), TraceFault>
        requires few { self.old.at + length self.old.rest.now < 2 ^ 32 }
        requires left { 0 < length self.old.rest.now }
        ensures { StepsTo self.old self.new result }
    {
        if let Some((stage, len, told)) = self.event_next() {
            *self = self.past(stage, len);
            return Ok((told, None));
        }
        match self.after_any() {
            Ok((walk, told, own)) => {
                *self = walk;
                Ok((told, own))
            }
            Err(fault) => Err(fault),
        }
    }
}
