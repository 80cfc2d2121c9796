//! Reading a trace piece by piece.

ghost use Rattle.std.specs.Prelude.{◌≡◌, ◌≢◌, ◌≤◌, ◌<◌, ◌+◌, ◌^◌, ℕ, [], ◌∷◌, ◌++◌, List, Err, length, take, IfOk, OnOk, OnErr, IfSome};
ghost use Rattle.xray_io.specs.Faults.{Rose};
ghost use Rattle.fdr_file.specs.declared.trace.Block.{Block};
ghost use Rattle.fdr_file.specs.Scanning.{blocks_given, header_on, with_blocks, with_event, with_told};
ghost use Rattle.fdr_file.specs.Traces.{record_length, trace_of};
ghost use Rattle.fdr_file.specs.Streams.{HasLast, Scans};
ghost use Rattle.fdr_file.specs.private.Scan.{Advances, CanTell, EventsNext, answered_by, header_longer, header_taken, last_stage, record_advanced, record_longer, record_passed, stage_answers};

use crate::events::{Base, take_step};
use crate::header::{HEADER_BYTES, read_header};
use crate::prefix::Prefix;
use crate::records::{record_len, record_of};
use crate::stage::{Inside, Span, Stage, Told, end_among, judge, stage_at, within_events};
use crate::{Header, Taker, TraceFault, Version};
use fdr_record::Event;
use xray_io::NoMemory;

/// What is known of the header.
#[derive(Clone, Copy)]
pub(crate) enum Head {
    /// It isn't whole yet.
    Due,
    /// It was read.
    Read { version: Version, header: Header },
    /// It has this fault.
    Refused { fault: TraceFault },
}

/// Reads a trace piece by piece, in constant memory, and gives its blocks and events to a `Taker`.
#[derive(Drop)]
pub struct TraceScan {
    head: Head,
    stage: Stage,
    /// The place of the next record.
    at: u64,
    /// The bytes from there on, as long as the record, or the header, isn't whole.
    prefix: Prefix,
}

/// How many of the bytes from a place on belong to a block, if there are so many.
fn len_within(span: Span, at: u64, len: usize) -> usize
    ensures within { result ≤ len }
    ensures block { 0 < result → at + result ≤ span.end }
{
    let left = span.end.saturating_sub(u128::from(at));
    if left < len as u128 {
        left as usize
    } else {
        len
    }
}

/// Gives a taker an event, if there is one.
#[inline(always)]
fn note<K: Taker>(taker: &mut K, event: Option<Event>) -> Result<(), NoMemory>
    requires { (blocks : List Block) × K.took taker.old blocks × HasLast blocks }
    ensures took { OnOk result ((blocks : List Block) → K.took taker.old blocks
        → HasLast blocks → K.took taker.new (with_event event blocks)) }
    ensures refused { OnErr result (Rose (K.refusals taker.old) (K.refusals taker.new)) }
    ensures later { K.refusals taker.old ≤ K.refusals taker.new }
{
    match event {
        Some(event) => taker.event(&event),
        None => Ok(()),
    }
}

/// Tells a taker what a record says.
#[inline(always)]
fn tell<K: Taker>(taker: &mut K, told: Told) -> Result<(), NoMemory>
    requires { (blocks : List Block) × K.took taker.old blocks × CanTell told blocks }
    ensures took { OnOk result ((blocks : List Block) → K.took taker.old blocks
        → CanTell told blocks → K.took taker.new (with_told told blocks)) }
    ensures refused { OnErr result (Rose (K.refusals taker.old) (K.refusals taker.new)) }
    ensures later { K.refusals taker.old ≤ K.refusals taker.new }
{
    match told {
        Told::Nothing => Ok(()),
        Told::Begun { thread, wall, pid } => taker.block(thread, wall, pid),
        Told::Noted { entry, event } => {
            note(taker, entry)?;
            note(taker, event)
        }
    }
}

impl TraceScan {
    /// A scan that was fed no bytes.
    pub fn new() -> TraceScan
        ensures { Scans result [] }
    {
        TraceScan {
            head: Head::Due,
            stage: Stage::Due,
            at: 0,
            prefix: Prefix::new(),
        }
    }

    /// Reads the header.
    fn open(&mut self)
        ensures { self.new ≡ header_taken self.old (header_on self.old.prefix) }
    {
        match read_header(self.prefix.as_slice()) {
            Ok((version, header)) => {
                self.head = Head::Read { version, header };
                self.at = HEADER_BYTES as u64;
                self.prefix.clear();
            }
            Err(fault) => self.head = Head::Refused { fault },
        }
    }

    /// Adds a byte of the header.
    fn add_to_header(&mut self, byte: u8)
        requires { length self.old.prefix < 32 }
        ensures { self.new ≡ header_longer self.old byte }
    {
        self.prefix.add(byte);
        if self.prefix.as_slice().len() == HEADER_BYTES {
            self.open();
        }
    }

    /// Goes past the record whose bytes are the prefix.
    fn pass_prefix(&mut self, version: Version) -> Told
        requires some { 0 < length self.old.prefix }
        requires whole { record_length self.old.prefix ≤ length self.old.prefix }
        requires room { self.old.at + length self.old.prefix < 2 ^ 64 }
        ensures { (self.new, result) ≡ record_passed version self.old self.old.prefix }
    {
        let bytes = self.prefix.as_slice();
        let len = record_len(bytes);
        let (stage, told) = judge(version, self.stage, self.at, len, record_of(bytes));
        self.stage = stage;
        self.at += len as u64;
        self.prefix.clear();
        told
    }

    /// Adds a byte of a record. The record is passed if it is whole then.
    fn add_to_record(&mut self, version: Version, byte: u8) -> Told
        requires few { length self.old.prefix < 16 }
        requires room { self.old.at + length self.old.prefix + 1 < 2 ^ 64 }
        ensures { (self.new, result) ≡ record_longer version self.old byte }
    {
        self.prefix.add(byte);
        let bytes = self.prefix.as_slice();
        if bytes.len() < record_len(bytes) {
            return Told::Nothing;
        }
        self.pass_prefix(version)
    }

    /// Goes past the record that these bytes begin with, if none of it came before. Returns its
    /// length, and what it says.
    fn pass_here(&mut self, version: Version, bytes: &[u8]) -> (usize, Told)
        requires some { 0 < length bytes.now }
        requires whole { record_length bytes.now ≤ length bytes.now }
        requires none { self.old.prefix ≡ [] }
        requires room { self.old.at + length bytes.now < 2 ^ 64 }
        ensures passed { (self.new, result.1) ≡ record_passed version self.old bytes.now }
        ensures length { result.0 ≡ record_length bytes.now }
    {
        let len = record_len(bytes);
        let (stage, told) = judge(version, self.stage, self.at, len, record_of(bytes));
        self.stage = stage;
        self.at += len as u64;
        (len, told)
    }

    /// Goes on by the first bytes of a piece, which begins or goes on with a record. Returns how many
    /// bytes they are, and what they say.
    fn advance_record(&mut self, version: Version, piece: &[u8]) -> (usize, Told)
        requires some { 0 < length piece.now }
        requires few { length self.old.prefix < 16 }
        requires room { self.old.at + length self.old.prefix + length piece.now < 2 ^ 64 }
        ensures { (self.new, result) ≡ record_advanced version self.old piece.now }
    {
        if self.prefix.as_slice().is_empty() && piece.len() >= record_len(piece) {
            return self.pass_here(version, piece);
        }
        (1, self.add_to_record(version, piece[0]))
    }

    /// Goes on by the first bytes of a piece. Returns how many they are, and what they say.
    fn advance(&mut self, piece: &[u8]) -> (usize, Told)
        requires some { 0 < length piece.now }
        requires stands { (stream : List ℕ) × Scans self.old stream
            × (length stream + length piece.now < 2 ^ 64) }
        ensures some { 0 < result.0 }
        ensures within { result.0 ≤ length piece.now }
        ensures advances { (stream : List ℕ) → Scans self.old stream
            → Advances self.new stream (take result.0 piece.now) result.1 }
    {
        match self.head {
            Head::Due => {
                self.add_to_header(piece[0]);
                (1, Told::Nothing)
            }
            Head::Read { version, .. } => self.advance_record(version, piece),
            Head::Refused { .. } => (piece.len(), Told::Nothing),
        }
    }

    /// The block's place, and the CPU and the counter, if a record of a block's events is next.
    fn events_next(&self) -> Option<(Span, Base)>
        ensures { IfSome result (λ x. EventsNext self.now x.0 x.1) }
    {
        match self.head {
            Head::Read { .. } => {
                if self.prefix.as_slice().is_empty() {
                    within_events(self.stage)
                } else {
                    None
                }
            }
            Head::Due | Head::Refused { .. } => None,
        }
    }

    /// Goes past the whole records that these bytes begin with, as long as they may stand among the
    /// events of a block, to which all these bytes belong. Returns how many bytes they have.
    fn pass_events<K: Taker>(
        &mut self,
        span: Span,
        start: Base,
        bytes: &[u8],
        taker: &mut K,
    ) -> Result<usize, NoMemory>
        requires next { EventsNext self.old span start }
        requires some { 0 < length bytes.now }
        requires block { self.old.at + length bytes.now ≤ span.end }
        requires room { self.old.at + length bytes.now < 2 ^ 64 }
        requires stands { (stream : List ℕ) × Scans self.old stream × K.took taker.old (blocks_given stream) }
        ensures within { IfOk result (λ n. n ≤ length bytes.now) }
        ensures scans { IfOk result (λ n. (stream : List ℕ) → Scans self.old stream
            → K.took taker.old (blocks_given stream) → Scans self.new (stream ++ take n bytes.now)) }
        ensures took { IfOk result (λ n. (stream : List ℕ) → Scans self.old stream
            → K.took taker.old (blocks_given stream)
            → K.took taker.new (blocks_given (stream ++ take n bytes.now))) }
        ensures refused { OnErr result (Rose (K.refusals taker.old) (K.refusals taker.new)) }
        ensures later { K.refusals taker.old ≤ K.refusals taker.new }
    {
        let mut base = start;
        let mut from = 0;
        let end = end_among(span, self.at, bytes);
        'events: while let Some(((known, entry, event), next)) = take_step(
            bytes,
            from,
            self.at + from as u64,
            end,
            base,
        ) {
            tell(taker, Told::Noted { entry, event })?;
            base = known;
            from = next;
        }
        self.at += from as u64;
        let inside = Inside::Events { base: Some(base) };
        self.stage = stage_at(span, u128::from(self.at), inside);
        Ok(from)
    }

    /// Adds the first bytes of a piece to the stream, if they are whole records among the events of
    /// a block. Returns how many they are.
    fn feed_events<K: Taker>(&mut self, piece: &[u8], taker: &mut K) -> Result<usize, NoMemory>
        requires stands { (stream : List ℕ) × Scans self.old stream
            × K.took taker.old (blocks_given stream) × (length stream + length piece.now < 2 ^ 64) }
        ensures within { IfOk result (λ n. n ≤ length piece.now) }
        ensures scans { IfOk result (λ n. (stream : List ℕ) → Scans self.old stream
            → K.took taker.old (blocks_given stream) → Scans self.new (stream ++ take n piece.now)) }
        ensures took { IfOk result (λ n. (stream : List ℕ) → Scans self.old stream
            → K.took taker.old (blocks_given stream)
            → K.took taker.new (blocks_given (stream ++ take n piece.now))) }
        ensures refused { OnErr result (Rose (K.refusals taker.old) (K.refusals taker.new)) }
        ensures later { K.refusals taker.old ≤ K.refusals taker.new }
    {
        let Some((span, base)) = self.events_next() else {
            return Ok(0);
        };
        let len = len_within(span, self.at, piece.len());
        if len == 0 {
            return Ok(0);
        }
        self.pass_events(span, base, &piece[..len], taker)
    }

    /// Adds the first bytes of a piece to the stream. Returns how many they are.
    fn feed_some<K: Taker>(&mut self, piece: &[u8], taker: &mut K) -> Result<usize, NoMemory>
        requires some { 0 < length piece.now }
        requires stands { (stream : List ℕ) × Scans self.old stream
            × K.took taker.old (blocks_given stream) × (length stream + length piece.now < 2 ^ 64) }
        ensures within { IfOk result (λ n. (0 < n) × (n ≤ length piece.now)) }
        ensures scans { IfOk result (λ n. (stream : List ℕ) → Scans self.old stream
            → K.took taker.old (blocks_given stream) → Scans self.new (stream ++ take n piece.now)) }
        ensures took { IfOk result (λ n. (stream : List ℕ) → Scans self.old stream
            → K.took taker.old (blocks_given stream)
            → K.took taker.new (blocks_given (stream ++ take n piece.now))) }
        ensures refused { OnErr result (Rose (K.refusals taker.old) (K.refusals taker.new)) }
        ensures later { K.refusals taker.old ≤ K.refusals taker.new }
    {
        let (len, told) = self.advance(piece);
        tell(taker, told)?;
        let more = self.feed_events(&piece[len..], taker)?;
        Ok(len + more)
    }

    /// Adds a piece to the stream. All pieces have to be fed with the same taker, which was new at
    /// the first of them, and none after `NoMemory`. The stream has to be shorter than 2^64 bytes.
    /// `NoMemory` means that the taker refused.
    pub fn feed<K: Taker>(&mut self, piece: &[u8], taker: &mut K) -> Result<(), NoMemory>
        requires stands { (stream : List ℕ) × Scans self.old stream
            × K.took taker.old (blocks_given stream) × (length stream + length piece.now < 2 ^ 64) }
        ensures scans { OnOk result ((stream : List ℕ) → Scans self.old stream
            → K.took taker.old (blocks_given stream) → Scans self.new (stream ++ piece.now)) }
        ensures took { OnOk result ((stream : List ℕ) → Scans self.old stream
            → K.took taker.old (blocks_given stream)
            → K.took taker.new (blocks_given (stream ++ piece.now))) }
        ensures refused { OnErr result (Rose (K.refusals taker.old) (K.refusals taker.new)) }
        ensures later { K.refusals taker.old ≤ K.refusals taker.new }
    {
        let mut from = 0;
        'feeding: while from < piece.len() {
            from += self.feed_some(&piece[from..], taker)?;
        }
        Ok(())
    }

    /// What the end of the stream says, if its header was read.
    fn end(&self, version: Version, header: Header) -> Result<Header, TraceFault>
        ensures { result ≡ stage_answers header (self.now.at + length self.now.prefix)
            (last_stage version self.now) }
    {
        let prefix = self.prefix.as_slice();
        let stage = self.last(version, prefix);
        match stage {
            Stage::Due => Ok(header),
            Stage::Within { span, .. } => Err(TraceFault::Short(span.begin)),
            Stage::Faulty { span, fault } => {
                if u128::from(self.at) + (prefix.len() as u128) < span.end {
                    Err(TraceFault::Short(span.begin))
                } else {
                    Err(fault)
                }
            }
        }
    }

    /// The stage after the last record, of which these bytes came.
    fn last(&self, version: Version, prefix: &[u8]) -> Stage
        requires { prefix.now ≡ self.now.prefix }
        ensures { result ≡ last_stage version self.now }
    {
        if prefix.is_empty() {
            return self.stage;
        }
        let len = record_len(prefix);
        judge(version, self.stage, self.at, len, record_of(prefix)).0
    }

    /// What the end of the stream says.
    fn answer(&self) -> Result<Header, TraceFault>
        ensures { result ≡ answered_by self.now.head self.now }
    {
        match self.head {
            Head::Due => Err(TraceFault::Short(0)),
            Head::Read { version, header } => self.end(version, header),
            Head::Refused { fault } => Err(fault),
        }
    }

    /// Ends the stream. If its bytes are a trace, this is the trace's header, and the taker of all
    /// pieces stands for the trace's blocks. Otherwise it is the fault that `read_trace` returns,
    /// however the stream was cut into pieces.
    pub fn finish(self) -> Result<Header, TraceFault>
        ensures reads { (stream : List ℕ) → Scans self stream
            → with_blocks result (blocks_given stream) ≡ trace_of stream }
        ensures memory { (stream : List ℕ) → Scans self stream → result ≢ Err TraceFault.NoMemory }
    {
        self.answer()
    }
}
