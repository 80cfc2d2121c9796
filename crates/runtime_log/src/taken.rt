//! The blocks that are taken of a log of the Flight Data Recorder mode, in their order.
ghost use Rattle.std.specs.{Cmp.Lexicographic.{slice_cmp}, Ordering.{nat_cmp}};
ghost use Rattle.std.specs.Prelude.{◌≡◌, ◌≤◌, ◌==◌, ◌||◌, ℕ, All, IfOk, List, OnOk, length, map, not};
ghost use Rattle.std.specs.{Option.{unwrap_or}, Str.{bytes_eq}};
ghost use Rattle.runtime_log.specs.declared.version.LogVersion.{LogVersion};
ghost use Rattle.runtime_log.specs.Logs.{LogBlock as SaidBlock};
ghost use Rattle.runtime_log.specs.Taken.{AreTaken, is_among_contents, is_doubled, undoubled};
ghost use Rattle.runtime_log.specs.private.Choices.{AreAt, AreLeftOut, LiesWithin, content_at, time_key};

use crate::blocks::LogBlock;
use fdr_record::METADATA_BYTES;
use std::alloc::Global;
use std::cmp::Ordering;
use std::collections::BTreeSet;
use xray_io::NoMemory;

/// How many blocks were left out.
#[derive(Clone, Copy)]
pub(crate) struct LeftOut {
    /// Those whose bytes are those of a block before them.
    pub(crate) doubled: u64,
    /// Those without events, of the others.
    pub(crate) empty: u64,
}

/// The bytes of a block, without its extents.
fn content<'a>(bytes: &'a [u8], block: &LogBlock) -> &'a [u8]
    requires { LiesWithin bytes.now block.now }
    ensures { result.now ≡ content_at bytes.entry.now block.now }
{
    let begin = block.begin + METADATA_BYTES;
    &bytes[begin..block.end]
}

/// Whether a block isn't doubled, if its bytes are none of those before it or some of these.
fn is_own(fresh: bool, content: &[u8]) -> bool
    ensures { result ≡ (fresh || length content.now == 0) }
{
    fresh || content.is_empty()
}

/// Adds the bytes of a block to those of the blocks before it. Returns whether the block isn't doubled:
/// its bytes are none of these, or it has no bytes.
fn add_content<'a>(seen: &mut BTreeSet<&'a [u8]>, content: &'a [u8]) -> Result<bool, NoMemory>
    ensures own { IfOk result (λ own. own ≡ not (is_doubled (map (λ k. k.now) seen.old.keys) content.now)) }
    ensures seen { OnOk result ((other : List ℕ) → is_among_contents (map (λ k. k.now) seen.new.keys) other
        ≡ (bytes_eq other content.now || is_among_contents (map (λ k. k.now) seen.old.keys) other)) }
{
    let fresh = seen.insert(content)?;
    Ok(is_own(fresh, content))
}

/// The blocks without bytes, and those whose bytes aren't those of a block before them.
fn first_ones(alloc: Global, bytes: &[u8], blocks: &[LogBlock]) -> Result<Vec<LogBlock>, NoMemory>
    requires within { All (LiesWithin bytes.now) blocks.now }
    ensures keeps { (version : LogVersion) (said : List SaidBlock) → AreAt bytes.now version blocks.now said
        → IfOk result (λ kept. AreAt bytes.now version kept.items (undoubled said)) }
    ensures few { IfOk result (λ kept. length kept.items ≤ length blocks.now) }
{
    let mut seen = BTreeSet::new(alloc);
    let mut kept = Vec::new(alloc);
    'keeping: for block in blocks {
        if add_content(&mut seen, content(bytes, block))? {
            kept.push(*block)?;
        }
    }
    Ok(kept)
}

/// The counter of a block's first event, or 0 if it has no events.
fn counter(block: &LogBlock) -> u64
    ensures { result ≡ unwrap_or block.now.first 0 }
{
    block.first.unwrap_or(0)
}

/// Which of two blocks comes first, by its thread, its wall time, its first counter and its place.
fn by_time(one: &LogBlock, other: &LogBlock) -> Ordering
    ensures { result ≡ slice_cmp nat_cmp (time_key one.now) (time_key other.now) }
{
    one.thread
        .cmp(&other.thread)
        .then(one.wall.secs.cmp(&other.wall.secs))
        .then(one.wall.micros.cmp(&other.wall.micros))
        .then(counter(one).cmp(&counter(other)))
        .then(one.begin.cmp(&other.begin))
}

/// Leaves out doubled blocks and blocks without events, and puts the others in their order.
pub(crate) fn take_blocks(
    alloc: Global,
    bytes: &[u8],
    blocks: &[LogBlock],
) -> Result<(Vec<LogBlock>, LeftOut), NoMemory>
    requires within { All (LiesWithin bytes.now) blocks.now }
    ensures { (version : LogVersion) (said : List SaidBlock) → AreAt bytes.now version blocks.now said → IfOk result (λ made.
        (taken : List SaidBlock) × AreTaken said taken × AreAt bytes.now version made.0.items taken
        × AreLeftOut said made.1) }
{
    let mut taken = first_ones(alloc, bytes, blocks)?;
    let once = taken.len();
    taken.retain(|block| block.first.is_some());
    taken.sort_unstable_by(|one, other| by_time(one, other));
    let left = LeftOut {
        doubled: (blocks.len() - once) as u64,
        empty: (once - taken.len()) as u64,
    };
    Ok((taken, left))
}
