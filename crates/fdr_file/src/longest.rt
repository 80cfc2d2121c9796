//! The longest prefix of bytes that is a trace.

ghost use Rattle.std.specs.Prelude.{◌≡◌, ◌≤◌, ◌<◌, ℕ, Ok, Err, IfOk, IfErr, OnErr, length, take};
ghost use Rattle.fdr_file.specs.declared.{fault.TraceFault.{TraceFault}, header.Header.{Header}};
ghost use Rattle.fdr_file.specs.Prefixes.{IsHeaderFault, IsReadable, ReadsAsTrace};
ghost use Rattle.fdr_file.specs.Traces.{trace_of};
ghost use Rattle.fdr_file.specs.private.Prefixes.{end_after, passed_at};
ghost use Rattle.fdr_file.specs.Scanning.{header_on};

use crate::header::{HEADER_BYTES, read_header};
use crate::records::{record_len, record_of};
use crate::stage::{Stage, judge};
use crate::{TraceFault, Version};

/// The stage after the record at a place, and the place after the record.
fn pass(version: Version, stage: Stage, bytes: &[u8], at: usize) -> (Stage, usize)
    requires { at < length bytes.now }
    ensures { result ≡ passed_at version stage bytes.now at }
{
    let left = &bytes[at..];
    let len = record_len(left);
    let (stage, _) = judge(version, stage, at as u64, len, record_of(left));
    (stage, at + len)
}

/// The end of the last whole block so far, after a record that ends at `next`.
fn last_end(stage: Stage, next: usize, end: usize) -> usize
    ensures { result ≡ end_after stage next end }
{
    match stage {
        Stage::Due => next,
        Stage::Within { .. } | Stage::Faulty { .. } => end,
    }
}

/// The length of the longest prefix that is a trace, of bytes that begin with a header.
fn longest(version: Version, bytes: &[u8]) -> usize
    requires { (header : Header) × (header_on bytes.now ≡ Ok (version, header)) }
    ensures { IsReadable bytes.now result }
{
    let mut stage = Stage::Due;
    let mut at = HEADER_BYTES;
    let mut end = at;
    'reading: while at < bytes.len() {
        let (after, next) = pass(version, stage, bytes, at);
        if let Stage::Faulty { .. } = after {
            return end;
        }
        end = last_end(after, next, end);
        stage = after;
        at = next;
    }
    end
}

/// The length of the longest prefix of the bytes that is a trace: the header, and the blocks before
/// the first one that has a fault or isn't whole. So of a trace that was cut off, or damaged within
/// a block, the blocks before that place can still be read. It takes no memory.
///
/// If the first fault of the bytes is one of the header, no prefix is a trace, and this fault is
/// returned: `Short(0)`, `Version` or `Form`.
pub fn readable(bytes: &[u8]) -> Result<usize, TraceFault>
    ensures readable { IfOk result (λ len. IsReadable bytes.now len) }
    ensures exact { (len : ℕ) → IsReadable bytes.now len → result ≡ Ok len }
    ensures refused { OnErr result ((len : ℕ) → len ≤ length bytes.now
        → ReadsAsTrace (take len bytes.now) → ⊥) }
    ensures fault { (fault : TraceFault) → IsHeaderFault fault → trace_of bytes.now ≡ Err fault
        → result ≡ Err fault }
    ensures header { IfErr result (λ fault. IsHeaderFault fault
        × (trace_of bytes.now ≡ Err fault)) }
{
    let (version, _) = read_header(bytes)?;
    Ok(longest(version, bytes))
}
