//! Laws of the bytes of files. Each law is the contract of a function that does nothing.

ghost use Rattle.std.specs.Prelude.{◌≡◌, ◌≢◌, ◌<◌, ◌≤◌, ◌++◌, [], List, ℕ, All, Ok, Err, Some, length, slice_index, take};
ghost use Rattle.fdr_buffer.specs.Filled.{Filled};
ghost use Rattle.fdr_record.specs.Refusals.{Answers};
ghost use Rattle.fdr_file.specs.declared.header.Header.{Header};
ghost use Rattle.fdr_file.specs.declared.trace.{Block.{Block}, Trace.{Trace}};
ghost use Rattle.fdr_file.specs.declared.version.Version.{Version};
ghost use Rattle.fdr_file.specs.FieldRanges.{TraceFieldsFit};
ghost use Rattle.fdr_file.specs.Files.{file_bytes, trace_told, BlockFits, HeaderFits};
ghost use Rattle.fdr_file.specs.{Grammar.{IsBlock, IsTrace}, Traces.{header_in, record_in, trace_of, version_of}};
ghost use Rattle.fdr_file.specs.Prefixes.{first_blocks, longer_trace, trace_ends};
ghost use Rattle.fdr_file.specs.Scanning.{blocks_given, scanned, scanned_ends};
ghost use Rattle.fdr_file.specs.ThreadEvents.{thread_events};

use crate::TraceFault;
use fdr_record::one_answer;

/// What a place of a file is read as is what the decoder of records returns there: the record that
/// the bytes from there on begin with, or its refusal.
pub fn a_place_is_decoded()
    ensures { (bytes : List ℕ) → All (λ b. b < 256) bytes → Answers bytes (record_in bytes) }
{
    one_answer();
}

/// A file that is a trace by the grammar reads as this trace. So it isn't another one.
pub fn a_trace_is_read()
    ensures read { (bytes : List ℕ) (trace : Trace) → IsTrace bytes trace
        → trace_of bytes ≡ Ok trace }
    ensures one { (bytes : List ℕ) (trace other : Trace) → IsTrace bytes trace
        → IsTrace bytes other → trace ≡ other }
{}

/// What a file reads as is a trace of this file by the grammar. With `a_trace_is_read`, a file
/// reads as a trace exactly when it is this trace.
pub fn what_is_read_is_a_trace()
    ensures { (bytes : List ℕ) (trace : Trace) → All (λ b. b < 256) bytes
        → trace_of bytes ≡ Ok trace → IsTrace bytes trace }
{
    one_answer();
}

/// The fields of a trace that was read fit the records of a file. It has at most as many events as
/// the file has bytes, so they are fewer than 2^64.
pub fn what_is_read_fits()
    ensures fields { (bytes : List ℕ) (trace : Trace) → All (λ b. b < 256) bytes
        → trace_of bytes ≡ Ok trace → TraceFieldsFit trace }
    ensures few { (bytes : List ℕ) (trace : Trace) → trace_of bytes ≡ Ok trace
        → length (thread_events trace.blocks) ≤ length bytes }
{
    one_answer();
}

/// The file that is written for a header and buffers is a trace by the grammar. It reads back as
/// the header and the events of the buffers, in order.
pub fn a_file_reads_back()
    ensures trace { (header : Header) (buffers : List Filled) → HeaderFits header
        → All BlockFits buffers → IsTrace (file_bytes header buffers) (trace_told header buffers) }
    ensures read { (header : Header) (buffers : List Filled) → HeaderFits header
        → All BlockFits buffers
        → trace_of (file_bytes header buffers) ≡ Ok (trace_told header buffers) }
{}

/// What bytes read as doesn't depend on memory: no bytes read as `NoMemory`.
pub fn no_bytes_are_out_of_memory()
    ensures { (bytes : List ℕ) → trace_of bytes ≢ Err TraceFault.NoMemory }
{}

/// A file reads as what the reading of its records, one after the other, ends in. So the blocks that
/// the records of a trace say are its blocks.
pub fn a_file_is_read_by_records()
    ensures ends { (bytes : List ℕ)
        → trace_of bytes ≡ scanned_ends (length bytes) (header_in bytes) (scanned bytes) }
    ensures given { (bytes : List ℕ) (trace : Trace) → trace_of bytes ≡ Ok trace
        → blocks_given bytes ≡ trace.blocks }
    ensures none { blocks_given [] ≡ [] }
{}

/// A trace followed by a block of its version is a trace, with one more block.
pub fn a_block_may_follow()
    ensures { (version : Version) (bytes : List ℕ) (trace : Trace) (more : List ℕ) (block : Block)
        → IsTrace bytes trace → version_of trace.header.version ≡ Some version
        → IsBlock version more block → IsTrace (bytes ++ more) (longer_trace trace block) }
{}

/// The prefixes of a trace that are traces are those that end where its header or one of its blocks
/// ends. Such a prefix has the trace's header and the first of its blocks.
pub fn prefixes_end_with_blocks()
    ensures within { (bytes : List ℕ) (trace : Trace) (count : ℕ) → IsTrace bytes trace
        → count ≤ length trace.blocks → slice_index (trace_ends bytes) count ≤ length bytes }
    ensures trace { (bytes : List ℕ) (trace : Trace) (count : ℕ) → IsTrace bytes trace
        → count ≤ length trace.blocks
        → IsTrace (take (slice_index (trace_ends bytes) count) bytes) (first_blocks count trace) }
    ensures only { (bytes : List ℕ) (trace : Trace) (len : ℕ) (part : Trace)
        → IsTrace bytes trace → len ≤ length bytes → IsTrace (take len bytes) part
        → let count = length part.blocks in (count ≤ length trace.blocks)
        × (len ≡ slice_index (trace_ends bytes) count) × (part ≡ first_blocks count trace) }
{}
