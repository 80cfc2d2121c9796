//! Writing the records of preambles and events into a buffer's bytes.

ghost use Rattle.std.specs.Prelude.{◌≡◌, ◌≤◌, ◌<◌, ◌+◌, ◌^◌, [], ◌++◌, length, take};
ghost use Rattle.fdr_buffer.specs.Segments.{body, bytes_of, function_record, function_records, preamble_length};
ghost use Rattle.fdr_buffer.specs.private.Leads.{lead_records};
ghost use Rattle.fdr_record.specs.Records.{length_of, record_bytes, IdFits};

use crate::lead::Lead;
use fdr_record::{Event, Kind, Rec, put_rec};
use xray_io::Wall;

/// Writes the records that a buffer begins with, and returns the place after them.
pub(crate) fn put_preamble(bytes: &mut [u8], thread: u32, wall: Wall, pid: u32) -> usize
    requires { preamble_length ≤ length bytes.old }
    ensures bytes { take result bytes.new ≡ body thread wall pid [] }
    ensures next { result ≡ preamble_length }
    ensures secs { wall.secs < 2 ^ 64 }
    ensures micros { wall.micros < 2 ^ 32 }
{
    let at = put_rec(&Rec::NewBuffer { thread }, bytes, 0);
    let at = put_rec(&Rec::WallTime { wall }, bytes, at);
    put_rec(&Rec::Pid { pid }, bytes, at)
}

/// Writes a record at the place `at`, where the records so far end. Returns the place after it.
fn append(bytes: &mut [u8], at: usize, rec: &Rec) -> usize
    requires room { at + length_of rec.now ≤ length bytes.old }
    requires id { IdFits rec.now }
    ensures bytes { take result bytes.new ≡ take at bytes.old ++ record_bytes rec.now }
    ensures next { result ≡ at + length_of rec.now }
{
    put_rec(rec, bytes, at)
}

/// Writes bytes at the place `at`, where the records so far end. Returns the place after them.
pub(crate) fn put_bytes(bytes: &mut [u8], at: usize, records: &[u8]) -> usize
    requires room { at + length records.now ≤ length bytes.old }
    ensures bytes { take result bytes.new ≡ take at bytes.old ++ records.now }
    ensures next { result ≡ at + length records.now }
{
    let end = at + records.len();
    bytes[at..end].copy_from_slice(records);
    end
}

/// The function record of an event.
fn function(event: &Event, delta: u32) -> Rec
    ensures { result ≡ function_record event.now delta }
{
    Rec::Function {
        kind: event.kind,
        func: event.func,
        delta,
    }
}

/// Writes the function record of an event at the place `at`, where the records so far end, and its
/// argument if it logs one. Returns the place after them.
#[tactic(auto, using(std::proofs::Common::append_assoc))]
fn put_function(bytes: &mut [u8], at: usize, event: &Event, delta: u32) -> usize
    requires room { at + length (bytes_of (function_records event.now delta)) ≤ length bytes.old }
    requires id { event.now.func < 2 ^ 28 }
    ensures bytes { take result bytes.new ≡ take at bytes.old
        ++ bytes_of (function_records event.now delta) }
    ensures next { result ≡ at + length (bytes_of (function_records event.now delta)) }
{
    let at = append(bytes, at, &function(event, delta));
    match event.kind {
        Kind::Entry | Kind::Exit | Kind::TailExit => at,
        Kind::EntryArgs => append(bytes, at, &Rec::CallArg { value: event.arg }),
    }
}

/// Writes the records of an event at the place `at`, where the records so far end. Returns the
/// place after them.
#[tactic(auto, using(std::proofs::Common::append_assoc))]
pub(crate) fn put_event(bytes: &mut [u8], at: usize, lead: Lead, event: &Event) -> usize
    requires room { at + length (bytes_of (lead_records lead event.now)) ≤ length bytes.old }
    requires id { event.now.func < 2 ^ 28 }
    ensures bytes { take result bytes.new ≡ take at bytes.old
        ++ bytes_of (lead_records lead event.now) }
    ensures next { result ≡ at + length (bytes_of (lead_records lead event.now)) }
{
    match lead {
        Lead::Cpu => {
            let cpu = Rec::NewCpu {
                cpu: event.cpu,
                tsc: event.tsc,
            };
            let at = append(bytes, at, &cpu);
            put_function(bytes, at, event, 0)
        }
        Lead::Wrap => {
            let at = append(bytes, at, &Rec::TscWrap { tsc: event.tsc });
            put_function(bytes, at, event, 0)
        }
        Lead::Delta(delta) => put_function(bytes, at, event, delta),
    }
}
