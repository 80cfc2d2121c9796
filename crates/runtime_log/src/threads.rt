//! The passings of a basic log, thread by thread.
ghost use Rattle.std.specs.Prelude.{◌≡◌, ◌⊎◌, ◌<◌, ◌≤◌, ◌+◌, ◌++◌, ◌^◌, ℕ, [], ◌∷◌, List, Err, IfErr, IfOk, None, Ok, OnOk, length};
ghost use Rattle.fdr_file.specs.declared.fault.TraceFault.TheVariants.{NoMemory as NoRoom};
ghost use Rattle.runtime_log.specs.declared.basic.BasicRec.{BasicRec as TheRec};
ghost use Rattle.runtime_log.specs.declared.fault.LogFault.TheVariants.{Trace};
ghost use Rattle.runtime_log.specs.BasicLogs.{basic_records, lost_count, one_lost, recorded_events};
ghost use Rattle.runtime_log.specs.private.Passings.{HasThreads, IsRunOf, events_of_passings, passings_from};

use crate::basic::{BasicRec, Passing, is_lost, record_at};
use crate::fault::LogFault;
use crate::version::BasicVersion;
use basic_record::RECORD_BYTES;
use fdr_file::HEADER_BYTES;
use std::alloc::Global;
use xray_io::NoMemory;

/// Adds the passing that the record at this place says, if it says one.
fn add_passing(passings: &mut Vec<Passing>, at: u32, rec: BasicRec) -> Result<(), NoMemory>
    ensures { OnOk result (passings.new.items ≡ passings.old.items ++ passings_from at (rec ∷ [])) }
{
    if let BasicRec::Passed { owner, .. } = rec {
        passings.push(Passing {
            at,
            thread: owner.thread,
            pid: owner.pid,
        })?;
    }
    Ok(())
}

/// How many arguments that have lost their entries a record is: one or none.
fn one_lost(before: Option<BasicRec>, rec: BasicRec) -> u64
    ensures is { result ≡ one_lost before rec }
    ensures few { result ≤ 1 }
{
    if is_lost(before, rec) { 1 } else { 0 }
}

/// The passings of a basic log, in its order, and how many arguments have lost their entries.
fn read_passings(
    alloc: Global,
    version: BasicVersion,
    bytes: &[u8],
) -> Result<(Vec<Passing>, u64), LogFault>
    requires few { (32 ≤ length bytes.now) × (length bytes.now < 2 ^ 30) }
    ensures reads { IfOk result (λ read. (records : List TheRec) × (basic_records version bytes.now ≡ Ok records)
        × (events_of_passings version bytes.now read.0.items ≡ recorded_events records)
        × (read.1 ≡ lost_count None records)) }
    ensures refuses { IfErr result (λ fault. (fault ≡ Trace NoRoom) ⊎ (basic_records version bytes.now ≡ Err fault)) }
    ensures few { IfOk result (λ read. length read.0.items ≤ length bytes.now) }
{
    let mut passings = Vec::with_capacity(alloc, bytes.len() / RECORD_BYTES)?;
    let mut at = HEADER_BYTES;
    let mut before = None;
    let mut lost = 0;
    'records: while at < bytes.len() {
        let rec = record_at(version, bytes, at)?;
        lost += one_lost(before, rec);
        add_passing(&mut passings, at as u32, rec)?;
        before = Some(rec);
        at += RECORD_BYTES;
    }
    Ok((passings, lost))
}

/// The passings of a basic log, thread by thread, and those of a thread in the log's order. And how many
/// arguments have lost their entries.
pub(crate) fn thread_passings(
    alloc: Global,
    version: BasicVersion,
    bytes: &[u8],
) -> Result<(Vec<Passing>, u64), LogFault>
    requires few { (32 ≤ length bytes.now) × (length bytes.now < 2 ^ 30) }
    ensures reads { IfOk result (λ read. (records : List TheRec) × (basic_records version bytes.now ≡ Ok records)
        × HasThreads version bytes.now records read.0.items × (read.1 ≡ lost_count None records)) }
    ensures refuses { IfErr result (λ fault. (fault ≡ Trace NoRoom) ⊎ (basic_records version bytes.now ≡ Err fault)) }
    ensures few { IfOk result (λ read. length read.0.items ≤ length bytes.now) }
{
    let (mut passings, lost) = read_passings(alloc, version, bytes)?;
    passings.sort_by_key(|passing| passing.thread)?;
    Ok((passings, lost))
}

/// How many passings, from this one on, are of the same thread and process as this one.
pub(crate) fn run_len(first: &Passing, passings: &[Passing]) -> usize
    ensures { IsRunOf first.now passings.now result }
{
    let mut count = 0;
    'run: while count < passings.len() {
        let next = passings[count];
        if next.thread != first.thread || next.pid != first.pid {
            return count;
        }
        count += 1;
    }
    count
}
