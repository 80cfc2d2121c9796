//! Basic logs as they are read.

ghost use Rattle.std.specs.Prelude.{◌≡◌, ◌⊎◌, ◌<◌, ◌≤◌, Err, IfOk, None, Ok, OnOk, length};
ghost use Rattle.trace_forms.specs.declared.basic.BasicFault.TheVariants.{NoMemory};
ghost use Rattle.fdr_file.specs.ThreadEvents.{thread_events};
ghost use Rattle.trace_forms.specs.BasicLogs.{basic_header, basic_header_rows, basic_of, basic_record_rows, wide_cpu};

use crate::basic::BasicFault;
use crate::runs::RunBlocks;
use basic_record::{
    BASIC_TYPE, BASIC_VERSION, RECORD_BYTES, event_in, kind_byte, kind_of, pid_in, tag_in,
    thread_in, u32_at, u64_at,
};
use byteorder::{ByteOrder, LittleEndian};
use fdr_file::{Blocks, CONSTANT, HEADER_BYTES, Header, NONSTOP, Trace};
use fdr_record::Event;
use std::alloc::Global;

/// The places of a header's fields.
const TYPE_AT: usize = 2;

const FLAGS_AT: usize = 4;

const FREQUENCY_AT: usize = 8;

/// Reads a basic log: a header, and a record for each event, up to the file's end. Each run of
/// events of one thread and one process is a block, whose wall time is 0. The header says the size
/// of no buffer, so that is 0. Some bytes are ignored: the header's flags above the second, its last
/// 16 bytes, and the last eight bytes of a record that logs no argument.
///
/// Bytes that aren't a log are refused by their first fault; see `BasicFault`. `NoMemory` may come
/// in place of any answer. Each CPU of the trace is below 256, since it was a byte.
pub fn read_basic(alloc: Global, bytes: &[u8]) -> Result<Trace, BasicFault>
    ensures reads { (result ≡ Err NoMemory) ⊎ (result ≡ basic_of bytes.now) }
    ensures narrow { IfOk result (λ trace. wide_cpu (thread_events trace.blocks) ≡ None) }
{
    let header = read_header(bytes)?;
    let mut runs = RunBlocks::new(alloc);
    let mut at = HEADER_BYTES;
    'reading: while at < bytes.len() {
        let (thread, pid, event) = read_record(at as u64, &bytes[at..])?;
        runs.add(alloc, thread, pid, event)?;
        at += RECORD_BYTES;
    }
    let blocks = Blocks::new(runs.finish(alloc)?);
    Ok(Trace { header, blocks })
}

/// The header of a log.
#[tactic(auto, using(fdr_file::proofs::Flags::first_flag, fdr_file::proofs::Flags::second_flag))]
fn read_header(bytes: &[u8]) -> Result<Header, BasicFault>
    ensures { result ≡ basic_header_rows bytes.now (Ok (basic_header bytes.now)) }
{
    if bytes.len() < HEADER_BYTES {
        return Err(BasicFault::Short(0));
    }
    let version = LittleEndian::read_u16(bytes);
    if version != BASIC_VERSION {
        return Err(BasicFault::Version(version));
    }
    let form = LittleEndian::read_u16(bytes.split_at(TYPE_AT).1);
    if form != BASIC_TYPE {
        return Err(BasicFault::Form(form));
    }
    let flags = u32_at(bytes, FLAGS_AT);
    Ok(Header {
        version,
        constant: flags & CONSTANT != 0,
        nonstop: flags & NONSTOP != 0,
        frequency: u64_at(bytes, FREQUENCY_AT),
        size: 0,
    })
}

/// The thread, the process and the event of the record that bytes begin with. `place` is its place
/// in the file.
fn read_record(place: u64, bytes: &[u8]) -> Result<(u32, u32, Event), BasicFault>
    ensures reads { result ≡ basic_record_rows place bytes.now }
    ensures whole { OnOk result (32 ≤ length bytes.now) }
    ensures narrow { IfOk result (λ x. x.2.cpu < 256) }
{
    if bytes.len() < RECORD_BYTES {
        return Err(BasicFault::Short(place));
    }
    let tag = tag_in(bytes);
    if tag != 0 {
        return Err(BasicFault::Tag(place, tag));
    }
    let number = kind_byte(bytes);
    match kind_of(number) {
        Some(kind) => Ok((thread_in(bytes), pid_in(bytes), event_in(kind, bytes))),
        None => Err(BasicFault::Kind(place, number)),
    }
}

/// A refused allocation ends the reading.
impl<E: Into<xray_io::NoMemory> + Drop> From<E> for BasicFault {
    ghost from_gives = { λ _ fault. fault ≡ NoMemory };

    fn from(_error: E) -> BasicFault {
        BasicFault::NoMemory
    }
}
