//! Records in the bytes of a file and of a block.

ghost use Rattle.std.specs.Prelude.{◌≡◌, ◌≤◌, ◌<◌, length, IfOk};
ghost use Rattle.fdr_record.specs.Refusals.{length_by};
ghost use Rattle.fdr_file.specs.Traces.{record_in, record_length};
ghost use Rattle.fdr_file.specs.private.Reading.{Reads, TakenAt, left_at, record_on};

use crate::TraceFault;
use fdr_record::{FUNCTION_BYTES, METADATA_BYTES, Rec, RecFault, take_rec};

/// The record at a place of a file's bytes, and the place after it.
pub(crate) fn taken_at(bytes: &[u8], at: usize) -> Result<(Rec, usize), RecFault>
    requires { at ≤ length bytes.now }
    ensures { TakenAt bytes.now at result }
{
    take_rec(bytes, at)
}

/// The length of a record with this first byte.
fn length_of_first(first: u8) -> usize
    ensures { result ≡ length_by first }
{
    if first % 2 == 0 {
        FUNCTION_BYTES
    } else {
        METADATA_BYTES
    }
}

/// The length of the record that bytes begin with, by the first of them.
pub fn record_len(bytes: &[u8]) -> usize
    requires { 0 < length bytes.now }
    ensures { result ≡ record_length bytes.now }
{
    length_of_first(bytes[0])
}

/// The record that bytes begin with.
pub fn record_of(bytes: &[u8]) -> Result<Rec, RecFault>
    ensures { result ≡ record_in bytes.now }
{
    match taken_at(bytes, 0) {
        Ok((rec, _)) => Ok(rec),
        Err(fault) => Err(fault),
    }
}
