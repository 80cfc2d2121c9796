//! Writing records as bytes.

ghost use Rattle.std.specs.Prelude.{◌≡◌, ◌≤◌, ◌<◌, ◌+◌, ◌∷◌, ◌++◌, length, take, drop, replicate};
ghost use Rattle.fdr_record.specs.Records.{action_of, first_of, length_of, metadata_length, record_bytes, IdFits, FieldsFit};

use crate::layout::{
    ACTION_SHIFT, BUFFER_EXTENTS, CALL_ARGUMENT, CPU_BYTES, ENTER, ENTER_ARG, EXIT, FIELDS,
    ID_BYTES, ID_SHIFT, KIND_SHIFT, METADATA, NEW_BUFFER, NEW_CPU_ID, PID, SECONDS_BYTES,
    TAIL_EXIT, TSC_WRAP, WALL_TIME,
};
use crate::rec::rec_len;
use crate::{Kind, Rec};
use byteorder::{ByteOrder, LittleEndian};
use xray_io::Wall;

/// The number of the action for this kind of event.
fn action(kind: Kind) -> u32
    ensures value { result ≡ action_of kind }
    ensures small { result < 8 }
{
    u32::from(match kind {
        Kind::Entry => ENTER,
        Kind::Exit => EXIT,
        Kind::TailExit => TAIL_EXIT,
        Kind::EntryArgs => ENTER_ARG,
    })
}

/// Writes a metadata record of this kind, with all fields 0.
fn put_kind(bytes: &mut [u8], kind: u8)
    requires whole { length bytes.old ≡ metadata_length }
    requires small { kind < 128 }
    ensures { bytes.new ≡ first_of kind ∷ replicate 15 0 }
{
    bytes.fill(0);
    bytes[0] = (kind << KIND_SHIFT) + METADATA;
}

/// Writes a record with a wall time.
fn put_wall_time(bytes: &mut [u8], wall: Wall)
    requires { length bytes.old ≡ metadata_length }
    ensures bytes { bytes.new ≡ record_bytes (Rec.WallTime wall) }
    ensures fits { FieldsFit (Rec.WallTime wall) }
{
    put_kind(bytes, WALL_TIME);
    LittleEndian::write_u64(&mut bytes[FIELDS..], wall.secs);
    LittleEndian::write_u32(&mut bytes[FIELDS + SECONDS_BYTES..], wall.micros);
}

/// Writes the record over bytes of the record's length.
fn put_all(rec: &Rec, bytes: &mut [u8])
    requires whole { length bytes.old ≡ length_of rec.now }
    requires id { IdFits rec.now }
    ensures bytes { bytes.new ≡ record_bytes rec.now }
    ensures fits { FieldsFit rec.now }
{
    match *rec {
        Rec::NewBuffer { thread } => {
            put_kind(bytes, NEW_BUFFER);
            LittleEndian::write_u32(&mut bytes[FIELDS..], thread);
        }
        Rec::NewCpu { cpu, tsc } => {
            put_kind(bytes, NEW_CPU_ID);
            LittleEndian::write_u16(&mut bytes[FIELDS..], cpu);
            LittleEndian::write_u64(&mut bytes[FIELDS + CPU_BYTES..], tsc);
        }
        Rec::TscWrap { tsc } => {
            put_kind(bytes, TSC_WRAP);
            LittleEndian::write_u64(&mut bytes[FIELDS..], tsc);
        }
        Rec::WallTime { wall } => put_wall_time(bytes, wall),
        Rec::Pid { pid } => {
            put_kind(bytes, PID);
            LittleEndian::write_u32(&mut bytes[FIELDS..], pid);
        }
        Rec::CallArg { value } => {
            put_kind(bytes, CALL_ARGUMENT);
            LittleEndian::write_u64(&mut bytes[FIELDS..], value);
        }
        Rec::Extents { size } => {
            put_kind(bytes, BUFFER_EXTENTS);
            LittleEndian::write_u64(&mut bytes[FIELDS..], size);
        }
        Rec::Function { kind, func, delta } => {
            let head = (action(kind) << ACTION_SHIFT) + (func << ID_SHIFT);
            LittleEndian::write_u32(bytes, head);
            LittleEndian::write_u32(&mut bytes[ID_BYTES..], delta);
        }
    }
}

/// Writes a record's bytes at the place `at` of `buf`, counted from its start. Returns the place
/// after them. The rest of `buf` stays as it is. The record has to end within `buf`; `rec_len`
/// gives its length. A function's id has to be below 2^28.
pub fn put_rec(rec: &Rec, buf: &mut [u8], at: usize) -> usize
    requires room { at + length_of rec.now ≤ length buf.old }
    requires id { IdFits rec.now }
    // The record's bytes are there, and all others stay as they are.
    ensures bytes { buf.new ≡ take at buf.old ++ record_bytes rec.now
        ++ drop (at + length_of rec.now) buf.old }
    ensures next { result ≡ at + length_of rec.now }
    ensures fits { FieldsFit rec.now }
{
    let end = at + rec_len(rec);
    put_all(rec, &mut buf[at..end]);
    end
}
