//! Reading records from bytes.

ghost use Rattle.std.specs.Prelude.{◌≡◌, ◌≤◌, ◌<◌, ◌+◌, length, drop, IfOk, IfErr, Ok, Err};
ghost use Rattle.fdr_record.specs.declared.rec.Rec.{Rec};
ghost use Rattle.fdr_record.specs.declared.fault.RecFault.{RecFault};
ghost use Rattle.fdr_record.specs.Records.{length_of, FieldsFit, BeginsWith};
ghost use Rattle.fdr_record.specs.Refusals.{Answers, Refuses};
ghost use Rattle.fdr_record.specs.Reading.{kind_read, function_record_at, metadata_record_at};

use crate::layout::{
    ACTION_SHIFT, ACTIONS, BUFFER_EXTENTS, CALL_ARGUMENT, CPU_BYTES, ENTER, ENTER_ARG, EXIT,
    FIELDS, FUNCTION, FUNCTION_BYTES, ID_BYTES, ID_SHIFT, KIND_SHIFT, METADATA_BYTES, NEW_BUFFER,
    NEW_CPU_ID, NO_ACTION, PID, SECONDS_BYTES, TAIL_EXIT, TSC_WRAP, TYPES, WALL_TIME,
};
use crate::rec::rec_len;
use crate::{Kind, Rec, RecFault};
use byteorder::{ByteOrder, LittleEndian};
use xray_io::Wall;

/// The kind of event that an action's number stands for.
fn kind(action: u8) -> Result<Kind, RecFault>
    ensures { result ≡ kind_read action }
{
    match action {
        ENTER => Ok(Kind::Entry),
        EXIT => Ok(Kind::Exit),
        TAIL_EXIT => Ok(Kind::TailExit),
        ENTER_ARG => Ok(Kind::EntryArgs),
        NO_ACTION.. => Err(RecFault::Action(action)),
    }
}

/// The function record that the bytes begin with. `first` is their first byte.
#[tactic(auto, unfolding(crate::specs::Reading::function_record_at))]
fn function(first: u8, bytes: &[u8]) -> Result<Rec, RecFault>
    ensures { result ≡ function_record_at first bytes.now }
{
    if bytes.len() < FUNCTION_BYTES {
        return Err(RecFault::Short);
    }
    let kind = kind((first >> ACTION_SHIFT) % ACTIONS)?;
    let (_, delta) = bytes.split_at(ID_BYTES);
    Ok(Rec::Function {
        kind,
        func: LittleEndian::read_u32(bytes) >> ID_SHIFT,
        delta: LittleEndian::read_u32(delta),
    })
}

/// The metadata record of this kind, from the bytes after its first byte.
#[tactic(auto, unfolding(crate::specs::Reading::metadata_record_at))]
fn metadata(kind: u8, fields: &[u8]) -> Result<Rec, RecFault>
    ensures { result ≡ metadata_record_at kind fields.now }
{
    if fields.len() < METADATA_BYTES - FIELDS {
        return Err(RecFault::Short);
    }
    match kind {
        NEW_BUFFER => Ok(Rec::NewBuffer {
            thread: LittleEndian::read_u32(fields),
        }),
        NEW_CPU_ID => {
            let (_, tsc) = fields.split_at(CPU_BYTES);
            Ok(Rec::NewCpu {
                cpu: LittleEndian::read_u16(fields),
                tsc: LittleEndian::read_u64(tsc),
            })
        }
        TSC_WRAP => Ok(Rec::TscWrap {
            tsc: LittleEndian::read_u64(fields),
        }),
        WALL_TIME => {
            let (_, micros) = fields.split_at(SECONDS_BYTES);
            Ok(Rec::WallTime {
                wall: Wall {
                    secs: LittleEndian::read_u64(fields),
                    micros: LittleEndian::read_u32(micros),
                },
            })
        }
        CALL_ARGUMENT => Ok(Rec::CallArg {
            value: LittleEndian::read_u64(fields),
        }),
        BUFFER_EXTENTS => Ok(Rec::Extents {
            size: LittleEndian::read_u64(fields),
        }),
        PID => Ok(Rec::Pid {
            pid: LittleEndian::read_u32(fields),
        }),
        _ => Err(RecFault::Kind(kind)),
    }
}

/// The record that the bytes begin with.
fn record(bytes: &[u8]) -> Result<Rec, RecFault>
    ensures { Answers bytes.now result }
{
    match bytes {
        [] => Err(RecFault::Short),
        [first, fields @ ..] => {
            if *first % TYPES == FUNCTION {
                function(*first, bytes)
            } else {
                metadata(*first >> KIND_SHIFT, fields)
            }
        }
    }
}

/// Reads the record at the place `at` of the bytes, which may be their end, and not beyond it.
/// Returns it and the place after it. Places are byte offsets from the start of `bytes`. Bytes
/// after the record don't matter, nor do those of a metadata record after its fields. `RecFault`
/// says why there is no record.
pub fn take_rec(bytes: &[u8], at: usize) -> Result<(Rec, usize), RecFault>
    requires { at ≤ length bytes.now }
    // What is read stands there.
    ensures found { IfOk result (λ x. FieldsFit x.0 × BeginsWith x.0 (drop at bytes.now)
        × (x.1 ≡ at + length_of x.0)) }
    // The place after it is further on, and within the bytes.
    ensures next { IfOk result (λ x. (at < x.1) × (x.1 ≤ length bytes.now)) }
    // A record that stands there is read.
    ensures only { (r : Rec) → FieldsFit r → BeginsWith r (drop at bytes.now)
        → result ≡ Ok (r, at + length_of r) }
    // A fault that is returned holds there.
    ensures fault { IfErr result (Refuses (drop at bytes.now)) }
    // A fault that holds there is returned.
    ensures exact { (f : RecFault) → Refuses (drop at bytes.now) f → result ≡ Err f }
{
    let rec = record(&bytes[at..])?;
    Ok((rec, at + rec_len(&rec)))
}
