//! A whole input, and a whole output.
ghost use Rattle.std.specs.Prelude.{◌≡◌, ◌≢◌, ◌⊎◌, ℕ, ◌+◌, ◌≤◌, ◌<◌, [], List, length, IfOk, OnOk, OnErr, IsErrOf};
ghost use Rattle.xray_io.specs.{Calls.{Went}, Desk.{Absent, Holds}, Faults.{Rose}};
ghost use Rattle.xray_io.specs.{Reads.{IsFedWhole, IsReading, count_read}, Writes.{WritesText}};
ghost use Rattle.xray_io.specs.private.Pieces.{IsFedFront, IsPiece};

use crate::{Desk, Feed, ReadError, Sink, WriteFault};
use std::alloc::Global;

/// The most bytes that one read asks for.
const PIECE: usize = 65_536;

/// Reads all that `name` holds, at most `limit` bytes, and feeds it piece by piece. Returns how many
/// bytes that was. Each read begins where the one before it ended, and none asks for a byte past the
/// first `limit + 1`. The memory for a piece is allocated once.
///
/// `ReadFault` means that a read failed or that the desk doesn't hold the name. `TooLong` means
/// that there were more than `limit` bytes. `NoMemory` means that an allocation was refused. Nothing
/// is said of `feed` then.
pub fn read_pieces<D: Desk, F: Feed>(
    alloc: Global,
    desk: &mut D,
    name: &str,
    limit: u64,
    feed: &mut F,
) -> Result<u64, ReadError>
    requires { F.fed feed.old [] }
    ensures whole { IfOk result (IsFedWhole F.fed feed.new (D.held desk.old name.now)) }
    ensures within { IfOk result (λ count. count ≤ limit) }
    ensures there { OnOk result (D.held desk.old name.now ≢ Absent) }

    ensures too_long { IsErrOf result ReadError.TooLong → (bytes : List ℕ) →
        D.held desk.old name.now ≡ Holds bytes → limit < length bytes }
    ensures too_long_there { IsErrOf result ReadError.TooLong →
        D.held desk.old name.now ≢ Absent }
    ensures read_fault { IsErrOf result ReadError.ReadFault →
        Rose (D.read_faults desk.old) (D.read_faults desk.new)
        ⊎ (D.held desk.old name.now ≡ Absent) }

    ensures held { D.held desk.new ≡ D.held desk.old }
    ensures later { D.read_faults desk.old ≤ D.read_faults desk.new }
    ensures writes { D.write_faults desk.new ≡ D.write_faults desk.old }
    ensures calm { (IsErrOf result ReadError.ReadFault → ⊥) →
        D.read_faults desk.new ≡ D.read_faults desk.old }
    ensures calls { Went (D.along desk.old desk.new) (IsReading name.now limit result) }
{
    let mut piece = vec![in alloc; 0u8; PIECE]?;
    read_on(desk, name, limit, &mut piece, feed)
}

/// Reads all that `name` holds, at most `limit` bytes, and keeps it. The reads and the errors are
/// those of `read_pieces`. What was read is lost on an error.
pub fn read_whole<D: Desk>(
    alloc: Global,
    desk: &mut D,
    name: &str,
    limit: u64,
) -> Result<Vec<u8>, ReadError>
    ensures whole { IfOk result (λ content. (bytes : List ℕ) →
        D.held desk.old name.now ≡ Holds bytes → content.items ≡ bytes) }
    ensures within { IfOk result (λ content. length content.items ≤ limit) }
    ensures there { OnOk result (D.held desk.old name.now ≢ Absent) }

    ensures too_long { IsErrOf result ReadError.TooLong → (bytes : List ℕ) →
        D.held desk.old name.now ≡ Holds bytes → limit < length bytes }
    ensures too_long_there { IsErrOf result ReadError.TooLong →
        D.held desk.old name.now ≢ Absent }
    ensures read_fault { IsErrOf result ReadError.ReadFault →
        Rose (D.read_faults desk.old) (D.read_faults desk.new)
        ⊎ (D.held desk.old name.now ≡ Absent) }

    ensures held { D.held desk.new ≡ D.held desk.old }
    ensures later { D.read_faults desk.old ≤ D.read_faults desk.new }
    ensures writes { D.write_faults desk.new ≡ D.write_faults desk.old }
    ensures calm { (IsErrOf result ReadError.ReadFault → ⊥) →
        D.read_faults desk.new ≡ D.read_faults desk.old }
    ensures calls { Went (D.along desk.old desk.new) (IsReading name.now limit (count_read result)) }
{
    let mut bytes = Vec::new(alloc);
    match read_pieces(alloc, desk, name, limit, &mut bytes) {
        Ok(_) => Ok(bytes),
        Err(error) => Err(error),
    }
}

/// Reads to the end of the name, a piece at a time.
#[tactic(auto, using(crate::proofs::ReadPieces::front_none))]
fn read_on<D: Desk, F: Feed>(
    desk: &mut D,
    name: &str,
    limit: u64,
    piece: &mut [u8],
    feed: &mut F,
) -> Result<u64, ReadError>
    requires none { F.fed feed.old [] }
    requires size { length piece.old ≡ PIECE }
    ensures whole { IfOk result (IsFedWhole F.fed feed.new (D.held desk.old name.now)) }
    ensures within { IfOk result (λ count. count ≤ limit) }
    ensures there { OnOk result (D.held desk.old name.now ≢ Absent) }
    ensures too_long { IsErrOf result ReadError.TooLong → (bytes : List ℕ) →
        D.held desk.old name.now ≡ Holds bytes → limit < length bytes }
    ensures too_long_there { IsErrOf result ReadError.TooLong →
        D.held desk.old name.now ≢ Absent }
    ensures read_fault { IsErrOf result ReadError.ReadFault →
        Rose (D.read_faults desk.old) (D.read_faults desk.new)
        ⊎ (D.held desk.old name.now ≡ Absent) }
    ensures held { D.held desk.new ≡ D.held desk.old }
    ensures later { D.read_faults desk.old ≤ D.read_faults desk.new }
    ensures writes { D.write_faults desk.new ≡ D.write_faults desk.old }
    ensures calm { (IsErrOf result ReadError.ReadFault → ⊥) →
        D.read_faults desk.new ≡ D.read_faults desk.old }
    ensures calls { Went (D.along desk.old desk.new) (IsReading name.now limit result) }
{
    let mut at: u64 = 0;
    'reading: loop {
        let room = (limit - at).min(PIECE as u64 - 1) as usize + 1;
        let len = feed_piece(desk, name, limit, at, &mut piece[..room], feed)?;
        if len == 0 {
            return Ok(at);
        }
        at += len as u64;
    }
}

/// Reads from a byte on, and feeds what it got, unless that is too much. Returns how many bytes that
/// was. None is the end.
#[tactic(auto, using(crate::proofs::ReadPieces::front_more, crate::proofs::ReadPieces::there_are))]
fn feed_piece<D: Desk, F: Feed>(
    desk: &mut D,
    name: &str,
    limit: u64,
    at: u64,
    piece: &mut [u8],
    feed: &mut F,
) -> Result<usize, ReadError>
    requires room { 0 < length piece.old }
    requires bound { at + length piece.old ≤ limit + 1 }
    requires front { IsFedFront F.fed feed.old (D.held desk.old name.now) at }
    ensures front { IfOk result (λ n. IsFedFront F.fed feed.new (D.held desk.old name.now) (at + n)) }
    ensures within { IfOk result (λ n. at + n ≤ limit) }
    ensures end { IfOk result (λ n. (content : List ℕ) → D.held desk.old name.now ≡ Holds content →
        n ≡ 0 → length content ≤ at) }
    ensures there { OnOk result (D.held desk.old name.now ≢ Absent) }
    ensures too_long { IsErrOf result ReadError.TooLong → (content : List ℕ) →
        D.held desk.old name.now ≡ Holds content → limit < length content }
    ensures too_long_there { IsErrOf result ReadError.TooLong →
        D.held desk.old name.now ≢ Absent }
    ensures read_fault { IsErrOf result ReadError.ReadFault →
        Rose (D.read_faults desk.old) (D.read_faults desk.new)
        ⊎ (D.held desk.old name.now ≡ Absent) }
    ensures held { D.held desk.new ≡ D.held desk.old }
    ensures later { D.read_faults desk.old ≤ D.read_faults desk.new }
    ensures writes { D.write_faults desk.new ≡ D.write_faults desk.old }
    ensures calm { (IsErrOf result ReadError.ReadFault → ⊥) →
        D.read_faults desk.new ≡ D.read_faults desk.old }
    ensures calls { Went (D.along desk.old desk.new)
        (IsPiece name.now limit at (length piece.old) result) }
{
    match desk.read(name, at, piece) {
        Ok(0) => Ok(0),
        Ok(len) => {
            if len as u64 > limit - at {
                return Err(ReadError::TooLong);
            }
            match feed.feed(&piece[..len]) {
                Ok(()) => Ok(len),
                Err(_) => Err(ReadError::NoMemory),
            }
        }
        Err(_) => Err(ReadError::ReadFault),
    }
}

/// Writes all of `bytes`. On `WriteFault` a prefix of them was written, and the sink counted a
/// fault.
pub fn write_all<S: Sink>(sink: &mut S, bytes: &[u8]) -> Result<(), WriteFault>
    ensures writes { WritesText S.written S.faults S.along sink.old sink.new bytes.now result }
{
    let mut done = 0;
    'writing: while done < bytes.len() {
        match sink.write(&bytes[done..]) {
            Ok(n) => done += n,
            Err(_) => return Err(WriteFault),
        }
    }
    Ok(())
}
