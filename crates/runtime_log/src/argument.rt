//! Entries and the arguments behind them.
ghost use Rattle.std.specs.Prelude.{◌≡◌, ◌<◌, false, length};
ghost use Rattle.fdr_file.specs.Traces.{record_in};
ghost use Rattle.runtime_log.specs.Arguments.{arg_follows, found_arg, rec_before, traced_in};

use fdr_file::{record_len, record_of};
use fdr_record::{FUNCTION_BYTES, Kind, Rec, RecFault};

/// The first byte of an argument: bit 0 is 1, and the kind 6 is above it (`CallArgument`).
const ARGUMENT: u8 = 13;

/// How many values the type and the action of a function record have, in the lowest bits of its first
/// byte. They are 0 in an entry that doesn't say that it logs its argument.
const ACTIONS: u8 = 16;

/// Whether an argument was found.
fn found_arg(found: Result<Rec, RecFault>) -> bool
    ensures { result ≡ found_arg found }
{
    matches!(found, Ok(Rec::CallArg { .. }))
}

/// Whether an argument directly follows the record that bytes begin with.
fn arg_follows(bytes: &[u8]) -> bool
    requires { 0 < length bytes.now }
    ensures { result ≡ arg_follows bytes.now }
{
    let len = record_len(bytes);
    if bytes.len() < len {
        return false;
    }
    found_arg(record_of(&bytes[len..]))
}

/// A record that an argument directly follows or doesn't, as a record of a trace.
fn rec_before(follows: bool, rec: Rec) -> Rec
    ensures { result ≡ rec_before follows rec }
{
    match rec {
        Rec::Function { kind, func, delta } => {
            let kind = match kind {
                Kind::Entry => {
                    if follows {
                        Kind::EntryArgs
                    } else {
                        Kind::Entry
                    }
                }
                Kind::Exit => Kind::Exit,
                Kind::TailExit => Kind::TailExit,
                Kind::EntryArgs => Kind::EntryArgs,
            };
            Rec::Function { kind, func, delta }
        }
        _ => rec,
    }
}

/// The record of a trace that the one is which bytes begin with. An entry before an argument logs it.
pub(crate) fn traced_of(bytes: &[u8]) -> Result<Rec, RecFault>
    requires { 0 < length bytes.now }
    ensures { result ≡ traced_in bytes.now }
{
    match record_of(bytes) {
        Ok(rec) => Ok(rec_before(arg_follows(bytes), rec)),
        Err(fault) => Err(fault),
    }
}

/// Whether bytes may begin with an entry of action 0 and an argument behind it, by the first bytes of
/// both. If not, the record that they begin with is that of a trace.
#[inline(always)]
pub(crate) fn may_have_arg(bytes: &[u8]) -> bool
    ensures { result ≡ false → traced_in bytes.now ≡ record_in bytes.now }
{
    if bytes.len() <= FUNCTION_BYTES {
        return false;
    }
    if bytes[0] % ACTIONS != 0 {
        return false;
    }
    bytes[FUNCTION_BYTES] == ARGUMENT
}
