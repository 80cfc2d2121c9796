//! An input in its turn: it is read, measured and judged before the next one is opened.
//! Here it is kept whole for that; `stream` has inputs that are taken piece by piece.
ghost use Rattle.std.specs.Prelude.{◌≡◌, ◌≤◌, ℕ, List, Some, length, IfOk, IfErr};
ghost use Rattle.xray_io.specs.World.{desk_view};
ghost use Rattle.xray_program.specs.private.Takes.{IsFaultStop, IsReadStop, TakesInput};
ghost use Rattle.xray_program.specs.Taking.{Form, any_bytes};

use crate::file_bytes::FileBytes;
use crate::stop::Stop;
use fault_words::Fault;
use std::alloc::Global;
use xray_io::{Desk, ReadError, read_whole};

/// A kind of input: what its bytes have to be.
pub(crate) trait Kind {
    /// What an input of this kind reads as.
    type Value: Drop;

    /// Why bytes aren't an input of this kind.
    type Refusal: Fault;

    /// The most bytes of such an input, what bytes read as, and why they are refused.
    ghost form: { Self → Form Self.Value };

    /// What a value has to satisfy, given the inputs that were taken before it.
    ghost fits: { Self → Self.Value → Type 0 };

    /// The word for it in a line on err.
    fn word(&self) -> &'static str
        ensures { result.now ≡ (form self.now).kind };

    /// The most bytes of such an input.
    fn limit(&self) -> u64
        ensures { result ≡ (form self.now).limit };

    /// The value that bytes read as. The answer is an error if they are refused, or if memory runs
    /// out.
    fn judge(&self, alloc: Global, bytes: &[u8]) -> Result<Self::Value, Self::Refusal>
        requires { length bytes.now ≤ (form self.now).limit }
        ensures reads { IfOk result ((form self.now).Reads bytes.now) }
        ensures fits { IfOk result (fits self.now) }
        ensures refuses { IfErr result (λ fault. (refusal : List ℕ) →
            Self.Refusal.told fault ≡ Some refusal → (form self.now).Refuses bytes.now refusal) };
}

/// Takes an input: reads it, measures it and judges it.
pub(crate) fn take<'a, K: Kind, D: Desk>(
    alloc: Global,
    desk: &mut D,
    name: &'a str,
    kind: &K,
) -> Result<K::Value, Stop<'a>>
    ensures turn { let seen = desk_view D.held D.read_faults D.write_faults in
        TakesInput (K.form kind.now) name.now (seen desk.old) (seen desk.new) (D.along desk.old desk.new) result }
    ensures fits { IfOk result (K.fits kind.now) }
{
    match read_whole(alloc, desk, name, kind.limit()) {
        Ok(bytes) => match kind.judge(alloc, &bytes) {
            Ok(value) => Ok(value),
            Err(fault) => Err(fault_stop(name, kind.word(), &fault)),
        },
        Err(error) => Err(read_stop(name, error)),
    }
}

/// Takes an input of any bytes, which are its value: reads it and measures it.
pub(crate) fn take_bytes<'a, D: Desk>(
    alloc: Global,
    desk: &mut D,
    name: &'a str,
    limit: u64,
) -> Result<FileBytes, Stop<'a>>
    ensures { let seen = desk_view D.held D.read_faults D.write_faults in (kind : List ℕ)
        → TakesInput (any_bytes kind limit) name.now (seen desk.old) (seen desk.new) (D.along desk.old desk.new) result }
{
    match read_whole(alloc, desk, name, limit) {
        Ok(bytes) => Ok(FileBytes { bytes }),
        Err(error) => Err(read_stop(name, error)),
    }
}

/// The stop for an input's fault: out of memory, or a refusal with its words.
pub(crate) fn fault_stop<'a, F: Fault>(name: &'a str, kind: &'a str, fault: &F) -> Stop<'a>
    ensures { IsFaultStop name.now kind.now (F.told fault.now) result }
{
    match fault.refusal() {
        Some(words) => Stop::Refused { name, kind, words },
        None => Stop::NoMemory,
    }
}

/// The stop for an error of reading.
pub(crate) fn read_stop(name: &str, error: ReadError) -> Stop<'_>
    ensures { IsReadStop name.now error result }
{
    match error {
        ReadError::ReadFault => Stop::Unread(name),
        ReadError::TooLong => Stop::TooLong(name),
        ReadError::NoMemory => Stop::NoMemory,
    }
}
