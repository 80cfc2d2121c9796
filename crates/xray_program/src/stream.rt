//! An input that is taken piece by piece. It is measured and judged by what was fed its pieces.
ghost use Rattle.std.specs.Prelude.{◌≡◌, ◌≤◌, List, [], ℕ, Some, IfErr, IfOk, OnOk};
ghost use Rattle.xray_io.specs.{Calls.{Went}, World.{desk_view}};
ghost use Rattle.xray_program.specs.private.Takes.{IsTakenAs, IsTaking};
ghost use Rattle.xray_program.specs.Taking.{Form};

use crate::input::{fault_stop, read_stop};
use crate::stop::Stop;
use fault_words::Fault;
use std::alloc::Global;
use xray_io::{Desk, Feed, read_pieces};

/// A kind of input that is fed piece by piece: what its bytes have to be.
pub(crate) trait StreamKind {
    /// What an input of this kind reads as.
    type Meaning;

    /// What is fed the pieces.
    type Pieces: Feed + Drop;

    /// What is known of an input at its end.
    type Value: Drop;

    /// Why bytes aren't an input of this kind.
    type Refusal: Fault;

    /// The most bytes of such an input, what bytes read as, and why they are refused.
    ghost form: { Self → Form Self.Meaning };

    /// What the value says of what the input reads as.
    ghost means: { Self → Self.Value → Self.Meaning → Type 0 };

    /// The word for it in a line on err.
    fn word(&self) -> &'static str
        ensures { result.now ≡ (form self.now).kind };

    /// The most bytes of such an input.
    fn limit(&self) -> u64
        ensures { result ≡ (form self.now).limit };

    /// What is to be fed the pieces, before the first of them.
    fn begin(&self, alloc: Global) -> Self::Pieces
        ensures { Self.Pieces.fed result [] };

    /// The value, once all pieces were fed. The answer is an error if the bytes are refused, or if
    /// memory runs out.
    fn judge(&self, alloc: Global, pieces: Self::Pieces) -> Result<Self::Value, Self::Refusal>
        ensures reads { IfOk result (λ value. (bytes : List ℕ) → Self.Pieces.fed pieces bytes →
            (meant : Self.Meaning) × means self.now value meant × (form self.now).Reads bytes meant) }
        ensures refuses { IfErr result (λ fault. (bytes refusal : List ℕ) → Self.Pieces.fed pieces bytes →
            Self.Refusal.told fault ≡ Some refusal → (form self.now).Refuses bytes refusal) };
}

/// Takes an input piece by piece: reads it, measures it and judges it.
pub(crate) fn take_stream<'a, K: StreamKind, D: Desk>(
    alloc: Global,
    desk: &mut D,
    name: &'a str,
    kind: &K,
) -> Result<K::Value, Stop<'a>>
    ensures taken { let seen = desk_view D.held D.read_faults D.write_faults in
        IsTakenAs (K.form kind.now) (K.means kind.now) name.now (seen desk.old) (seen desk.new) result }
    ensures held { D.held desk.new ≡ D.held desk.old }
    ensures later { D.read_faults desk.old ≤ D.read_faults desk.new }
    ensures writes { D.write_faults desk.new ≡ D.write_faults desk.old }
    ensures calm { OnOk result (D.read_faults desk.new ≡ D.read_faults desk.old) }
    ensures calls { Went (D.along desk.old desk.new) (IsTaking name.now (K.form kind.now).limit result) }
{
    let mut pieces = kind.begin(alloc);
    match read_pieces(alloc, desk, name, kind.limit(), &mut pieces) {
        Ok(_) => match kind.judge(alloc, pieces) {
            Ok(value) => Ok(value),
            Err(fault) => Err(fault_stop(name, kind.word(), &fault)),
        },
        Err(error) => Err(read_stop(name, error)),
    }
}
