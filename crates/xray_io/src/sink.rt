//! Outputs.
ghost use Rattle.std.specs.Prelude.{◌≡◌, ℕ, ◌≤◌, [], ◌∷◌, List, length, take, Option, IfOk, OnOk, OnErr};
ghost use Rattle.xray_io.specs.{Calls.{Write, Wrote, HoldsOfNone, Composes}, Faults.{Rose}};
ghost use Rattle.xray_io.specs.Sink.{Adds};

use crate::Failed;

/// A place that takes bytes at its end, as a file that is appended to or a stream does.
pub trait Sink {
    /// All that was written, if the sink reports it.
    ghost written: { Self → Option (List ℕ) };

    /// How many writes have failed.
    ghost faults: { Self → ℕ };

    /// These writes, in this order and no others, lead from the first state of the sink to the
    /// second, and what the sink writes to stays the same otherwise.
    ghost along: { Self → Self → List Write → Type 0 };

    /// Writes a prefix of `bytes` at the end, and returns its length. The length is 0 only if
    /// `bytes` is empty. On `Failed` nothing was written, and the fault was counted.
    fn write(&mut self, bytes: &[u8]) -> Result<usize, Failed>
        ensures within { IfOk result (λ n. n ≤ length bytes.now) }
        ensures taken { IfOk result (λ n.
            Adds (written self.old) (written self.new) (take n bytes.now)) }
        ensures goes_on { IfOk result (λ n. n ≡ 0 → bytes.now ≡ []) }
        ensures same { OnErr result (written self.new ≡ written self.old) }
        ensures failed { OnErr result (Rose (faults self.old) (faults self.new)) }
        ensures later { faults self.old ≤ faults self.new }
        ensures calm { OnOk result (faults self.new ≡ faults self.old) }
        ensures along { along self.old self.new (Wrote (length bytes.now) result ∷ []) };

    /// No writes lead from a state to itself.
    ghost along_none: { HoldsOfNone along };

    /// If some writes lead to a state, and other writes on from there, then all of them in turn
    /// lead the whole way.
    ghost along_both: { Composes along };
}
