//! Named inputs and outputs.
ghost use Rattle.std.specs.Prelude.{◌≡◌, ◌≢◌, ℕ, ◌≤◌, ◌<◌, [], ◌∷◌, List, length, take, drop, IfOk, OnOk, OnErr, IsErrOf};
ghost use Rattle.xray_io.specs.Calls.{CallMade, Read, Create, Append, HoldsOfNone, Composes};
ghost use Rattle.xray_io.specs.Desk.{Entry, Absent, Holds, empty_entry, longer_entry};
ghost use Rattle.xray_io.specs.Faults.{Rose};

use crate::{Failed, ReadFail};

/// A place that holds bytes under names, as a folder of files does.
pub trait Desk {
    /// What the desk reports of a name, by the name's bytes.
    ghost held: { Self → List ℕ → Entry };

    /// How many reads have failed.
    ghost read_faults: { Self → ℕ };

    /// How many writes have failed.
    ghost write_faults: { Self → ℕ };

    /// These calls, in this order and no others, lead from the first state of the desk to the
    /// second.
    ghost along: { Self → Self → List CallMade → Type 0 };

    /// Reads bytes of `name` into `buf`, from byte `from` on, counted from 0. Returns how many it
    /// read. They stand at the start of `buf`; the rest of `buf` has no meaning. Fewer bytes than
    /// `buf` has room for don't mean the end. No bytes mean the end, unless `buf` is empty.
    ///
    /// `Missing` comes only if the desk reports that it doesn't hold the name. `Failed` means that
    /// the read failed, and was counted.
    fn read(&mut self, name: &str, from: u64, buf: &mut [u8]) -> Result<usize, ReadFail>
        ensures within { IfOk result (λ n. n ≤ length buf.new) }
        ensures bytes { IfOk result (λ n. (bytes : List ℕ) → held self.old name.now ≡ Holds bytes →
            take n buf.new ≡ take n (drop from bytes)) }
        ensures end { IfOk result (λ n. (bytes : List ℕ) → held self.old name.now ≡ Holds bytes →
            n ≡ 0 → 0 < length buf.new → length bytes ≤ from) }
        ensures there { OnOk result (held self.old name.now ≢ Absent) }
        ensures missing { IsErrOf result ReadFail.Missing → held self.old name.now ≡ Absent }
        ensures no_fault { IsErrOf result ReadFail.Missing →
            read_faults self.new ≡ read_faults self.old }
        ensures failed { IsErrOf result ReadFail.Failed →
            Rose (read_faults self.old) (read_faults self.new) }
        ensures held { held self.new ≡ held self.old }
        ensures later { read_faults self.old ≤ read_faults self.new }
        ensures writes { write_faults self.new ≡ write_faults self.old }
        ensures calm { OnOk result (read_faults self.new ≡ read_faults self.old) }
        ensures along { along self.old self.new (Read name.now from (length buf.old) result ∷ []) };

    /// Makes `name` hold no bytes, whether the desk held it before or not. On `Failed` no name has
    /// changed, and the fault was counted as one of writing.
    fn create(&mut self, name: &str) -> Result<(), Failed>
        ensures created { OnOk result (
            held self.new name.now ≡ empty_entry (held self.old name.now)) }
        ensures others { (other : List ℕ) → other ≢ name.now →
            held self.new other ≡ held self.old other }
        ensures same { OnErr result (held self.new ≡ held self.old) }
        ensures failed { OnErr result (Rose (write_faults self.old) (write_faults self.new)) }
        ensures later { write_faults self.old ≤ write_faults self.new }
        ensures reads { read_faults self.new ≡ read_faults self.old }
        ensures calm { OnOk result (write_faults self.new ≡ write_faults self.old) }
        ensures along { along self.old self.new (Create name.now result ∷ []) };

    /// Writes a prefix of `bytes` at the end of what `name` holds, and returns its length. The
    /// length is 0 only if `bytes` is empty. A name that isn't held is begun. On `Failed` no name
    /// has changed, and the fault was counted as one of writing.
    fn append(&mut self, name: &str, bytes: &[u8]) -> Result<usize, Failed>
        ensures within { IfOk result (λ n. n ≤ length bytes.now) }
        ensures added { IfOk result (λ n.
            held self.new name.now ≡ longer_entry (held self.old name.now) (take n bytes.now)) }
        ensures goes_on { IfOk result (λ n. n ≡ 0 → bytes.now ≡ []) }
        ensures others { (other : List ℕ) → other ≢ name.now →
            held self.new other ≡ held self.old other }
        ensures same { OnErr result (held self.new ≡ held self.old) }
        ensures failed { OnErr result (Rose (write_faults self.old) (write_faults self.new)) }
        ensures later { write_faults self.old ≤ write_faults self.new }
        ensures reads { read_faults self.new ≡ read_faults self.old }
        ensures calm { OnOk result (write_faults self.new ≡ write_faults self.old) }
        ensures along { along self.old self.new (Append name.now (length bytes.now) result ∷ []) };

    /// No calls lead from a state to itself.
    ghost along_none: { HoldsOfNone along };

    /// If some calls lead to a state, and other calls on from there, then all of them in turn lead
    /// the whole way.
    ghost along_both: { Composes along };
}
