//! Laws of the bytes of records. Each law is the contract of a function that does nothing.

ghost use Rattle.std.specs.Prelude.{◌≡◌, ◌<◌, ◌++◌, List, ℕ, All, Result, Ok};
ghost use Rattle.fdr_record.specs.declared.rec.Rec.{Rec};
ghost use Rattle.fdr_record.specs.declared.fault.RecFault.{RecFault};
ghost use Rattle.fdr_record.specs.Records.{record_bytes, FieldsFit, BeginsWith};
ghost use Rattle.fdr_record.specs.Refusals.{Answers};

/// Bytes that begin with what is written for a record read as this record and as no other, whatever
/// follows.
pub fn a_record_reads_back()
    ensures stands { (r : Rec) (following : List ℕ) → FieldsFit r
        → BeginsWith r (record_bytes r ++ following) }
    ensures answered { (r : Rec) (following : List ℕ) → FieldsFit r
        → (a : Result Rec RecFault) → Answers (record_bytes r ++ following) a → a ≡ Ok r }
{}

/// Bytes begin with at most one record.
pub fn one_record()
    ensures { (r s : Rec) (bytes : List ℕ) → FieldsFit r → FieldsFit s
        → BeginsWith r bytes → BeginsWith s bytes → r ≡ s }
{}

/// Exactly one answer holds of any bytes: the record that they begin with, or one fault.
pub fn one_answer()
    ensures some { (bytes : List ℕ) → All (λ b. b < 256) bytes
        → (a : Result Rec RecFault) × Answers bytes a }
    ensures unique { (bytes : List ℕ) (a b : Result Rec RecFault)
        → Answers bytes a → Answers bytes b → a ≡ b }
{}
