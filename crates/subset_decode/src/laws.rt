//! Laws of the encodings. Each law is the contract of a function that does nothing.

ghost use Rattle.std.specs.Prelude.{◌≡◌, ◌<◌, ◌++◌, List, ℕ, All, Result, Ok};
ghost use Rattle.subset_decode.specs.declared.instr.Instr.{Instr};
ghost use Rattle.subset_decode.specs.declared.fault.DecodeFault.{DecodeFault};
ghost use Rattle.subset_decode.specs.{Encoding.{spelling, IsNamed, Begins}, Refusals.{Answers}};

/// Bytes begin with at most one instruction.
pub fn one_instruction()
    ensures { (i j : Instr) (bytes : List ℕ) → IsNamed i → IsNamed j
        → Begins (spelling i) bytes → Begins (spelling j) bytes → i ≡ j }
{}

/// No encoding begins another.
pub fn no_encoding_begins_another()
    ensures { (i j : Instr) → IsNamed i → IsNamed j → Begins (spelling i) (spelling j) → i ≡ j }
{}

/// Bytes that begin with an encoding read as its instruction and as no other, whatever follows.
pub fn an_encoding_reads_back()
    ensures { (i : Instr) (following : List ℕ) → IsNamed i
        → (a : Result Instr DecodeFault) → Answers (spelling i ++ following) a → a ≡ Ok i }
{}

/// Exactly one answer holds of any bytes: the instruction that they begin with, or one fault.
pub fn one_answer()
    ensures some { (bytes : List ℕ) → All (λ b. b < 256) bytes
        → (a : Result Instr DecodeFault) × Answers bytes a }
    ensures unique { (bytes : List ℕ) (a b : Result Instr DecodeFault)
        → Answers bytes a → Answers bytes b → a ≡ b }
{}
