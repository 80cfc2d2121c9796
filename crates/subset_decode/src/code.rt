//! The bytes of one instruction.

ghost use Rattle.std.specs.Prelude.{◌≡◌, ◌≤◌, ◌+◌, ◌-◌, [], ◌++◌, length, take, drop, replicate};
ghost use Rattle.subset_decode.specs.declared.code.TheConstants.{LONGEST};

/// The length of the longest encodings in bytes: those of `jnz`, and of `mov` into r8 to r15.
pub const LONGEST: usize = 6;

/// The length of `call` and `jmp` in bytes.
pub const NEAR_LENGTH: u32 = 5;

/// The length of `jnz` in bytes. Its opcode has two bytes.
pub const CONDITIONAL_LENGTH: u32 = 6;

/// The length of `ret` in bytes.
pub const RETURN_LENGTH: u32 = 1;

/// The encoding of one instruction. `as_slice` gives its bytes without padding.
#[derive(Clone, Copy)]
pub struct Code {
    /// The bytes of the instruction, and zeros after them.
    pub bytes: [u8; LONGEST],
    /// How many of the bytes belong to the instruction.
    pub len: u8,
    pub ghost within: { len ≤ LONGEST },
    pub ghost padded: { drop len bytes ≡ replicate (LONGEST - len) 0 },
}

impl Code {
    /// No bytes yet.
    pub(crate) fn empty() -> Self
        ensures { take result.len result.bytes ≡ [] }
    {
        Code {
            bytes: [0; LONGEST],
            len: 0,
        }
    }

    /// The bytes of the instruction.
    pub fn as_slice(&self) -> &[u8]
        ensures { result.now ≡ take self.now.len self.now.bytes }
    {
        &self.bytes[..self.len as usize]
    }

    /// Adds bytes at the end.
    pub(crate) fn push_all(&mut self, more: &[u8])
        requires { self.old.len + length more.now ≤ LONGEST }
        ensures len { self.new.len ≡ self.old.len + length more.now }
        ensures bytes { take self.new.len self.new.bytes ≡ take self.old.len self.old.bytes
            ++ more.now }
    {
        let start = self.len as usize;
        let end = start + more.len();
        self.bytes[start..end].copy_from_slice(more);
        self.len = end as u8;
    }
}
