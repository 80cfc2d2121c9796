//! Sleds and their kinds.

ghost use Rattle.std.specs.Prelude.{◌≡◌, ◌≤◌, MatchOption};

/// The kind of a sled, as the sled map says it.
#[derive(Clone, Copy, Debug, PartialEq, Eq)]
pub enum SledKind {
    /// At a function's entry. Map kind 0.
    Entry,
    /// In place of a `ret`. Map kind 1.
    Exit,
    /// Before a tail jump. Map kind 2.
    Tail,
    /// At the entry of a function whose first argument may be logged. Map kind 3.
    Args,
}

impl SledKind {
    ghost use Rattle.xray_image.specs.{Kinds.{kind_number}, Program.{kind_of}};

    /// The number of the kind in an entry of the sled map: that of compiler-rt's `XRayEntryType`.
    pub fn number(self) -> u8
        ensures { result ≡ kind_number self }
    {
        match self {
            SledKind::Entry => 0,
            SledKind::Exit => 1,
            SledKind::Tail => 2,
            SledKind::Args => 3,
        }
    }

    /// The kind of this number. The answer is `None` exactly for numbers above 3.
    pub fn from_number(number: u8) -> Option<SledKind>
        ensures { MatchOption result (4 ≤ number)
            (λ kind. (number ≡ kind_number kind) × (kind ≡ kind_of number)) }
    {
        match number {
            0 => Some(SledKind::Entry),
            1 => Some(SledKind::Exit),
            2 => Some(SledKind::Tail),
            3 => Some(SledKind::Args),
            4..=u8::MAX => None,
        }
    }
}

/// A sled of the code, with what its map entry says.
#[derive(Clone, Copy, Debug, PartialEq, Eq)]
pub struct Sled {
    /// The address of its first byte.
    pub address: u64,
    /// The address of the function that it lies in.
    pub function: u64,
    /// That function's id, from 1.
    pub id: u32,
    /// At an entry, with or without argument logging, at an exit, or before a tail jump.
    pub kind: SledKind,
    /// Whether the function is always instrumented.
    pub always: bool,
    /// The displacement in the sled's nop, as 32 bits.
    pub shift: u32,
}
