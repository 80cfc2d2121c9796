//! The versions of the format.

ghost use Rattle.std.specs.Prelude.{◌≡◌};
ghost use Rattle.fdr_file.specs.Traces.{preamble_bytes, version_of};

use fdr_record::METADATA_BYTES;

/// The version of the files that are written.
pub const VERSION: u16 = 3;

/// The version whose blocks name no process.
const VERSION_WITHOUT_PROCESS: u16 = 2;

/// The process of a block that names none.
pub(crate) const NO_PROCESS: u32 = 0;

/// A version of the format that is read. It decides which records a block begins with.
#[derive(Clone, Copy)]
pub enum Version {
    /// Version 2. A block begins with `NewBuffer` and `WalltimeMarker`.
    Two,
    /// Version 3. A block begins with `NewBuffer`, `WalltimeMarker` and `Pid`.
    Three,
}

impl Version {
    /// The version with this number, if it is read.
    pub(crate) fn of(number: u16) -> Option<Version>
        ensures { result ≡ version_of number }
    {
        match number {
            VERSION_WITHOUT_PROCESS => Some(Version::Two),
            VERSION => Some(Version::Three),
            _ => None,
        }
    }

    /// The length in bytes of the records that a block begins with.
    pub fn preamble_bytes(self) -> u64
        ensures { result ≡ preamble_bytes self }
    {
        let records = match self {
            Version::Two => 2,
            Version::Three => 3,
        };
        records * METADATA_BYTES as u64
    }
}
