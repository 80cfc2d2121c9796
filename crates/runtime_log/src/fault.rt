//! Why bytes aren't a log.
use fdr_file::TraceFault;
use thiserror::Error;

/// Why `import_log` makes no trace. It returns the first fault of the header: `Short`, `Version`,
/// `Form`. If the header has none, it returns the fault of the first place that has one. A place is a
/// byte offset, counted from the file's start.
#[derive(Clone, Copy, Debug, PartialEq, Eq, Error)]
pub enum LogFault {
    /// What a trace may be refused for, too. The versions are 2 to 5, and 1 to 3 for a basic log. The
    /// types are 1, and 0 for a basic log. In a basic log `Short` is a record that isn't whole.
    #[error("{0}")]
    Trace(TraceFault),
    /// The first two bytes of the record at this place of a basic log, as a number, if they are
    /// neither 0 nor 1.
    #[error("the record at {0} begins with {1}")]
    Tag(u64, u16),
    /// The number for the kind of the record at this place of a basic log, if it is above 3.
    #[error("the record at {0} is of the kind {1}")]
    Kind(u64, u8),
    /// The function of the record at this place of a basic log, if its id has more than the 28 bits
    /// that a trace has for it.
    #[error("the record at {0} is of the function {1}")]
    Function(u64, u32),
}

/// A refused allocation ends the reading.
impl<E: Into<xray_io::NoMemory> + Drop> From<E> for LogFault {
    ghost use Rattle.std.specs.Prelude.{◌≡◌};
    ghost use Rattle.fdr_file.specs.declared.fault.TraceFault.TheVariants.{NoMemory};
    ghost use Rattle.runtime_log.specs.declared.fault.LogFault.TheVariants.{Trace};

    ghost from_gives = { λ _ fault. fault ≡ Trace NoMemory };

    fn from(_error: E) -> LogFault {
        LogFault::Trace(TraceFault::NoMemory)
    }
}
