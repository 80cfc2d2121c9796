//! The versions of logs.
ghost use Rattle.std.specs.Prelude.{◌≡◌};
ghost use Rattle.runtime_log.specs.Versions.{basic_version_of, log_version_of, trace_version};

use fdr_file::Version;

/// A version of logs of the Flight Data Recorder mode that is read.
#[derive(Clone, Copy)]
pub enum LogVersion {
    /// Version 2. No record names a process.
    Two,
    /// Version 3, which is that of traces.
    Three,
    /// Version 4. A custom event has a CPU, too.
    Four,
    /// Version 5, which the runtimes of LLVM 14 to 19 write. A custom event has a delta in place of a
    /// counter, and there are typed events.
    Five,
}

impl LogVersion {
    /// The version with this number, if it is read.
    pub(crate) fn of(number: u16) -> Option<LogVersion>
        ensures { result ≡ log_version_of number }
    {
        match number {
            2 => Some(LogVersion::Two),
            3 => Some(LogVersion::Three),
            4 => Some(LogVersion::Four),
            5 => Some(LogVersion::Five),
            _ => None,
        }
    }

    /// The version of traces whose blocks begin as those of this version do.
    pub(crate) fn as_trace(self) -> Version
        ensures { result ≡ trace_version self }
    {
        match self {
            LogVersion::Two => Version::Two,
            LogVersion::Three | LogVersion::Four | LogVersion::Five => Version::Three,
        }
    }
}

/// A version of basic logs.
#[derive(Clone, Copy)]
pub enum BasicVersion {
    /// Versions 1 and 2. No record names a process.
    Early,
    /// Version 3.
    Third,
}

impl BasicVersion {
    /// The version with this number, if there is one.
    pub(crate) fn of(number: u16) -> Option<BasicVersion>
        ensures { result ≡ basic_version_of number }
    {
        match number {
            1 | 2 => Some(BasicVersion::Early),
            3 => Some(BasicVersion::Third),
            _ => None,
        }
    }
}
