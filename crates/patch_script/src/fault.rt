//! Why a text isn't a script.

use thiserror::Error;

/// Why `read_script` gives no script. Each refusal has the number of its line, counted from 1. The
/// answer is the refusal of the first line that is refused. If several apply to that line, the
/// first in this order is the answer.
#[derive(Clone, Copy, Debug, PartialEq, Eq, Error)]
pub enum ScriptFault {
    /// The line is the 1,025th that has words.
    #[error("line {0} is one command too many")]
    Limit(u32),
    /// The line is no command. Either it has a byte outside its comment that no text may have, or
    /// its first word isn't a command's, or the words after that are too few, too many or not
    /// numbers.
    #[error("line {0} is no command")]
    Syntax(u32),
    /// No function of the image has the id that the line names.
    #[error("line {0} names no function")]
    Function(u32),
    /// There is no thread of the number that the line names.
    #[error("line {0} names no thread")]
    Thread(u32),
    /// The line is a second `go`, a `hold` after `go`, or a `release` or `await` before it. If the
    /// script has no `go`, the number is the one after the last line.
    #[error("line {0} stands on the wrong side of go, or go is missing")]
    Go(u32),
    /// The line holds a thread that is held already, or releases one that isn't held or was
    /// released before. If a held thread is never released, the number is the one after the last
    /// line.
    #[error("line {0} holds or releases a thread out of order, or a release is missing")]
    Hold(u32),
    /// The line is an `init` of a log that was initialized before, or a `finalize` of one that isn't initialized.
    #[error("line {0} can't follow in the log's state")]
    Log(u32),
    /// The line awaits more passings of a held thread than it can make before it is released. The
    /// script would wait forever.
    #[error("line {0} waits for a thread that waits for a later line")]
    SelfWait(u32),
    /// Memory for the script was refused.
    #[error("out of memory")]
    NoMemory,
}
