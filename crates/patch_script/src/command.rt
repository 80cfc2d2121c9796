//! The commands of scripts.

/// A command of a patch script. Each line has one. Function ids and threads count from 1, passings
/// from 0.
#[derive(Clone, Copy)]
pub enum PatchCommand {
    /// `patch`: patches every sled.
    Patch,
    /// `unpatch`: unpatches every sled.
    Unpatch,
    /// `patch_function N`: patches the sleds of one function.
    PatchFunction {
        /// The function's id.
        id: u32,
    },
    /// `unpatch_function N`: unpatches the sleds of one function.
    UnpatchFunction {
        /// The function's id.
        id: u32,
    },
    /// `set_handler`: installs the handler.
    SetHandler,
    /// `remove_handler`: removes the handler.
    RemoveHandler,
    /// `set_arg_handler`: installs the argument handler, which entry sleds with argument logging call
    /// in place of the handler.
    SetArgHandler,
    /// `remove_arg_handler`: removes the argument handler.
    RemoveArgHandler,
    /// `init`: initializes the log.
    Init,
    /// `finalize`: finalizes the log.
    Finalize,
    /// `hold T N`: the thread waits before a passing until it is released.
    Hold {
        /// The thread that waits.
        thread: u32,
        /// The passing that it waits before.
        passing: u32,
    },
    /// `go`: the threads start here.
    Go,
    /// `release T`: lets a held thread go on.
    Release {
        /// The thread.
        thread: u32,
    },
    /// `await T N`: waits until a thread has made this many passings or has ended.
    Await {
        /// The thread.
        thread: u32,
        /// The number of passings.
        count: u32,
    },
}
