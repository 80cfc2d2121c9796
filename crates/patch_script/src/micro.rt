//! The micro steps of the patcher.

/// One step of the patcher.
#[derive(Clone, Copy, Debug, PartialEq, Eq)]
pub enum Micro {
    /// A store of a value in a word.
    Store {
        /// The word's number.
        word: u32,
        /// The value, in the word's size.
        value: u64,
    },
    /// A wait until a thread has made this many passings or has ended.
    Await {
        /// The thread, from 1.
        thread: u32,
        /// The number of passings.
        count: u32,
    },
    /// Nothing: the script has ended.
    End,
}
