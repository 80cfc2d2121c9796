//! What each seat knows, for contracts only: no value of these types is made.

use patch_script::Script;

/// A load that a thread has made.
pub struct Load {
    /// The seat's count at the load: how many passings the thread had made.
    pub count: u64,
    /// The number of the word.
    pub word: u64,
    /// The value that was found.
    pub value: u64,
    /// The place of the script for the value: the first one at which the word has it, from what the
    /// seat had seen on.
    pub place: u64,
}

/// A thread that was met, and what its seat had seen.
pub struct Met {
    /// The thread's number, from 1.
    pub thread: u64,
    /// The place of the script that its seat had seen.
    pub seen: u64,
}

/// What the patcher's seat knows.
pub struct PatchView {
    /// The script of the table.
    pub script: Script,
    /// How many micro steps were made.
    pub place: u64,
    /// How many threads were given seats.
    pub given: u64,
    /// The threads that were met, the last one first. In clauses this is a list of any length.
    pub met: [Met; 0],
    /// For each thread, at its number, a count that it has reached or passed.
    pub known: [u64; 0],
}

/// What a thread's seat knows.
pub struct WorkView {
    /// The script of the table.
    pub script: Script,
    /// The thread's number, from 1.
    pub thread: u64,
    /// A place of the script that the patcher has come to. No load of the seat finds anything
    /// older.
    pub seen: u64,
    /// How many passings the thread has made, or 2^64 - 1 if it has ended.
    pub count: u64,
    /// The loads of the seat in order.
    pub loads: [Load; 0],
}

/// What a note says: a place that the patcher had come to.
pub struct NoteView {
    /// The script of the table.
    pub script: Script,
    /// How many micro steps had been made.
    pub told: u64,
}

/// What a tally says: a count that a thread had reached.
pub struct TallyView {
    /// The script of the table.
    pub script: Script,
    /// The thread's number, from 1.
    pub thread: u64,
    /// How many passings the thread had made, or 2^64 - 1 if it had ended.
    pub count: u64,
}

/// What a seat of the table knows.
pub enum View {
    /// The patcher's.
    Patch(PatchView),
    /// A thread's.
    Work(WorkView),
    /// A note's.
    Note(NoteView),
    /// A tally's.
    Tally(TallyView),
    /// That of a seat, note or tally that was handed back.
    Spent,
}
