//! Whether a recorder still takes events.

/// Whether a recorder still takes events. Once its state isn't `Live`, it stays the same.
#[derive(Clone, Copy)]
pub enum TrieState {
    /// It has taken all events so far.
    Live,
    /// An entry opened a path for which there was no node.
    Full,
    /// An entry made more than 4,096 calls open at once.
    Deep,
}
