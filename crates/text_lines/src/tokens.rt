//! A line as its words.
ghost use Rattle.std.specs.Prelude.{◌≡◌, ℕ, ◌<◌, ◌≤◌, not, [], ◌∷◌, List, length, position, IfNone, IfSome};
ghost use Rattle.std.specs.Iterator.{YieldsFirstRef, item_count};
ghost use Rattle.text_lines.specs.Words.{is_blank, words_between_blanks};

use std::iter::FusedIterator;
use std::marker::Model;

/// The words of a line that are left to read: an iterator. In contracts it is the list of these
/// words.
#[derive(Drop)]
pub struct Words<'a> {
    rest: &'a [u8],
}

impl<'a> Model for Words<'a> {
    ghost Value = { List (List ℕ) };

    ghost view = { λ w. words_between_blanks w.rest.now };
}

impl<'a> Words<'a> {
    /// The words of `bytes`, a line's part before its comment.
    #[tactic(auto, using(crate::proofs::WordLemmas::length_of_words))]
    pub(crate) fn new(bytes: &'a [u8]) -> Self
        ensures words { result ≡ words_between_blanks bytes.now }
        ensures bound { length result ≤ length bytes.now }
    {
        Words { rest: bytes }
    }
}

impl<'a> Iterator for Words<'a> {
    type Item = &'a [u8];

    ghost next_gives = { YieldsFirstRef (λ rest. rest) };

    ghost remaining = { item_count (λ rest. rest) };

    fn next(&mut self) -> Option<&'a [u8]> {
        let (word, rest) = split_word(self.rest)?;
        self.rest = rest;
        Some(word)
    }
}

impl FusedIterator for Words<'_> {}

/// Whether a byte separates words.
fn is_blank(byte: u8) -> bool
    ensures { result ≡ is_blank byte }
{
    matches!(byte, b' ' | b'\t')
}

/// The place of the first byte that isn't a blank, counted from 0.
fn first_in_word(bytes: &[u8]) -> Option<usize>
    ensures { result ≡ position (λ byte. not (is_blank byte)) bytes.now }
{
    bytes.iter().position(|byte| !is_blank(*byte))
}

/// The place of the first blank, counted from 0.
fn first_blank(bytes: &[u8]) -> Option<usize>
    ensures { result ≡ position is_blank bytes.now }
{
    bytes.iter().position(|byte| is_blank(*byte))
}

/// The first word of `bytes` and what follows it, or `None` if all bytes are blanks.
#[tactic(auto, using(crate::proofs::WordLemmas::words_none, crate::proofs::WordLemmas::words_some))]
fn split_word(bytes: &[u8]) -> Option<(&[u8], &[u8])>
    ensures none { IfNone result (words_between_blanks bytes.now ≡ []) }
    ensures some { IfSome result (λ parts. words_between_blanks bytes.now
        ≡ parts.0.now ∷ words_between_blanks parts.1.now) }
{
    let (_, bytes) = bytes.split_at(first_in_word(bytes)?);
    let end = first_blank(bytes).unwrap_or(bytes.len());
    Some(bytes.split_at(end))
}
