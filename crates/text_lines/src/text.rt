//! A text as its lines.
ghost use Rattle.std.specs.Prelude.{◌≡◌, ℕ, ◌+◌, ◌-◌, ◌^◌, ◌<◌, ◌≤◌, ◌==◌, ◌∷◌, List, length, position, count_by};
ghost use Rattle.std.specs.List.{enumerate_from};
ghost use Rattle.std.specs.Str.Lines.{lines, strip_carriage_return};

use crate::tokens::Words;
use std::iter::FusedIterator;
use std::marker::Model;

/// The byte that ends a line.
const LINE_FEED: u8 = b'\n';

/// The byte that a line drops if it is directly before the line feed.
const CARRIAGE_RETURN: u8 = b'\r';

/// The byte that begins a comment.
const COMMENT: u8 = b'#';

/// A line of a text, without what ends it.
#[derive(Clone, Copy)]
pub struct Line<'a> {
    /// The line's number in its text, counted from 1.
    pub number: u32,
    /// The line's bytes, including its comment.
    pub bytes: &'a [u8],
}

impl<'a> Line<'a> {
    ghost use Rattle.text_lines.specs.Words.{before_comment, is_clean, words_of};

    /// Whether each byte before the line's comment is a tab or one of 0x20 to 0x7E.
    pub fn is_clean(&self) -> bool
        ensures { result ≡ is_clean self.now.bytes.now }
    {
        self.before_comment()
            .iter()
            .all(|byte| matches!(*byte, b'\t' | b' '..=b'~'))
    }

    /// The words before the line's comment, first to last. In a line that isn't clean, words may
    /// hold the bytes that aren't allowed.
    pub fn words(&self) -> Words<'a>
        ensures words { result ≡ words_of self.now.bytes.now }
        ensures bound { length result ≤ length self.now.bytes.now }
    {
        Words::new(self.before_comment())
    }

    /// The part of the line before its comment.
    fn before_comment(&self) -> &'a [u8]
        ensures { result.now ≡ before_comment self.now.bytes.now }
    {
        match position_of(COMMENT, self.bytes) {
            Some(start) => &self.bytes[..start],
            None => self.bytes,
        }
    }
}

/// The lines of a text that are left to read: an iterator. In contracts it is the list of these
/// lines, each with its number.
#[derive(Drop)]
pub struct Lines<'a> {
    rest: &'a [u8],
    /// How many lines come before `rest`.
    passed: u32,
}

impl<'a> Model for Lines<'a> {
    ghost Value = { List (ℕ × List ℕ) };

    ghost view = { λ l. enumerate_from (l.passed + 1) (lines l.rest.now) };

    ghost invariant = { λ l. l.passed + length (lines l.rest.now) < 2 ^ 32 - 1 };
}

impl<'a> Lines<'a> {
    ghost use Rattle.text_lines.specs.Lines.{numbered_lines};

    /// The lines of `text`, first to last. The text has fewer than `u32::MAX` bytes, so the number
    /// of each line, and the one after the last, fits a `u32`.
    #[tactic(auto, using(crate::proofs::LineLemmas::length_of_numbered_lines, crate::proofs::LineLemmas::lines_within))]
    pub fn new(text: &'a [u8]) -> Self
        requires { length text.now < u32.MAX }
        ensures lines { result ≡ numbered_lines text.now }
        ensures bound { length result ≤ length text.now }
    {
        Lines {
            rest: text,
            passed: 0,
        }
    }

    /// The lines of `text`, first to last. There are fewer than `u32::MAX` of them. The text may
    /// have any length.
    #[tactic(auto, using(crate::proofs::LineLemmas::length_of_numbered_lines))]
    pub fn with_few_lines(text: &'a [u8]) -> Self
        requires { length (lines text.now) < u32.MAX }
        ensures lines { result ≡ numbered_lines text.now }
        ensures bound { length result ≤ length text.now }
    {
        Lines {
            rest: text,
            passed: 0,
        }
    }
}

impl<'a> Iterator for Lines<'a> {
    ghost use Rattle.std.specs.Iterator.{YieldsFirstBy, item_count};
    ghost use Rattle.text_lines.specs.Lines.{numbered};

    type Item = Line<'a>;

    ghost next_gives = { YieldsFirstBy numbered (λ rest. rest) };

    ghost remaining = { item_count (λ rest. rest) };

    fn next(&mut self) -> Option<Line<'a>> {
        if self.rest.is_empty() {
            return None;
        }
        let (bytes, rest) = split_line(self.rest);
        self.rest = rest;
        self.passed += 1;
        Some(Line {
            number: self.passed,
            bytes,
        })
    }
}

impl FusedIterator for Lines<'_> {}

/// The first line of a text that isn't empty, and the text after it.
#[tactic(auto, using(crate::proofs::LineLemmas::first_line, crate::proofs::LineLemmas::only_line))]
fn split_line(text: &[u8]) -> (&[u8], &[u8])
    requires { 0 < length text.now }
    ensures lines { lines text.now ≡ result.0.now ∷ lines result.1.now }
    ensures shorter { length result.1.now < length text.now }
{
    match position_of(LINE_FEED, text) {
        Some(end) => (without_carriage_return(&text[..end]), &text[end + 1..]),
        None => (text, &[]),
    }
}

/// A line that ended with an LF, without the CR directly before that.
fn without_carriage_return(line: &[u8]) -> &[u8]
    ensures { result.now ≡ strip_carriage_return line.now }
{
    match line {
        [front @ .., CARRIAGE_RETURN] => front,
        _ => line,
    }
}

/// The first place, counted from 0, at which `bytes` has `byte`.
fn position_of(byte: u8, bytes: &[u8]) -> Option<usize>
    ensures { result ≡ position (λ found. found == byte) bytes.now }
{
    bytes.iter().position(|found| *found == byte)
}

/// How many of `bytes` are `byte`.
fn count_of(byte: u8, bytes: &[u8]) -> usize
    ensures { result ≡ count_by (λ found. found == byte) bytes.now }
{
    bytes.iter().filter(|found| **found == byte).count()
}

/// The number of lines of `text`: one for each LF, and one more if bytes follow the last LF.
#[tactic(auto, using(crate::proofs::LineLemmas::length_of_lines))]
pub fn count_lines(text: &[u8]) -> usize
    ensures count { result ≡ length (lines text.now) }
    ensures bound { result ≤ length text.now }
{
    let ended = count_of(LINE_FEED, text);
    match text.last() {
        None | Some(&LINE_FEED) => ended,
        Some(_) => ended + 1,
    }
}
