//! The text of a script without its waits.

ghost use Rattle.std.specs.Prelude.{◌≡◌, ◌<◌, ◌≤◌, ◌==◌, ◌∷◌, length, position};
ghost use Rattle.xray_io.specs.Text.{AddsText};
ghost use Rattle.text_lines.specs.Words.{words_of};
ghost use Rattle.run_order.specs.FreeScripts.{begins_wait, line_in, lines_with_ends};
ghost use Rattle.run_order.specs.private.Texts.{kept_text};

use text_lines::{Lines, Words, keyword_in};
use xray_io::{Printed, Sink, Text, WriteFault};

/// The byte that ends a line.
const LINE_FEED: u8 = b'\n';

/// The first words of lines at which a thread or the patcher may wait.
const WAITS: [(&[u8], bool); 3] = [(b"hold", true), (b"release", true), (b"await", true)];

/// The text of a script without its lines of `hold`, `release` and `await`. All other lines stay byte
/// for byte. The text of the script has fewer than `u32::MAX` bytes.
#[derive(Clone, Copy)]
pub struct FreeText<'a>(pub &'a [u8]);

impl Printed for FreeText<'_> {
    ghost use Rattle.std.specs.Prelude.{◌<◌, length};
    ghost use Rattle.run_order.specs.FreeScripts.{free_text};

    ghost text = { λ free. free_text free.0.now };

    ghost ready = { λ free. length free.0.now < 4294967295 };

    fn add_to<S: Sink>(&self, to: &mut Text<S>) -> Result<(), WriteFault> {
        let mut left = self.0;
        'lines: while !left.is_empty() {
            let (line, later) = split_line(left);
            add_kept(to, line)?;
            left = later;
        }
        Ok(())
    }
}

/// The first line of a text that isn't empty, with what ends it, and the text after it.
fn split_line(text: &[u8]) -> (&[u8], &[u8])
    requires { 0 < length text.now }
    ensures lines { lines_with_ends text.now ≡ result.0.now ∷ lines_with_ends result.1.now }
    ensures shorter { length result.1.now < length text.now }
    ensures within { length result.0.now ≤ length text.now }
{
    match first_end(text) {
        Some(end) => text.split_at(end + 1),
        None => (text, &[]),
    }
}

/// The place of the first line feed.
fn first_end(text: &[u8]) -> Option<usize>
    ensures { result ≡ position (λ byte. byte == 10) text.now }
{
    text.iter().position(|byte| *byte == LINE_FEED)
}

/// Adds a line with what ends it, unless a thread or the patcher may wait at it.
fn add_kept<S: Sink>(to: &mut Text<S>, line: &[u8]) -> Result<(), WriteFault>
    requires { length line.now < u32.MAX }
    ensures { AddsText S.written S.faults S.along to.old to.new (kept_text line.now) result }
{
    if is_wait(line) {
        return Ok(());
    }
    to.bytes(line)
}

/// Whether a thread or the patcher may wait at a line.
fn is_wait(line: &[u8]) -> bool
    requires { length line.now < u32.MAX }
    ensures { result ≡ begins_wait (words_of (line_in line.now)) }
{
    match Lines::new(line).next() {
        Some(line) => begins_wait(line.words()),
        None => false,
    }
}

/// Whether the first of these words is one of a wait.
fn begins_wait(mut words: Words) -> bool
    ensures { result ≡ begins_wait words.entry }
{
    match words.next() {
        Some(word) => keyword_in(&WAITS, word).is_some(),
        None => false,
    }
}
