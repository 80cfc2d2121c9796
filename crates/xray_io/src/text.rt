//! Text, gathered on its way to a sink.
ghost use Rattle.std.specs.Prelude.{◌≡◌, ◌+◌, ◌<◌, ◌≤◌, ℕ, [], ⊤, length, replicate, List, OnOk};
ghost use Rattle.std.specs.Fmt.{decimal};
ghost use Rattle.xray_io.specs.Piece.{piece_text, text_of, hexadecimal, right_aligned};
ghost use Rattle.xray_io.specs.Writes.{Sends, WritesText};

use crate::digits::{MOST_DIGITS, ZERO, put_digits};
use crate::waiting::Waiting;
use crate::{Piece, Sink, WriteFault, write_all};

/// What pads a number on its left.
const SPACE: u8 = b' ';

/// The most equal bytes that one call adds.
const FILLED: usize = 16;

/// Text on its way to a sink. Up to 4,096 bytes are gathered, so that the sink gets few writes. After
/// the last part, `done` writes what still waits. If a `Text` is dropped before that, only a prefix
/// of its text was written.
///
/// Once a call has failed, parts of the text may be missing. No clause says what later calls write.
#[derive(Drop)]
pub struct Text<'a, S> {
    sink: &'a mut S,
    waiting: Waiting,
}

impl<'a, S: Sink> Text<'a, S> {
    ghost use Rattle.xray_io.specs.Text.{sink_of, loan_of, waiting, most_waiting, AddsText, Waits};

    /// An empty text for this sink.
    pub fn new(sink: &'a mut S) -> Self
        ensures sink { sink_of result ≡ sink.old }
        ensures waits { waiting result ≡ [] }
        ensures loan { loan_of result ≡ sink.entry.ghost_name }
    {
        Text {
            sink,
            waiting: Waiting::new(),
        }
    }

    /// Writes what waits.
    fn flush(&mut self) -> Result<(), WriteFault>
        ensures empty { OnOk result (waiting self.new ≡ []) }
        ensures loan { loan_of self.new ≡ loan_of self.old }
        ensures sends { Sends S.written S.faults S.along (sink_of self.old) (sink_of self.new)
            (waiting self.old) (waiting self.new) result }
    {
        write_all(self.sink, self.waiting.as_slice())?;
        self.waiting.clear();
        Ok(())
    }

    /// Writes what waits, unless there is room for this many bytes more.
    fn make_room(&mut self, len: usize) -> Result<(), WriteFault>
        ensures room { OnOk result (most_waiting < length (waiting self.new) + len →
            waiting self.new ≡ []) }
        ensures loan { loan_of self.new ≡ loan_of self.old }
        ensures fits { length (waiting self.old) + len ≤ most_waiting →
            Waits self.old self.new [] result }
        ensures sends { Sends S.written S.faults S.along (sink_of self.old) (sink_of self.new)
            (waiting self.old) (waiting self.new) result }
    {
        if len > self.waiting.room() {
            return self.flush();
        }
        Ok(())
    }

    /// Keeps the bytes if there is room for them beside those that wait. If they are too long for
    /// the array, writes them.
    fn put(&mut self, bytes: &[u8]) -> Result<(), WriteFault>
        requires room { most_waiting < length (waiting self.old) + length bytes.now →
            waiting self.old ≡ [] }
        ensures adds { AddsText S.written S.faults S.along self.old self.new bytes.now result }
        ensures few { OnOk result (length (waiting self.new) ≤ most_waiting) }
    {
        if bytes.len() > self.waiting.room() {
            return write_all(self.sink, bytes);
        }
        self.waiting.add(bytes);
        Ok(())
    }

    /// Adds these bytes. They only wait if there is room for them beside those that wait.
    pub fn bytes(&mut self, bytes: &[u8]) -> Result<(), WriteFault>
        ensures adds { AddsText S.written S.faults S.along self.old self.new bytes.now result }
        ensures few { OnOk result (length (waiting self.new) ≤ most_waiting) }
    {
        self.make_room(bytes.len())?;
        self.put(bytes)
    }

    /// Adds a number in decimal digits, without leading zeros.
    pub fn number(&mut self, n: u128) -> Result<(), WriteFault>
        ensures adds { AddsText S.written S.faults S.along self.old self.new (decimal n) result }
    {
        let mut digits = itoa::Buffer::new();
        self.bytes(digits.format(n).as_bytes())
    }

    /// Adds a byte `count` times, several at a time.
    fn fill(&mut self, byte: u8, count: usize) -> Result<(), WriteFault>
        ensures adds { AddsText S.written S.faults S.along self.old self.new (replicate count byte) result }
    {
        let filled = [byte; FILLED];
        let mut left = count;
        'filling: while left > 0 {
            let some = left.min(FILLED);
            self.bytes(&filled[..some])?;
            left -= some;
        }
        Ok(())
    }

    /// Adds a number in decimal digits, with spaces before it up to `width` places. A longer number
    /// is added whole.
    pub fn right(&mut self, n: u128, width: usize) -> Result<(), WriteFault>
        ensures adds { AddsText S.written S.faults S.along self.old self.new (right_aligned n width) result }
    {
        let mut digits = itoa::Buffer::new();
        let digits = digits.format(n).as_bytes();
        self.fill(SPACE, width.saturating_sub(digits.len()))?;
        self.bytes(digits)
    }

    /// Adds a number in lower-case hexadecimal digits, with zeros before it up to `digits` digits.
    /// A longer number is added whole.
    pub fn hex(&mut self, n: u64, digits: usize) -> Result<(), WriteFault>
        ensures adds { AddsText S.written S.faults S.along self.old self.new (hexadecimal n digits) result }
    {
        let mut buffer = [0; MOST_DIGITS];
        let start = put_digits(n, &mut buffer);
        self.fill(ZERO, digits.saturating_sub(MOST_DIGITS - start))?;
        self.bytes(&buffer[start..])
    }

    /// Adds pieces, one after the other.
    pub fn pieces(&mut self, pieces: &[Piece]) -> Result<(), WriteFault>
        ensures adds { AddsText S.written S.faults S.along self.old self.new (text_of pieces.now) result }
    {
        Each(pieces).add_to(self)
    }

    /// Writes what still waits. Then the sink has all of the text.
    pub fn done(self) -> Result<(), WriteFault>
        ensures writes { WritesText S.written S.faults S.along (sink_of self.entry)
            self.exit.0.now (waiting self.entry) result }
    {
        let Text { sink, waiting } = self;
        write_all(sink, waiting.as_slice())
    }
}

/// A value that is written as text.
pub trait Printed {
    ghost use Rattle.xray_io.specs.Text.{AddsText};

    /// Its text.
    ghost text: { Self → List ℕ };

    /// What its text needs of it.
    ghost ready: { Self → Type 0 };

    /// Adds its text to one that is on its way.
    fn add_to<S: Sink>(&self, to: &mut Text<S>) -> Result<(), WriteFault>
        requires ready { ready self.now }
        ensures adds { AddsText S.written S.faults S.along to.old to.new (text self.now) result };
}

/// Writes the text of this value. On `WriteFault` a prefix of it was written, and the sink counted a
/// fault.
pub fn write_text<T: Printed, S: Sink>(value: &T, sink: &mut S) -> Result<(), WriteFault>
    requires ready { T.ready value.now }
    ensures writes { WritesText S.written S.faults S.along sink.old sink.new (T.text value.now) result }
{
    let mut text = Text::new(sink);
    value.add_to(&mut text)?;
    text.done()
}

impl Printed for Piece<'_> {
    ghost text = { piece_text };

    ghost ready = { λ _. ⊤ };

    fn add_to<S: Sink>(&self, to: &mut Text<S>) -> Result<(), WriteFault> {
        match *self {
            Piece::Bytes(bytes) => to.bytes(bytes),
            Piece::Number(n) => to.number(n),
            Piece::Right { number, width } => to.right(number, width),
            Piece::Hex { number, digits } => to.hex(number, digits),
        }
    }
}

/// Values, one after the other.
#[derive(Clone, Copy)]
pub struct Each<'a, T>(pub &'a [T]);

impl<T: Printed> Printed for Each<'_, T> {
    ghost use Rattle.std.specs.List.{All, flat_map};

    ghost text = { λ each. flat_map T.text each.0.now };

    ghost ready = { λ each. All T.ready each.0.now };

    fn add_to<S: Sink>(&self, to: &mut Text<S>) -> Result<(), WriteFault> {
        for value in self.0 {
            value.add_to(to)?;
        }
        Ok(())
    }
}
