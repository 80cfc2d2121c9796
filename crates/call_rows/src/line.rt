//! A short text that is put together from its end to its start.

ghost use Rattle.std.specs.Prelude.{◌≡◌, ◌+◌, ◌≤◌, [], ◌++◌, length, decimal};
ghost use Rattle.std.specs.List.{flat_map};
ghost use Rattle.account_report.specs.AccountText.{column_text};
ghost use Rattle.account_report.specs.declared.text.AccountLayout.TheVariants.{Csv};
ghost use Rattle.call_rows.specs.CallText.{call_words, number_if_any};

use crate::row::CallRow;
use itoa::write_digits;
use std::marker::Model;

/// The most bytes of a line.
const ROOM: usize = 256;

/// The most digits of a number of 64 bits.
const MOST_DIGITS: usize = 20;

/// The most bytes of a number with a comma behind it.
const MOST_OF_COLUMN: usize = 21;

/// A short text. Each part that is put into it goes before those that it has.
#[derive(Drop)]
pub(crate) struct Line {
    bytes: [u8; ROOM],
    start: usize,
}

impl Model for Line {
    ghost use Rattle.std.specs.Prelude.{◌≤◌, ℕ, List, drop};
    ghost use Rattle.call_rows.specs.declared.line.TheConstants.{ROOM};

    ghost Value = { List ℕ };

    ghost view = { λ line. drop line.start line.bytes };

    ghost invariant = { λ line. line.start ≤ ROOM };
}

impl Line {
    /// The columns of a row of csv, each with a comma behind it.
    pub(crate) fn of_columns(row: &CallRow) -> Line
        ensures { result ≡ flat_map (column_text Csv) (call_words Csv row.now) }
    {
        let mut line = Line::new();
        line.put_column(u64::from(row.func));
        line.put_if_any(row.arg);
        line.put_column(row.depth);
        line.put_column(row.own);
        line.put_column(row.duration);
        line.put_column(row.start);
        line.put_column(u64::from(row.cpu));
        line.put_column(u64::from(row.process));
        line.put_column(u64::from(row.thread));
        line.put_if_any(row.parent);
        line.put_column(row.call);
        line
    }

    /// No bytes.
    #[inline]
    fn new() -> Line
        ensures { result ≡ [] }
    {
        Line {
            bytes: [0; ROOM],
            start: ROOM,
        }
    }

    /// The text.
    #[inline]
    pub(crate) fn as_slice(&self) -> &[u8]
        ensures { result.now ≡ self.now }
    {
        &self.bytes[self.start..]
    }

    /// Puts bytes before the text.
    #[inline(always)]
    fn put(&mut self, part: &[u8])
        requires { length part.now + length self.old ≤ ROOM }
        ensures { self.new ≡ part.now ++ self.old }
    {
        let end = self.start;
        let start = end - part.len();
        self.bytes[start..end].copy_from_slice(part);
        self.start = start;
    }

    /// Puts a number before the text, in decimal digits without leading zeros.
    #[inline(always)]
    fn put_number(&mut self, n: u64)
        requires { MOST_DIGITS + length self.old ≤ ROOM }
        ensures text { self.new ≡ decimal n ++ self.old }
        ensures short { length self.new ≤ MOST_DIGITS + length self.old }
    {
        let start = write_digits(n, &mut self.bytes, self.start);
        self.start = start;
    }

    /// Puts a number and a comma before the text.
    #[inline(always)]
    fn put_column(&mut self, n: u64)
        requires { MOST_OF_COLUMN + length self.old ≤ ROOM }
        ensures text { self.new ≡ column_text Csv (decimal n) ++ self.old }
        ensures short { length self.new ≤ MOST_OF_COLUMN + length self.old }
    {
        self.put(b",");
        self.put_number(n);
    }

    /// Puts a number, if there is one, and a comma before the text.
    #[inline(always)]
    fn put_if_any(&mut self, n: Option<u64>)
        requires { MOST_OF_COLUMN + length self.old ≤ ROOM }
        ensures text { self.new ≡ column_text Csv (number_if_any Csv n) ++ self.old }
        ensures short { length self.new ≤ MOST_OF_COLUMN + length self.old }
    {
        match n {
            Some(n) => self.put_column(n),
            None => self.put(b","),
        }
    }
}
