//! The words after a keyword.

ghost use Rattle.text_lines.specs.Operands.{AreOperands};

use crate::tokens::Words;

/// The words after a keyword.
#[derive(Clone, Copy)]
pub enum Operands<'a> {
    /// No word.
    Zero,
    /// One word.
    One(&'a [u8]),
    /// Two words, the first one first.
    Two(&'a [u8], &'a [u8]),
    /// Three words or more.
    Many,
}

/// Takes the words that are left.
pub fn read_operands<'a>(mut words: Words<'a>) -> Operands<'a>
    ensures { AreOperands words.entry result }
{
    let Some(first) = words.next() else {
        return Operands::Zero;
    };
    let Some(second) = words.next() else {
        return Operands::One(first);
    };
    match words.next() {
        None => Operands::Two(first, second),
        Some(_) => Operands::Many,
    }
}
