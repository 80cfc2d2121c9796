//! The first words of lines.

ghost use Rattle.std.specs.Prelude.{◌≡◌};
ghost use Rattle.asm_text.specs.Language.{statement_keyword_of, choice_of};

use crate::statement::Choice;
use text_lines::keyword_in;

/// A word that begins a line and is no label.
#[derive(Clone, Copy)]
pub(crate) enum Keyword {
    Base,
    Entry,
    Function,
    Mov,
    Add,
    Sub,
    Push,
    Pop,
    Call,
    Jmp,
    Jnz,
    TailJump,
    Ret,
    Out,
}

/// The keywords, as texts have them.
const KEYWORDS: [(&[u8], Keyword); 14] = [
    (b"base", Keyword::Base),
    (b"entry", Keyword::Entry),
    (b"fn", Keyword::Function),
    (b"mov", Keyword::Mov),
    (b"add", Keyword::Add),
    (b"sub", Keyword::Sub),
    (b"push", Keyword::Push),
    (b"pop", Keyword::Pop),
    (b"call", Keyword::Call),
    (b"jmp", Keyword::Jmp),
    (b"jnz", Keyword::Jnz),
    (b"tailjmp", Keyword::TailJump),
    (b"ret", Keyword::Ret),
    (b"out", Keyword::Out),
];

/// The keyword that a word is, if it is one.
pub(crate) fn keyword_of(word: &[u8]) -> Option<Keyword>
    ensures { result ≡ statement_keyword_of word.now }
{
    keyword_in(&KEYWORDS, word)
}

/// The choices, as texts have them.
const CHOICES: [(&[u8], Choice); 3] = [
    (b"always", Choice::Always),
    (b"never", Choice::Never),
    (b"args", Choice::Args),
];

/// The choice that the word after a function's name makes, if it makes one.
pub(crate) fn choice_of(word: &[u8]) -> Option<Choice>
    ensures { result ≡ choice_of word.now }
{
    keyword_in(&CHOICES, word)
}
