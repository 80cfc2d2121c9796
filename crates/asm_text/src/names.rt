//! The names of functions and labels.

ghost use Rattle.std.specs.{Prelude.{◌≡◌, option_copied}, List.{list_all}};
ghost use Rattle.xray_image.specs.Program.{is_name_byte};
ghost use Rattle.asm_text.specs.Names.{is_name, name_written, before_end};

use xray_image::format::{NAME_LIMIT, is_name_byte};

/// Whether each byte of a word may stand in a name.
fn all_may_name(word: &[u8]) -> bool
    ensures { result ≡ list_all is_name_byte word.now }
{
    word.iter().all(|&byte| is_name_byte(byte))
}

/// Whether a word is a name, which has 1 to 255 bytes and doesn't begin with a digit.
#[tactic(auto, using(crate::proofs::NameLemmas::name_by_parts))]
fn is_name(word: &[u8]) -> bool
    ensures { result ≡ is_name word.now }
{
    if word.is_empty() || word.len() > NAME_LIMIT || word[0].is_ascii_digit() {
        return false;
    }
    all_may_name(word)
}

/// The word, if it is a name.
pub(crate) fn name_of(word: &[u8]) -> Option<&[u8]>
    ensures { option_copied result ≡ name_written word.now }
{
    if is_name(word) { Some(word) } else { None }
}

/// The word without its last byte, if that is `byte`. Otherwise `None`.
pub(crate) fn before_end(byte: u8, word: &[u8]) -> Option<&[u8]>
    ensures { option_copied result ≡ before_end byte word.now }
{
    match word {
        [front @ .., last] if *last == byte => Some(front),
        _ => None,
    }
}
