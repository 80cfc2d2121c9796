//! Words as numbers.

ghost use Rattle.std.specs.Prelude.{◌≡◌};
ghost use Rattle.asm_text.specs.Numbers.{number_written};

use text_lines::parse_digits;

/// What a hexadecimal number begins with.
const HEX_PREFIX: &[u8] = b"0x";

/// The number that a word writes: hexadecimal after `0x`, otherwise decimal. The answer is `None`
/// if the word writes no number, or one above `u64::MAX`.
pub(crate) fn number_of(word: &[u8]) -> Option<u64>
    ensures { result ≡ number_written word.now }
{
    match word.strip_prefix(HEX_PREFIX) {
        Some(digits) => parse_digits(16, digits),
        None => parse_digits(10, word),
    }
}
