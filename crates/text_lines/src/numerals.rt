//! Words as numbers.
ghost use Rattle.std.specs.Prelude.{◌≡◌, ◌≤◌};
ghost use Rattle.text_lines.specs.Numbers.{numeral, number_of};

/// The number that `word` writes in digits of a radix from 2 to 36. Leading zeros are allowed.
/// Letters of either case are the digits above nine. The answer is `None` if the word is empty, if
/// a byte isn't a digit (a sign, for example), or if the number is above `u64::MAX`.
#[tactic(auto, using(crate::proofs::NumberLemmas::numeral_from_zero, crate::proofs::NumberLemmas::numeral_step))]
pub fn parse_digits(radix: u32, word: &[u8]) -> Option<u64>
    requires two { 2 ≤ radix }
    requires most { radix ≤ 36 }
    ensures { result ≡ numeral radix word.now }
{
    if word.is_empty() {
        return None;
    }
    let mut number = 0u64;
    for byte in word {
        let digit = (*byte as char).to_digit(radix)?;
        number = number
            .checked_mul(u64::from(radix))?
            .checked_add(u64::from(digit))?;
    }
    Some(number)
}

/// The number that `word` writes in decimal digits. Leading zeros are allowed. The answer is `None`
/// if the word is empty, if a byte isn't a digit (a sign, for example), or if the number is above
/// `u32::MAX`.
#[tactic(auto, using(crate::proofs::NumberLemmas::number_none, crate::proofs::NumberLemmas::number_some, crate::proofs::NumberLemmas::number_large))]
pub fn parse_number(word: &[u8]) -> Option<u32>
    ensures { result ≡ number_of word.now }
{
    u32::try_from(parse_digits(10, word)?).ok()
}
