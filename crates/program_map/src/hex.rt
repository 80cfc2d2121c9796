//! Upper-case hexadecimal digits.
ghost use Rattle.std.specs.Prelude.{◌≡◌, ◌+◌, ◌<◌, true, length, drop};
ghost use Rattle.std.specs.Fmt.{digit_glyph, digits};

/// The most hexadecimal digits that a number of 64 bits has.
pub(crate) const MOST_DIGITS: usize = 16;

/// Writes the upper-case hexadecimal digits of a number at the end of the buffer, and returns the
/// place where they begin.
pub(crate) fn put_digits(n: u64, buffer: &mut [u8; MOST_DIGITS]) -> usize
    ensures start { result + length (digits 16 true n) ≡ 16 }
    ensures digits { drop result buffer.new ≡ digits 16 true n }
{
    let mut start = MOST_DIGITS;
    let mut rest = n;
    'more: loop {
        start -= 1;
        buffer[start] = digit(rest % 16);
        rest /= 16;
        if rest == 0 {
            return start;
        }
    }
}

/// The digit of a value below 16.
fn digit(value: u64) -> u8
    requires { value < 16 }
    ensures { result ≡ digit_glyph true value }
{
    if value < 10 {
        b'0' + value as u8
    } else {
        b'A' + (value - 10) as u8
    }
}
