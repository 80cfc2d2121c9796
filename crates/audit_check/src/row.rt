//! The parts of a row. Each is taken from the bytes that are left of it, and given with the bytes after it.

ghost use Rattle.std.specs.Prelude.{◌≡◌, ◌≤◌, decimal, length, not, position};
ghost use Rattle.std.specs.Char.{is_ascii_digit};
ghost use Rattle.std.specs.Str.{bytes_eq};
ghost use Rattle.audit_check.specs.private.Taking.{Gives, after, byte_in, digit_count, end_in, field_in, guessed_end, mark_in, mark_named, number_in, printed, run_in, short_in, stack_end};

use handler_word::Mark;
use itoa::Buffer;
use machine_step::{End, end_name};
use text_lines::parse_digits;

/// The place in the names of `stack-full` and `stack-empty` at which they differ, and the byte of the
/// first there.
const STACK_DIFFERS: usize = 6;

const FULL: u8 = b'f';

/// The bytes that end a row.
pub(crate) const ROW_END: &[u8] = b"\n";

/// What is left of a row after a word, if the row goes on with it.
pub(crate) fn after<'a>(row: &'a [u8], word: &[u8]) -> Option<&'a [u8]>
    ensures { Gives (λ rest. rest.now) result (after word.now row.now) }
{
    row.strip_prefix(word)
}

/// Takes a number as it is printed, without leading zeros, if the row goes on with one of 64 bits.
#[tactic(auto, unfolding(crate::specs::private::Taking::number_in))]
fn take_number(row: &[u8]) -> Option<(u64, &[u8])>
    ensures { Gives (λ x. (x.0, x.1.now)) result (number_in row.now) }
{
    let (word, rest) = row.split_at(digit_count(row));
    let number = printed_number(word)?;
    Some((number, rest))
}

/// Takes a name, and a number of 64 bits after it.
#[tactic(auto, unfolding(crate::specs::private::Taking::field_in))]
pub(crate) fn take_field<'a>(row: &'a [u8], name: &[u8]) -> Option<(u64, &'a [u8])>
    ensures { Gives (λ x. (x.0, x.1.now)) result (field_in name.now row.now) }
{
    let rest = after(row, name)?;
    take_number(rest)
}

/// Takes a name, and a number of 32 bits after it.
#[tactic(auto, unfolding(crate::specs::private::Taking::short_in))]
pub(crate) fn take_short<'a>(row: &'a [u8], name: &[u8]) -> Option<(u32, &'a [u8])>
    ensures { Gives (λ x. (x.0, x.1.now)) result (short_in name.now row.now) }
{
    let (number, rest) = take_field(row, name)?;
    let short = u32::try_from(number).ok()?;
    Some((short, rest))
}

/// Takes the name of an end.
#[tactic(auto, unfolding(crate::specs::private::Taking::end_in))]
pub(crate) fn take_end(row: &[u8]) -> Option<(End, &[u8])>
    ensures { Gives (λ x. (x.0, x.1.now)) result (end_in row.now) }
{
    let end = guessed_end(row)?;
    let rest = after(row, end_name(end))?;
    Some((end, rest))
}

/// Takes a byte.
fn take_byte(row: &[u8]) -> Option<(u8, &[u8])>
    ensures { Gives (λ x. (x.0, x.1.now)) result (byte_in row.now) }
{
    match row {
        [] => None,
        [byte, rest @ ..] => Some((*byte, rest)),
    }
}

/// The end whose name the row may go on with, by the bytes at which the names differ.
fn guessed_end(row: &[u8]) -> Option<End>
    ensures { result ≡ guessed_end row.now }
{
    let (first, _) = take_byte(row)?;
    match first {
        b'r' => Some(End::Returned),
        b'f' => Some(End::Fuel),
        b'p' => Some(End::Passings),
        b'o' => Some(End::OutputFull),
        b's' => Some(stack_end(row)),
        b'b' => Some(End::BadTarget),
        _ => None,
    }
}

/// Which of the ends of a stack the row may go on with.
fn stack_end(row: &[u8]) -> End
    ensures { result ≡ stack_end row.now }
{
    if row.len() > STACK_DIFFERS && row[STACK_DIFFERS] == FULL {
        End::StackFull
    } else {
        End::StackEmpty
    }
}

/// Takes a run of marks: the character of the mark, and how many they are.
#[tactic(auto, unfolding(crate::specs::private::Taking::run_in))]
pub(crate) fn take_run(row: &[u8]) -> Option<(Mark, u32, &[u8])>
    ensures { Gives (λ x. ((x.0, x.1), x.2.now)) result (run_in row.now) }
{
    let (mark, row) = take_mark(row)?;
    let (count, rest) = take_short(row, b"")?;
    Some((mark, count, rest))
}

/// Takes the character of a mark.
#[tactic(auto, unfolding(crate::specs::private::Taking::mark_in))]
fn take_mark(row: &[u8]) -> Option<(Mark, &[u8])>
    ensures { Gives (λ x. (x.0, x.1.now)) result (mark_in row.now) }
{
    let (byte, rest) = take_byte(row)?;
    let mark = mark_named(byte)?;
    Some((mark, rest))
}

/// The mark of a character.
fn mark_named(byte: u8) -> Option<Mark>
    ensures { result ≡ mark_named byte }
{
    match byte {
        b'.' => Some(Mark::Skipped),
        b'n' => Some(Mark::NoHandler),
        b'f' => Some(Mark::NotLogging),
        b'+' => Some(Mark::Recorded),
        b'a' => Some(Mark::RecordedArg),
        _ => None,
    }
}

/// How many digits a row begins with.
#[tactic(auto, using(crate::proofs::Digits::count_within))]
fn digit_count(row: &[u8]) -> usize
    ensures count { result ≡ digit_count row.now }
    ensures within { result ≤ length row.now }
{
    match first_other(row) {
        Some(end) => end,
        None => row.len(),
    }
}

/// The place of the first byte that is no digit.
fn first_other(row: &[u8]) -> Option<usize>
    ensures { result ≡ position (λ byte. not (is_ascii_digit byte)) row.now }
{
    row.iter().position(|byte| !byte.is_ascii_digit())
}

/// The number that a word prints, if it prints one of 64 bits.
#[tactic(auto, unfolding(crate::specs::private::Taking::printed))]
fn printed_number(word: &[u8]) -> Option<u64>
    ensures { result ≡ printed word.now }
{
    let number = parse_digits(10, word)?;
    if prints(word, number) {
        Some(number)
    } else {
        None
    }
}

/// Whether a word is what a number is printed as.
fn prints(word: &[u8], number: u64) -> bool
    ensures { result ≡ bytes_eq (decimal number) word.now }
{
    let mut digits = Buffer::new();
    digits.format(number).as_bytes() == word
}
