//! A line: the words after a command, cut into the names of its files and the values of its options.
ghost use Rattle.std.specs.Prelude.{◌≡◌, ◌<◌, ◌≤◌, IfSome, length, option_copied, true};
ghost use Rattle.std.specs.{List.{position_from}, Str.{bytes_eq}};
ghost use Rattle.command_words.specs.Lines.{number_given, number_if_given, value_in};
ghost use Rattle.command_words.specs.Numbers.{has_number, number_among, number_meant, number_within};
ghost use Rattle.command_words.specs.Reports.{choice_in};
ghost use Rattle.command_words.specs.private.Allowed.{IsAmongValues};
ghost use Rattle.command_words.specs.private.Allowed.{has_default_in_range};
ghost use Rattle.command_words.specs.private.CodeViews.{line_view, option_view, values_view};

use crate::rows::{OptionRow, Values};

/// What the words after a command say, by the command's row.
#[derive(Drop)]
pub(crate) struct Line<'a> {
    /// The names of the files, in order.
    pub(crate) files: Vec<&'a str>,
    /// The options that are given, in the order of the row. Each name has its value.
    pub(crate) given: Vec<(&'a str, &'a str)>,
}

impl<'a> Line<'a> {
    /// The value that the line gives this option.
    pub(crate) fn value(&self, name: &str) -> Option<&'a str>
        ensures { option_copied result ≡ value_in name.now (line_view self.now) }
    {
        for given in &self.given {
            if given.0 == name {
                return Some(given.1);
            }
        }
        None
    }
}

impl OptionRow {
    /// The number that a line gives the option, or its default. `None` if the line gives it a value
    /// that isn't allowed, or if the line gives it no value and it has no default.
    pub(crate) fn number_given(&self, line: &Line<'_>) -> Option<u64>
        requires { has_default_in_range (option_view self.now) ≡ true }
        ensures number { result ≡ number_given (option_view self.now) (line_view line.now) }
        ensures within { IfSome result (IsAmongValues (values_view self.now.values)) }
    {
        match line.value(self.name) {
            Some(value) => self.values.number_meant(value),
            None => self.default,
        }
    }

    /// The number that a line gives an option that may go without one. `None` if the line gives it a
    /// value that isn't allowed.
    pub(crate) fn number_if_given(&self, line: &Line<'_>) -> Option<Option<u64>>
        ensures number { result ≡ number_if_given (option_view self.now) (line_view line.now) }
        ensures within { IfSome result (λ given. IfSome given (IsAmongValues (values_view self.now.values))) }
    {
        match line.value(self.name) {
            Some(value) => Some(Some(self.values.number_meant(value)?)),
            None => Some(None),
        }
    }

    /// The choice at the place of the word that a line gives the option, or of its default. `None` if
    /// the word isn't listed.
    pub(crate) fn choice<T: Copy>(&self, choices: &[T], line: &Line<'_>) -> Option<T>
        requires { has_default_in_range (option_view self.now) ≡ true }
        ensures { result ≡ choice_in (option_view self.now) choices.now (line_view line.now) }
    {
        let place = self.number_given(line)?;
        choices.get(place as usize).copied()
    }
}

impl Values {
    /// The number that a value stands for. `None` if the value isn't allowed.
    #[tactic(auto, using(crate::proofs::ClapMatches::position_of_texts))]
    pub(crate) fn number_meant(&self, value: &str) -> Option<u64>
        ensures number { result ≡ number_meant (values_view self.now) value.now }
        ensures within { IfSome result (IsAmongValues (values_view self.now)) }
    {
        match self {
            Values::Number { least, most } => number_within(*least, *most, value),
            Values::OneOf(numbers) => number_among(numbers, value),
            Values::Listed(words) => place_of(value, words),
            Values::FileName => None,
        }
    }
}

/// The number that a word writes in decimal, if it is in the range. Leading zeros are allowed, and
/// one plus before them.
fn number_within(least: u64, most: u64, word: &str) -> Option<u64>
    ensures number { result ≡ number_within least most word.now }
    ensures within { IfSome result (λ number. (least ≤ number) × (number ≤ most)) }
{
    match word.parse::<u64>() {
        Ok(number) if least <= number && number <= most => Some(number),
        _ => None,
    }
}

/// The number that a word writes in decimal, if it is one of these numbers.
fn number_among(numbers: &[u64], word: &str) -> Option<u64>
    ensures number { result ≡ number_among numbers.now word.now }
    ensures among { IfSome result (λ number. has_number numbers.now number ≡ true) }
{
    let number = number_within(0, u64::MAX, word)?;
    if numbers.contains(&number) {
        Some(number)
    } else {
        None
    }
}

/// The place of a word among words, from 0.
fn place_of(word: &str, words: &[&str]) -> Option<u64>
    ensures place { result ≡ position_from (λ one. bytes_eq word.now one.now) 0 words.now }
    ensures within { IfSome result (λ place. place < length words.now) }
{
    for (place, one) in words.iter().enumerate() {
        if word == *one {
            return Some(place as u64);
        }
    }
    None
}
