//! The parts of a line.

ghost use Rattle.std.specs.Prelude.{◌≡◌, ◌==◌, position, option_map};
ghost use Rattle.map_names.specs.Entries.{after_label, at_comma, before_ending, field_in};

/// What follows a label, if bytes begin with it.
#[tactic(auto, unfolding(crate::specs::Entries::after_label))]
pub(crate) fn after_label<'a>(label: &[u8], bytes: &'a [u8]) -> Option<&'a [u8]>
    ensures { option_map (λ part. part.now) result ≡ after_label label.now bytes.now }
{
    bytes.strip_prefix(label)
}

/// What stands before an ending, if bytes end with it.
#[tactic(auto, unfolding(crate::specs::Entries::before_ending))]
pub(crate) fn before_ending<'a>(ending: &[u8], bytes: &'a [u8]) -> Option<&'a [u8]>
    ensures { option_map (λ part. part.now) result ≡ before_ending ending.now bytes.now }
{
    bytes.strip_suffix(ending)
}

/// The place of the first comma, counted from 0.
fn comma_in(bytes: &[u8]) -> Option<usize>
    ensures { result ≡ position (λ b. b == 44) bytes.now }
{
    bytes.iter().position(|byte| *byte == b',')
}

/// The parts before the first comma and after it.
#[tactic(auto, unfolding(crate::specs::Entries::at_comma))]
fn at_comma(bytes: &[u8]) -> Option<(&[u8], &[u8])>
    ensures { option_map (λ parts. (parts.0.now, parts.1.now)) result ≡ at_comma bytes.now }
{
    let place = comma_in(bytes)?;
    Some((&bytes[..place], &bytes[place + 1..]))
}

/// A field with this label, if bytes begin with one: its value, which has no comma, and what follows
/// the comma after it.
#[tactic(auto, unfolding(crate::specs::Entries::field_in))]
pub(crate) fn field_in<'a>(label: &[u8], bytes: &'a [u8]) -> Option<(&'a [u8], &'a [u8])>
    ensures { option_map (λ parts. (parts.0.now, parts.1.now)) result ≡ field_in label.now bytes.now }
{
    at_comma(after_label(label, bytes)?)
}
