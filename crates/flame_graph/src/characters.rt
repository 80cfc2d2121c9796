//! The characters of names.

ghost use Rattle.std.specs.Prelude.{◌≡◌, ◌<◌, ◌≤◌, [], ◌∷◌, MatchOption, length, nat_le};
ghost use Rattle.flame_graph.specs.Characters.{begins_with, characters, first_size, is_text};
ghost use Rattle.flame_graph.specs.private.Left.{characters_left};

use std::str::from_utf8;

/// The characters of a name that are still to come: those of the UTF-8 in it, and each other byte by
/// itself.
#[derive(Drop)]
pub(crate) struct Characters<'a> {
    rest: &'a [u8],
}

impl<'a> Characters<'a> {
    /// All characters of a name.
    pub(crate) fn new(name: &'a [u8]) -> Characters<'a>
        ensures { characters_left result ≡ characters name.now }
    {
        Characters { rest: name }
    }

    /// The next character, as its bytes. `None` after the last one.
    pub(crate) fn next(&mut self) -> Option<&'a [u8]>
        ensures { MatchOption result (characters_left self.old ≡ [])
            (λ character. characters_left self.old ≡ character.now ∷ characters_left self.new) }
    {
        if self.rest.is_empty() {
            return None;
        }
        let (character, rest) = self.rest.split_at(first_size(self.rest));
        self.rest = rest;
        Some(character)
    }
}

/// How many bytes the first character of these bytes has.
fn first_size(bytes: &[u8]) -> usize
    requires { 0 < length bytes.now }
    ensures size { result ≡ first_size bytes.now }
    ensures some { 0 < result }
    ensures within { result ≤ length bytes.now }
{
    if begins_with(bytes, 1) {
        1
    } else if begins_with(bytes, 2) {
        2
    } else if begins_with(bytes, 3) {
        3
    } else if begins_with(bytes, 4) {
        4
    } else {
        1
    }
}

/// Whether there are this many bytes, and they are UTF-8.
fn begins_with(bytes: &[u8], size: usize) -> bool
    ensures { result ≡ begins_with size bytes.now }
{
    size <= bytes.len() && is_text(&bytes[..size])
}

/// Whether bytes are UTF-8.
fn is_text(bytes: &[u8]) -> bool
    ensures { result ≡ is_text bytes.now }
{
    match from_utf8(bytes) {
        Ok(_) => true,
        Err(_) => false,
    }
}

/// Whether a name has at most this many characters.
pub(crate) fn fits(room: usize, name: &[u8]) -> bool
    ensures { result ≡ nat_le (length (characters name.now)) room }
{
    let mut characters = Characters::new(name);
    'counting: for _ in 0..room {
        if characters.next().is_none() {
            return true;
        }
    }
    characters.next().is_none()
}
