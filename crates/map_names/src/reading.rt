//! Reading sled maps from their texts.

ghost use Rattle.std.specs.Prelude.{◌≡◌, ◌<◌, [], List, IfSome, length, not, position};
ghost use Rattle.map_names.specs.declared.reading.Part.TheVariants.{Head, Entries};
ghost use Rattle.text_lines.specs.Words.{is_blank};
ghost use Rattle.map_names.specs.Entries.{NamedFunction};
ghost use Rattle.map_names.specs.Maps.{Listed, Start, is_comment, map_line_rows, map_naming, said_line_rows};
ghost use Rattle.map_names.specs.MapNames.{IsReading};
ghost use Rattle.map_names.specs.private.Drafts.{IsDraftOf, Reads, Takes, before_in};

use crate::entry::read_entry;
use crate::fault::MapFault;
use crate::naming::MapNames;
use std::alloc::Global;
use text_lines::{Line, Lines, count_lines};

/// The line with which a map begins.
const BEGIN: &[u8] = b"---";

/// The line with which a map ends.
const END: &[u8] = b"...";

/// The part of a map that a line may be of.
#[derive(Clone, Copy)]
pub(crate) enum Part {
    /// The line with which it begins.
    Head,
    /// The entries, and the line with which it ends.
    Entries,
    /// None: the map has ended.
    Tail,
}

/// What was read of a map.
#[derive(Drop)]
pub(crate) struct Draft {
    pub(crate) names: MapNames,
    /// The part that comes next.
    pub(crate) part: Part,
}

/// Whether a byte is a space or a tab.
fn is_blank(byte: u8) -> bool
    ensures { result ≡ is_blank byte }
{
    byte == b' ' || byte == b'\t'
}

/// The place of the first byte of a line that is no blank, counted from 0.
fn first_word(line: &[u8]) -> Option<usize>
    ensures place { result ≡ position (λ b. not (is_blank b)) line.now }
    ensures within { IfSome result (λ place. place < length line.now) }
{
    line.iter().position(|byte| !is_blank(*byte))
}

/// Whether a line is a comment: its first byte that is no blank is `#`.
fn is_comment(line: &[u8]) -> bool
    ensures { result ≡ is_comment line.now }
{
    match first_word(line) {
        Some(place) => line[place] == b'#',
        None => false,
    }
}

impl Draft {
    /// No entry yet.
    fn new(alloc: Global) -> Draft
        ensures names { IsDraftOf [] result }
        ensures head { result.part ≡ Head }
    {
        Draft {
            names: MapNames::new(alloc),
            part: Part::Head,
        }
    }

    /// Takes the line with which a map begins, or refuses it.
    fn take_head(&mut self, line: &Line) -> Result<(), MapFault>
        requires { self.old.part ≡ Head }
        ensures { (entries : List NamedFunction) → IsDraftOf entries self.old → Takes result
            (said_line_rows Start (line.now.number, line.now.bytes.now)) self.new }
    {
        let begins = line.bytes == BEGIN;
        if !begins {
            return Err(MapFault::Syntax(line.number));
        }
        self.part = Part::Entries;
        Ok(())
    }

    /// Takes a line with an entry, or the one with which a map ends, or refuses it.
    fn take_entry(&mut self, alloc: Global, line: &Line) -> Result<(), MapFault>
        requires { self.old.part ≡ Entries }
        ensures { (entries : List NamedFunction) → IsDraftOf entries self.old → Takes result
            (said_line_rows (Listed entries) (line.now.number, line.now.bytes.now)) self.new }
    {
        let ends = line.bytes == END;
        if ends {
            self.part = Part::Tail;
            return Ok(());
        }
        let Some(entry) = read_entry(alloc, line.bytes)? else {
            return Err(MapFault::Syntax(line.number));
        };
        self.names.add(entry)?;
        Ok(())
    }

    /// Takes a line, or refuses it.
    fn take_line(&mut self, alloc: Global, line: &Line) -> Result<(), MapFault>
        ensures { (entries : List NamedFunction) → IsDraftOf entries self.old → Takes result
            (map_line_rows (before_in self.old.part entries) (line.now.number, line.now.bytes.now)) self.new }
    {
        if is_comment(line.bytes) {
            return Ok(());
        }
        match self.part {
            Part::Head => self.take_head(line),
            Part::Entries => self.take_entry(alloc, line),
            Part::Tail => Err(MapFault::Syntax(line.number)),
        }
    }
}

/// Reads the lines of a map.
fn read_lines(alloc: Global, text: &[u8]) -> Result<Draft, MapFault>
    requires { length text.now < u32.MAX }
    ensures { Reads text.now result }
{
    let mut draft = Draft::new(alloc);
    'lines: for line in Lines::new(text) {
        draft.take_line(alloc, &line)?;
    }
    Ok(draft)
}

/// The names that a sled map gives to functions. The text has fewer than `u32::MAX` bytes.
///
/// Its first line is `---`, and its last `...`. Each line between them says an entry, as `xray extract`
/// and `llvm-xray extract` print it. The first of the entries with an id and a name that isn't empty
/// gives the name of this id. Comments may stand anywhere. A comment is a line whose first byte that is
/// no blank is `#`.
///
/// A text that isn't a sled map is refused by its first line that isn't as it has to be; see
/// `MapFault`. `NoMemory` may be returned in place of any other result.
pub fn read_map(alloc: Global, text: &[u8]) -> Result<MapNames, MapFault>
    requires { length text.now < u32.MAX }
    ensures reads { IsReading (map_naming text.now) result }
{
    let draft = read_lines(alloc, text)?;
    match draft.part {
        Part::Tail => Ok(draft.names),
        Part::Head | Part::Entries => Err(MapFault::Syntax(count_lines(text) as u32 + 1)),
    }
}
