//! The rows of the tables: an option, a place of a command line, and a command.
ghost use Rattle.std.specs.Prelude.{◌≡◌};
ghost use Rattle.command_words.specs.Rows.{is_optional, is_output};
ghost use Rattle.command_words.specs.private.CodeViews.{file_view};

use crate::tables::Verb;

/// What the value of an option may be.
#[derive(Clone, Copy)]
pub(crate) enum Values {
    /// A number in decimal.
    Number {
        /// The least value.
        least: u64,
        /// The greatest value.
        most: u64,
    },
    /// One of these numbers, in decimal.
    OneOf(&'static [u64]),
    /// One of these words. It stands for its place among them, counted from 0.
    Listed(&'static [&'static str]),
    /// Any word: the name of a file, which is read.
    FileName,
}

/// An option, which takes one value.
#[derive(Clone, Copy)]
pub(crate) struct OptionRow {
    /// Its name, without the two dashes.
    pub(crate) name: &'static str,
    /// What its value may be.
    pub(crate) values: Values,
    /// The number that is used if the option isn't given. `None` if the table has no such number.
    pub(crate) default: Option<u64>,
}

/// A place of a command line: its name, and what stands in it.
#[derive(Clone, Copy)]
pub(crate) enum FileRow {
    /// The name of a file that is read.
    Read(&'static str),
    /// The name of a file that is read. The file may be absent.
    MaybeRead(&'static str),
    /// The name of a file that is written. No other file of the command may have its name.
    Written(&'static str),
    /// A number, and no file.
    Numeral(&'static str, Values),
}

impl FileRow {
    /// The name of the place.
    pub(crate) fn label(&self) -> &'static str
        ensures { result.now ≡ (file_view self.now).label }
    {
        match self {
            FileRow::Read(label)
            | FileRow::MaybeRead(label)
            | FileRow::Written(label)
            | FileRow::Numeral(label, _) => label,
        }
    }

    /// Whether the place may be empty.
    pub(crate) fn may_be_absent(&self) -> bool
        ensures { result ≡ is_optional (file_view self.now) }
    {
        match self {
            FileRow::MaybeRead(_) => true,
            FileRow::Read(_) | FileRow::Written(_) | FileRow::Numeral(..) => false,
        }
    }

    /// Whether its file is written.
    pub(crate) fn is_written(&self) -> bool
        ensures { result ≡ is_output (file_view self.now) }
    {
        match self {
            FileRow::Written(_) => true,
            FileRow::Read(_) | FileRow::MaybeRead(_) | FileRow::Numeral(..) => false,
        }
    }
}

/// Which files and options, by their names, may stand beside each other.
#[derive(Clone, Copy)]
pub(crate) enum Beside {
    /// The first stands only where the second does.
    OnlyWith(&'static str, &'static str),
    /// The two never stand together.
    NeverWith(&'static str, &'static str),
}

/// A command.
#[derive(Clone, Copy)]
pub(crate) struct CommandRow {
    /// Its word.
    pub(crate) word: &'static str,
    /// What it does.
    pub(crate) verb: Verb,
    /// Its places, in order. Those that may be empty come last.
    pub(crate) files: &'static [FileRow],
    /// Its options.
    pub(crate) options: &'static [OptionRow],
    /// What may stand beside what.
    pub(crate) beside: &'static [Beside],
}
