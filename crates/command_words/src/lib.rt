//! The words of the command line, read by `clap`: which command they ask for, the names of its
//! files, and its options.
//!
//! There is one table of options and one of commands (`tables`). Their rows are plain data
//! (`rows`). By the row of a command, `clap` cuts the words after it into file names and options
//! (`cutting`). That gives a line (`line`): the names in order, and a value for each option that is
//! given. The numbers, listed words, defaults and rules of options are read from the line
//! (`run_options`, `profile_options`, `report_options`, `words`).
//!
//! The meaning of words is one definition: `reading` of `specs/Words.antt`. `read_words` returns
//! exactly that. For another command, add a row to the tables and a case to `Command` and `Verb`.
#![tactic(auto)]

mod cutting;
mod laws;
mod line;
mod profile_options;
mod report_options;
mod rows;
mod run_options;
mod tables;
mod words;

pub use fdr_buffer::TRACE_LIMIT;
pub use laws::commands_follow_their_rows;
pub use profile_options::ProfileOptions;
pub use report_options::{
    AccountFormat, AccountOptions, CallColumn, CallsOptions, ConvertFormat, ConvertOptions,
    InputForm, NameSource, SortColumn, SortOrder, StackFormat,
};
pub use run_options::{Bounds, Buffers, RunOptions, Stamps};
pub use words::{Command, read_words};
