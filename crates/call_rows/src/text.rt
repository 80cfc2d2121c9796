//! The text of calls.

ghost use Rattle.std.specs.Prelude.{◌≡◌, ⊤, codes, decimal};
ghost use Rattle.std.specs.List.{flat_map};
ghost use Rattle.function_names.specs.Name.{name_text, naming};
ghost use Rattle.xray_io.specs.{Piece.{piece_text}, Text.{AddsText}};
ghost use Rattle.account_report.specs.AccountText.{column_text, in_column, name_form, separator_text};
ghost use Rattle.account_report.specs.declared.text.AccountLayout.TheVariants.{Text as aligned};
ghost use Rattle.call_rows.specs.CallText.{call_head, call_line, call_list_text, call_words, no_number, number_if_any};

use crate::line::Line;
use crate::row::CallRow;
use account_report::AccountLayout;
use function_names::{NameForm, Names, add_name};
use xray_io::{Piece, Printed, Sink, Text, WriteFault};

/// The width of an aligned column. A longer number is printed whole.
const WIDTH: usize = 10;

/// Calls, which are printed as a head line, and a line for each row, in the order of the rows.
/// Durations and counters are in cycles. A parent or an argument that isn't there is a dash, and
/// nothing in csv.
#[derive(Clone, Copy)]
pub struct CallsText<'a> {
    /// The rows.
    pub rows: &'a [CallRow],
    /// What names the functions of the rows. If a name isn't known, `#` and the id are printed.
    pub names: Names<'a>,
    /// The form.
    pub format: AccountLayout,
}

impl Printed for CallsText<'_> {
    ghost text = { λ calls. call_list_text calls.format (naming calls.names) calls.rows.now };

    ghost ready = { λ _. ⊤ };

    fn add_to<S: Sink>(&self, to: &mut Text<S>) -> Result<(), WriteFault> {
        to.bytes(head_line(self.format))?;
        add_rows(to, self.rows, self.names, self.format)
    }
}

/// The line with the names of the columns.
pub(crate) fn head_line(format: AccountLayout) -> &'static [u8]
    ensures { result.now ≡ call_head format }
{
    match format {
        AccountLayout::Text => {
            b"      call     parent     thread    process        cpu      start   duration       self      depth        arg     funcid function\n"
        }
        AccountLayout::Csv => {
            b"call,parent,thread,process,cpu,start,duration,self,depth,arg,funcid,function\n"
        }
    }
}

/// Adds a line for each row.
pub(crate) fn add_rows<S: Sink>(
    text: &mut Text<S>,
    rows: &[CallRow],
    names: Names,
    format: AccountLayout,
) -> Result<(), WriteFault>
    ensures { AddsText S.written S.faults S.along text.old text.new
        (flat_map (call_line format (naming names.entry)) rows.now) result }
{
    'rows: for row in rows {
        add_row(text, row, names, format)?;
    }
    Ok(())
}

/// Adds the line of a row.
pub(crate) fn add_row<S: Sink>(
    text: &mut Text<S>,
    row: &CallRow,
    names: Names,
    format: AccountLayout,
) -> Result<(), WriteFault>
    ensures { AddsText S.written S.faults S.along text.old text.new
        (call_line format (naming names.entry) row.now) result }
{
    add_columns(text, row, format)?;
    add_row_name(text, row, names, format)?;
    text.bytes(b"\n")
}

/// Adds the name of a row's function.
fn add_row_name<S: Sink>(
    text: &mut Text<S>,
    row: &CallRow,
    names: Names,
    format: AccountLayout,
) -> Result<(), WriteFault>
    ensures { AddsText S.written S.faults S.along text.old text.new
        (name_text (name_form format) (naming names.entry) row.now.func) result }
{
    add_name(text, names, form_of(format), row.func)
}

/// How a function is named in a row.
fn form_of(format: AccountLayout) -> NameForm
    ensures { result ≡ name_form format }
{
    match format {
        AccountLayout::Text => NameForm::Plain,
        AccountLayout::Csv => NameForm::Field,
    }
}

/// Adds the columns of a row, each with what follows it.
fn add_columns<S: Sink>(
    text: &mut Text<S>,
    row: &CallRow,
    format: AccountLayout,
) -> Result<(), WriteFault>
    ensures { AddsText S.written S.faults S.along text.old text.new
        (flat_map (column_text format) (call_words format row.now)) result }
{
    match format {
        AccountLayout::Text => add_aligned(text, row),
        AccountLayout::Csv => text.bytes(Line::of_columns(row).as_slice()),
    }
}

/// Adds the columns of a row at their places, each with a blank behind it.
fn add_aligned<S: Sink>(text: &mut Text<S>, row: &CallRow) -> Result<(), WriteFault>
    ensures { AddsText S.written S.faults S.along text.old text.new
        (flat_map (column_text aligned) (call_words aligned row.now)) result }
{
    let format = AccountLayout::Text;
    let gap = Piece::Bytes(separator(format));
    text.pieces(&[
        number(row.call, format),
        gap,
        number_or_none(row.parent, format),
        gap,
        number(u64::from(row.thread), format),
        gap,
        number(u64::from(row.process), format),
        gap,
        number(u64::from(row.cpu), format),
        gap,
        number(row.start, format),
        gap,
        number(row.duration, format),
        gap,
        number(row.own, format),
        gap,
        number(row.depth, format),
        gap,
        number_or_none(row.arg, format),
        gap,
        number(u64::from(row.func), format),
        gap,
    ])
}

/// The text between two columns.
fn separator(format: AccountLayout) -> &'static [u8]
    ensures { result.now ≡ separator_text format }
{
    match format {
        AccountLayout::Text => b" ",
        AccountLayout::Csv => b",",
    }
}

/// A number, in its column.
fn number(n: u64, format: AccountLayout) -> Piece<'static>
    ensures { piece_text result ≡ in_column format (decimal n) }
{
    match format {
        AccountLayout::Text => Piece::Right {
            number: u128::from(n),
            width: WIDTH,
        },
        AccountLayout::Csv => Piece::Number(u128::from(n)),
    }
}

/// A number that may not be there, in its column.
fn number_or_none(n: Option<u64>, format: AccountLayout) -> Piece<'static>
    ensures { piece_text result ≡ in_column format (number_if_any format n) }
{
    match n {
        Some(n) => number(n, format),
        None => none(format),
    }
}

/// What stands for a number that isn't there, in its column.
fn none(format: AccountLayout) -> Piece<'static>
    ensures { piece_text result ≡ in_column format (no_number format) }
{
    match format {
        AccountLayout::Text => Piece::Bytes(b"         -"),
        AccountLayout::Csv => Piece::Bytes(b""),
    }
}
