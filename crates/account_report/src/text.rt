//! The text of an account.

ghost use Rattle.std.specs.Prelude.{◌≡◌, ◌++◌, ◌==◌, ⊤, codes, decimal, if◌then◌else◌};
ghost use Rattle.std.specs.{List.{flat_map}, Option.{option_map}};
ghost use Rattle.function_names.specs.Name.{image_names, name_text, naming};
ghost use Rattle.xray_io.specs.{Piece.{piece_text}, Text.{AddsText}, Writes.{WritesText}};
ghost use Rattle.account_report.specs.AccountText.{account_text, column_text, duration_word, first_line, format_for, head_words, line_text, in_column, function_row_text, name_form, separator_text, column_words};

use crate::row::AccountRow;
use function_names::{NameForm, Names, add_name};
use xray_image::Image;
use xray_io::{Piece, Printed, Sink, Text, WriteFault, write_text};

/// The width of an aligned column. A longer number is printed whole.
const WIDTH: usize = 10;

/// The form of a printed account.
#[derive(Clone, Copy, Debug)]
pub enum AccountLayout {
    /// Columns that end at the same place of each line, for readers. The first line says how many
    /// functions have a pair.
    Text,
    /// Values with commas between them, for other programs.
    Csv,
}

/// An account, which is printed as a head line, and a line for each row, in the order of the rows.
/// The columns are those of `llvm-xray account`, in cycles, and two more.
#[derive(Clone, Copy)]
pub struct AccountText<'a> {
    /// The rows.
    pub rows: &'a [AccountRow],
    /// The number in the first line: how many functions have a pair, whether or not they have a
    /// row.
    pub latencies: u64,
    /// What names the functions of the rows. If a name isn't known, `#` and the id are printed.
    pub names: Names<'a>,
    /// The form.
    pub format: AccountLayout,
}

impl Printed for AccountText<'_> {
    ghost text = { λ account. account_text account.format account.latencies
        (naming account.names) account.rows.now };

    ghost ready = { λ _. ⊤ };

    fn add_to<S: Sink>(&self, to: &mut Text<S>) -> Result<(), WriteFault> {
        add_first_line(to, self.latencies, self.format)?;
        to.bytes(head_line(self.format))?;
        add_rows(to, self.rows, self.names, self.format)
    }
}

/// Writes an account: `rows` in their order, as csv or as text, with the names that an image gives to
/// their functions. `latencies` is how many functions have a pair. [`AccountText`] says what is
/// printed. No memory is taken. After a `WriteFault` the sink was given a prefix of the text.
pub fn write_account<S: Sink>(
    rows: &[AccountRow],
    latencies: u64,
    image: Option<&Image>,
    csv: bool,
    sink: &mut S,
) -> Result<(), WriteFault>
    ensures writes { WritesText S.written S.faults S.along sink.old sink.new
        (account_text (format_for csv) latencies (image_names (option_map (λ image. image.now) image.entry)) rows.now)
        result }
{
    let text = AccountText {
        rows,
        latencies,
        names: Names::of_image(image),
        format: format_of(csv),
    };
    write_text(&text, sink)
}

/// The form of an account that is csv or not.
fn format_of(csv: bool) -> AccountLayout
    ensures { result ≡ format_for csv }
{
    match csv {
        true => AccountLayout::Csv,
        false => AccountLayout::Text,
    }
}

/// Adds the number of functions that have a pair.
fn add_first_line<S: Sink>(
    text: &mut Text<S>,
    latencies: u64,
    format: AccountLayout,
) -> Result<(), WriteFault>
    ensures { AddsText S.written S.faults S.along text.old text.new
        (first_line format latencies) result }
{
    match format {
        AccountLayout::Text => text.pieces(&[
            Piece::Bytes(b"Functions with latencies: "),
            Piece::Number(u128::from(latencies)),
            Piece::Bytes(b"\n"),
        ]),
        AccountLayout::Csv => text.bytes(b""),
    }
}

/// The line with the names of the columns.
fn head_line(format: AccountLayout) -> &'static [u8]
    ensures { result.now ≡ line_text format head_words (codes "function") }
{
    match format {
        AccountLayout::Text => {
            b"    funcid      count        min        med        90p        99p        max        sum    entries      exits function\n"
        }
        AccountLayout::Csv => b"funcid,count,min,med,90p,99p,max,sum,entries,exits,function\n",
    }
}

/// Adds a line for each row.
fn add_rows<S: Sink>(
    text: &mut Text<S>,
    rows: &[AccountRow],
    names: Names,
    format: AccountLayout,
) -> Result<(), WriteFault>
    ensures { AddsText S.written S.faults S.along text.old text.new
        (flat_map (function_row_text format (naming names.entry)) rows.now) result }
{
    'rows: for row in rows {
        add_row(text, row, names, format)?;
    }
    Ok(())
}

/// Adds the line of a row.
fn add_row<S: Sink>(
    text: &mut Text<S>,
    row: &AccountRow,
    names: Names,
    format: AccountLayout,
) -> Result<(), WriteFault>
    ensures { AddsText S.written S.faults S.along text.old text.new
        (function_row_text format (naming names.entry) row.now) result }
{
    add_columns(text, row, format)?;
    add_row_name(text, row, names, format)?;
    text.bytes(b"\n")
}

/// Adds the name of a row's function.
fn add_row_name<S: Sink>(
    text: &mut Text<S>,
    row: &AccountRow,
    names: Names,
    format: AccountLayout,
) -> Result<(), WriteFault>
    ensures { AddsText S.written S.faults S.along text.old text.new
        (name_text (name_form format) (naming names.entry) row.now.func) result }
{
    add_name(text, names, name_form(format), row.func)
}

/// How a function is named in a row.
fn name_form(format: AccountLayout) -> NameForm
    ensures { result ≡ name_form format }
{
    match format {
        AccountLayout::Text => NameForm::Plain,
        AccountLayout::Csv => NameForm::Field,
    }
}

/// Adds the columns of a row, each with what follows it.
fn add_columns<S: Sink>(
    text: &mut Text<S>,
    row: &AccountRow,
    format: AccountLayout,
) -> Result<(), WriteFault>
    ensures { AddsText S.written S.faults S.along text.old text.new
        (flat_map (column_text format) (column_words row.now)) result }
{
    let gap = Piece::Bytes(separator(format));
    text.pieces(&[
        number(u128::from(row.func), format),
        gap,
        number(u128::from(row.count), format),
        gap,
        duration(row, u128::from(row.min), format),
        gap,
        duration(row, u128::from(row.med), format),
        gap,
        duration(row, u128::from(row.p90), format),
        gap,
        duration(row, u128::from(row.p99), format),
        gap,
        duration(row, u128::from(row.max), format),
        gap,
        duration(row, row.sum, format),
        gap,
        number(u128::from(row.entries), format),
        gap,
        number(u128::from(row.exits), format),
        gap,
    ])
}

/// The text between two columns.
fn separator(format: AccountLayout) -> &'static [u8]
    ensures { result.now ≡ separator_text format }
{
    match format {
        AccountLayout::Text => b" ",
        AccountLayout::Csv => b",",
    }
}

/// A number, in its column.
fn number(n: u128, format: AccountLayout) -> Piece<'static>
    ensures { piece_text result ≡ in_column format (decimal n) }
{
    match format {
        AccountLayout::Text => Piece::Right {
            number: n,
            width: WIDTH,
        },
        AccountLayout::Csv => Piece::Number(n),
    }
}

/// A number of a row that comes from durations, in its column. If there is no pair, it is a dash.
fn duration(row: &AccountRow, n: u128, format: AccountLayout) -> Piece<'static>
    ensures { piece_text result ≡ in_column format (duration_word row.now n) }
{
    if row.count > 0 {
        return number(n, format);
    }
    match format {
        AccountLayout::Text => Piece::Bytes(b"         -"),
        AccountLayout::Csv => Piece::Bytes(b"-"),
    }
}
