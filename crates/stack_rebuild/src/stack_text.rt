//! The text of a stack report.

ghost use Rattle.std.specs.{Prelude.{◌≡◌, ◌++◌, ⊤, map}, List.{flat_map}};
ghost use Rattle.std.specs.Option.{option_map};
ghost use Rattle.function_names.specs.Name.{image_names, naming};
ghost use Rattle.xray_io.specs.{Piece.{piece_text, right_aligned}, Text.{AddsText}, Writes.{WritesText}};
ghost use Rattle.stack_rebuild.specs.Stacks.{told};
ghost use Rattle.stack_rebuild.specs.StackText.{columns_text, stack_head, path_text, path_row_text, stack_text, weight_text};

use crate::stack_row::StackRow;
use function_names::{NameForm, Names, add_callee_names, add_name};
use xray_image::Image;
use xray_io::{Piece, Printed, Sink, Text, WriteFault, write_text};

/// The width of a column. A longer number is printed whole.
const WIDTH: usize = 10;

/// The form of printed stacks.
#[derive(Clone, Copy)]
pub enum StackForm {
    /// For readers: a head line, and for each path the number of its pairs, the sum of their
    /// durations, and that sum without the time in other functions.
    Human,
    /// For flame graphs: for each path its names, and the time in its calls without other
    /// functions. Brendan Gregg's FlameGraph reads this.
    Flame,
}

/// Stacks, which are printed as a line for each row, in the order of the rows. Numbers are in
/// cycles.
///
/// A path is the names of its functions, outermost first, joined by `;`.
#[derive(Clone, Copy)]
pub struct StackText<'a> {
    /// The rows.
    pub rows: &'a [StackRow],
    /// What names the functions of the paths. If a name isn't known, `#` and the id are printed.
    pub names: Names<'a>,
    /// The form.
    pub form: StackForm,
}

impl Printed for StackText<'_> {
    ghost text = { λ stacks. stack_text stacks.form (naming stacks.names)
        (map told stacks.rows.now) };

    ghost ready = { λ _. ⊤ };

    fn add_to<S: Sink>(&self, to: &mut Text<S>) -> Result<(), WriteFault> {
        to.bytes(head_line(self.form))?;
        add_rows(to, self.rows, self.names, self.form)
    }
}

/// Writes stacks: `rows` in their order, in a form, with the names that an image gives to the
/// functions of the paths. [`StackText`] says what is printed. No memory is taken. After a
/// `WriteFault` the sink was given a prefix of the text.
pub fn write_stack<S: Sink>(
    rows: &[StackRow],
    image: Option<&Image>,
    form: StackForm,
    sink: &mut S,
) -> Result<(), WriteFault>
    ensures writes { WritesText S.written S.faults S.along sink.old sink.new
        (stack_text form (image_names (option_map (λ image. image.now) image.entry)) (map told rows.now)) result }
{
    let text = StackText {
        rows,
        names: Names::of_image(image),
        form,
    };
    write_text(&text, sink)
}

/// The head line.
fn head_line(form: StackForm) -> &'static [u8]
    ensures { result.now ≡ stack_head form }
{
    match form {
        StackForm::Human => b"     count        sum       self stack\n",
        StackForm::Flame => b"",
    }
}

/// Adds a line for each row.
fn add_rows<S: Sink>(
    text: &mut Text<S>,
    rows: &[StackRow],
    names: Names,
    form: StackForm,
) -> Result<(), WriteFault>
    ensures { AddsText S.written S.faults S.along text.old text.new
        (flat_map (λ row. path_row_text form (naming names.entry) (told row))
        rows.now) result }
{
    'rows: for row in rows {
        add_row(text, row, names, form)?;
    }
    Ok(())
}

/// Adds the line of a row.
fn add_row<S: Sink>(
    text: &mut Text<S>,
    row: &StackRow,
    names: Names,
    form: StackForm,
) -> Result<(), WriteFault>
    ensures { AddsText S.written S.faults S.along text.old text.new
        (path_row_text form (naming names.entry) (told row.now)) result }
{
    add_columns(text, row, form)?;
    add_path(text, row.path.as_slice(), names)?;
    add_weight(text, row, form)
}

/// Adds the columns before a path.
fn add_columns<S: Sink>(
    text: &mut Text<S>,
    row: &StackRow,
    form: StackForm,
) -> Result<(), WriteFault>
    ensures { AddsText S.written S.faults S.along text.old text.new
        (columns_text form (told row.now)) result }
{
    match form {
        StackForm::Human => text.pieces(&[
            column(u128::from(row.count)),
            Piece::Bytes(b" "),
            column(row.sum),
            Piece::Bytes(b" "),
            column(row.own),
            Piece::Bytes(b" "),
        ]),
        StackForm::Flame => text.bytes(b""),
    }
}

/// A number, in its column.
fn column(number: u128) -> Piece<'static>
    ensures { piece_text result ≡ right_aligned number 10 }
{
    Piece::Right {
        number,
        width: WIDTH,
    }
}

/// Adds what follows a path.
fn add_weight<S: Sink>(
    text: &mut Text<S>,
    row: &StackRow,
    form: StackForm,
) -> Result<(), WriteFault>
    ensures { AddsText S.written S.faults S.along text.old text.new
        (weight_text form (told row.now)) result }
{
    match form {
        StackForm::Human => text.bytes(b"\n"),
        StackForm::Flame => text.pieces(&[
            Piece::Bytes(b" "),
            Piece::Number(row.own),
            Piece::Bytes(b"\n"),
        ]),
    }
}

/// Adds the names of a path.
fn add_path<S: Sink>(text: &mut Text<S>, path: &[u32], names: Names) -> Result<(), WriteFault>
    ensures { AddsText S.written S.faults S.along text.old text.new
        (path_text (naming names.entry) path.now) result }
{
    match path {
        [] => text.bytes(b""),
        [outermost, inner @ ..] => {
            add_name(text, names, NameForm::Frame, *outermost)?;
            add_callee_names(text, names, inner)
        }
    }
}
