//! The files and options of the commands that report on a trace.
ghost use Rattle.std.specs.Prelude.{◌≡◌, ◌≤◌, IfSome, option_map};
ghost use Rattle.command_words.specs.Reports.{choice_in, stack_formats};
ghost use Rattle.command_words.specs.Reports.{account_options_in, calls_options_in, convert_options_in, named_by, report_files_in, source_view, top_in};
ghost use Rattle.command_words.specs.{Lines.{number_if_given}, Tables.{function_option, stack_format_option, thread_option}};
ghost use Rattle.command_words.specs.private.CodeViews.{files_view, line_view};

use crate::line::Line;
use crate::tables::{
    ACCOUNT_FORMAT, CALL_SORT, CONVERT_FORMAT, FUNCTION, INPUT, LEAST, MAP, SORT, SORT_ORDER,
    STACK_FORMAT, THREAD, TOP,
};

/// The files of a report.
#[derive(Clone, Copy)]
pub(crate) struct ReportFiles<'a> {
    /// The trace.
    pub(crate) trace: &'a str,
    /// What names its functions.
    pub(crate) names: NameSource<'a>,
}

/// What names the functions of a trace.
#[derive(Clone, Copy, Debug)]
pub enum NameSource<'a> {
    /// Nothing: a function is named by its id.
    Ids,
    /// The image file of this name.
    Image(&'a str),
    /// The sled map of this name.
    Map(&'a str),
}

/// The column by which the rows of an account are sorted.
#[derive(Clone, Copy, Debug)]
pub enum SortColumn {
    /// The id of the function.
    FuncId,
    /// How many pairs there are.
    Count,
    /// The least duration.
    Min,
    /// The median.
    Med,
    /// The 90th percentile.
    P90,
    /// The 99th percentile.
    P99,
    /// The greatest duration.
    Max,
    /// The sum of the durations.
    Sum,
}

/// The order in which the rows of an account are sorted.
#[derive(Clone, Copy, Debug)]
pub enum SortOrder {
    /// The least value comes first.
    Ascending,
    /// The greatest value comes first.
    Descending,
}

/// The form in which an account is printed.
#[derive(Clone, Copy, Debug)]
pub enum AccountFormat {
    /// Columns, for readers.
    Text,
    /// Values with commas between them, for other programs.
    Csv,
}

/// The form in which stacks are printed.
#[derive(Clone, Copy, Debug)]
pub enum StackFormat {
    /// Columns, for readers.
    Human,
    /// A line per stack, for tools that draw flame graphs.
    Flame,
    /// A flame graph, as a picture in SVG.
    Svg,
}

/// The options of an account.
#[derive(Clone, Copy)]
pub struct AccountOptions {
    /// The column by which the rows are sorted.
    pub sort: SortColumn,
    /// The order in which they are sorted.
    pub order: SortOrder,
    /// The most rows that are printed. `None` means all rows.
    pub top: Option<u32>,
    /// The form in which the account is printed.
    pub format: AccountFormat,
}

/// The number by which calls are sorted.
#[derive(Clone, Copy, Debug)]
pub enum CallColumn {
    /// Its place among the ends of calls.
    End,
    /// The number of its entry.
    Call,
    /// The counter at its entry.
    Start,
    /// Its duration.
    Duration,
    /// What it took itself.
    Own,
    /// How many calls enclose it.
    Depth,
}

/// The options of `calls`.
#[derive(Clone, Copy)]
pub struct CallsOptions {
    /// The function whose calls are printed. `None` means all functions.
    pub function: Option<u32>,
    /// The thread whose calls are printed. `None` means all threads.
    pub thread: Option<u32>,
    /// The least duration of the calls that are printed, in cycles.
    pub least: u64,
    /// The number by which the calls are sorted.
    pub sort: CallColumn,
    /// The order in which they are sorted.
    pub order: SortOrder,
    /// The most calls that are printed. `None` means all calls.
    pub top: Option<u32>,
    /// The form in which they are printed.
    pub format: AccountFormat,
}

/// The form that a trace is converted to.
#[derive(Clone, Copy, Debug)]
pub enum ConvertFormat {
    /// A YAML document.
    Yaml,
    /// Trace events in JSON, for viewers.
    TraceEvents,
    /// A basic log.
    Basic,
}

/// The form of a trace that is read.
#[derive(Clone, Copy, Debug)]
pub enum InputForm {
    /// A trace file of the Flight Data Recorder mode.
    Fdr,
    /// A basic log.
    Basic,
}

/// The options of a conversion.
#[derive(Clone, Copy)]
pub struct ConvertOptions {
    /// The form that the trace is converted to.
    pub format: ConvertFormat,
    /// The form that the trace has.
    pub input: InputForm,
}

/// What names functions if no image does: the sled map of this name, if there is one.
fn names_by(map: Option<&str>) -> NameSource<'_>
    ensures { source_view result ≡ named_by None (option_map (λ m. m.now) map.entry) }
{
    match map {
        Some(map) => NameSource::Map(map),
        None => NameSource::Ids,
    }
}

/// The files of a report. `None` unless there are a trace and at most one image.
pub(crate) fn report_files_in<'a>(line: &Line<'a>) -> Option<ReportFiles<'a>>
    ensures { option_map files_view result ≡ report_files_in (line_view line.now) }
{
    match line.files.as_slice() {
        [trace] => Some(ReportFiles {
            trace,
            names: names_by(line.value(MAP.name)),
        }),
        [trace, image] => Some(ReportFiles {
            trace,
            names: NameSource::Image(image),
        }),
        _ => None,
    }
}

/// The columns, the orders and the formats of accounts, in the order of their words.
const COLUMNS: &[SortColumn] = &[
    SortColumn::FuncId,
    SortColumn::Count,
    SortColumn::Min,
    SortColumn::Med,
    SortColumn::P90,
    SortColumn::P99,
    SortColumn::Max,
    SortColumn::Sum,
];

const ORDERS: &[SortOrder] = &[SortOrder::Ascending, SortOrder::Descending];

const ACCOUNT_FORMATS: &[AccountFormat] = &[AccountFormat::Text, AccountFormat::Csv];

/// The formats of stacks, in the order of their words.
const STACK_FORMATS: &[StackFormat] = &[StackFormat::Human, StackFormat::Flame, StackFormat::Svg];

/// The forms that a trace is converted to, and those that it may have, in the order of their words.
const CONVERT_FORMATS: &[ConvertFormat] = &[
    ConvertFormat::Yaml,
    ConvertFormat::TraceEvents,
    ConvertFormat::Basic,
];

const INPUT_FORMS: &[InputForm] = &[InputForm::Fdr, InputForm::Basic];

/// The format of stacks that a line names. `None` if its word isn't a format.
pub(crate) fn stack_format_in(line: &Line<'_>) -> Option<StackFormat>
    ensures { result ≡ choice_in stack_format_option stack_formats (line_view line.now) }
{
    STACK_FORMAT.choice(STACK_FORMATS, line)
}

/// The most rows that are printed: the number that is given, or none for all rows. `None` if the
/// value isn't such a number.
fn top_in(line: &Line<'_>) -> Option<Option<u32>>
    ensures reads { result ≡ top_in (line_view line.now) }
    ensures ranges { IfSome result (λ top. IfSome top (λ top. top ≤ 4294967295)) }
{
    match TOP.number_if_given(line)? {
        Some(top) => Some(Some(top as u32)),
        None => Some(None),
    }
}

/// The options of an account. `None` if a value isn't allowed.
pub(crate) fn account_options_in(line: &Line<'_>) -> Option<AccountOptions>
    ensures reads { result ≡ account_options_in (line_view line.now) }
    ensures ranges { IfSome result (λ options. IfSome options.top (λ top. top ≤ 4294967295)) }
{
    let sort = SORT.choice(COLUMNS, line)?;
    let order = SORT_ORDER.choice(ORDERS, line)?;
    let top = top_in(line)?;
    let format = ACCOUNT_FORMAT.choice(ACCOUNT_FORMATS, line)?;
    Some(AccountOptions {
        sort,
        order,
        top,
        format,
    })
}

/// The numbers by which calls are sorted, in the order of their words.
const CALL_COLUMNS: &[CallColumn] = &[
    CallColumn::End,
    CallColumn::Call,
    CallColumn::Start,
    CallColumn::Duration,
    CallColumn::Own,
    CallColumn::Depth,
];

/// The function whose calls are printed, or none for all. `None` if the value isn't such a number.
fn function_in(line: &Line<'_>) -> Option<Option<u32>>
    ensures { result ≡ number_if_given function_option (line_view line.now) }
{
    match FUNCTION.number_if_given(line)? {
        Some(function) => Some(Some(function as u32)),
        None => Some(None),
    }
}

/// The thread whose calls are printed, or none for all. `None` if the value isn't such a number.
fn thread_in(line: &Line<'_>) -> Option<Option<u32>>
    ensures { result ≡ number_if_given thread_option (line_view line.now) }
{
    match THREAD.number_if_given(line)? {
        Some(thread) => Some(Some(thread as u32)),
        None => Some(None),
    }
}

/// The options of `calls`. `None` if a value isn't allowed.
pub(crate) fn calls_options_in(line: &Line<'_>) -> Option<CallsOptions>
    ensures { result ≡ calls_options_in (line_view line.now) }
{
    let function = function_in(line)?;
    let thread = thread_in(line)?;
    let least = LEAST.number_given(line)?;
    let sort = CALL_SORT.choice(CALL_COLUMNS, line)?;
    let order = SORT_ORDER.choice(ORDERS, line)?;
    let top = top_in(line)?;
    let format = ACCOUNT_FORMAT.choice(ACCOUNT_FORMATS, line)?;
    Some(CallsOptions {
        function,
        thread,
        least,
        sort,
        order,
        top,
        format,
    })
}

/// The options of a conversion. `None` if a value isn't allowed.
pub(crate) fn convert_options_in(line: &Line<'_>) -> Option<ConvertOptions>
    ensures { result ≡ convert_options_in (line_view line.now) }
{
    let format = CONVERT_FORMAT.choice(CONVERT_FORMATS, line)?;
    let input = INPUT.choice(INPUT_FORMS, line)?;
    Some(ConvertOptions { format, input })
}
