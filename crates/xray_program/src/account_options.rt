//! What the words of `account` ask for, as the report has it.
ghost use Rattle.std.specs.Prelude.{◌≡◌};
ghost use Rattle.xray_program.specs.Account.{format_of, is_descending, key_of};

use account_report::{AccountLayout, SortKey};
use command_words::{AccountFormat as FormatWord, SortColumn, SortOrder};

/// The column that the rows are ordered by.
pub(crate) fn key_of(column: SortColumn) -> SortKey
    ensures { result ≡ key_of column }
{
    match column {
        SortColumn::FuncId => SortKey::FuncId,
        SortColumn::Count => SortKey::Count,
        SortColumn::Min => SortKey::Min,
        SortColumn::Med => SortKey::Med,
        SortColumn::P90 => SortKey::P90,
        SortColumn::P99 => SortKey::P99,
        SortColumn::Max => SortKey::Max,
        SortColumn::Sum => SortKey::Sum,
    }
}

/// Whether the greatest number comes first.
pub(crate) fn is_descending(order: SortOrder) -> bool
    ensures { result ≡ is_descending order }
{
    match order {
        SortOrder::Ascending => false,
        SortOrder::Descending => true,
    }
}

/// How the account is printed.
pub(crate) fn format_of(format: FormatWord) -> AccountLayout
    ensures { result ≡ format_of format }
{
    match format {
        FormatWord::Text => AccountLayout::Text,
        FormatWord::Csv => AccountLayout::Csv,
    }
}
