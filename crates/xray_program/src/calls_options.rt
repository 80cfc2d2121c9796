//! What the words of `calls` ask for, as the rows of calls have it.
ghost use Rattle.std.specs.Prelude.{◌≡◌};
ghost use Rattle.xray_program.specs.Calls.{call_filter_of, call_key_of, call_order_of};

use crate::account_options::is_descending;
use call_rows::{CallFilter, CallKey, CallOrder};
use command_words::{CallColumn, CallsOptions};

/// Which calls are wanted.
pub(crate) fn call_filter_of(options: &CallsOptions) -> CallFilter
    ensures { result ≡ call_filter_of options.now }
{
    CallFilter {
        function: options.function,
        thread: options.thread,
        least: options.least,
    }
}

/// In which order they are listed, and how many of them.
pub(crate) fn call_order_of(options: &CallsOptions) -> CallOrder
    ensures { result ≡ call_order_of options.now }
{
    CallOrder {
        key: call_key_of(options.sort),
        descending: is_descending(options.order),
        top: options.top,
    }
}

/// The number that calls are ordered by.
fn call_key_of(column: CallColumn) -> CallKey
    ensures { result ≡ call_key_of column }
{
    match column {
        CallColumn::End => CallKey::End,
        CallColumn::Call => CallKey::Call,
        CallColumn::Start => CallKey::Start,
        CallColumn::Duration => CallKey::Duration,
        CallColumn::Own => CallKey::Own,
        CallColumn::Depth => CallKey::Depth,
    }
}
