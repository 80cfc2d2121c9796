//! Laws of the rows of calls. Each law is the contract of a function that does nothing.

ghost use Rattle.std.specs.Prelude.{◌≡◌, List, All};
ghost use Rattle.fdr_file.specs.declared.trace.Block.{Block};
ghost use Rattle.stack_rebuild.specs.Histories.{history_of, pairs_of_blocks};
ghost use Rattle.account_report.specs.Account.{account_of};
ghost use Rattle.call_rows.specs.declared.filter.CallFilter.{CallFilter};
ghost use Rattle.call_rows.specs.{CallOrders.{arranged_calls, by_end}, CallRows.{call_rows_of, wanted_rows}};
ghost use Rattle.call_rows.specs.CallRowLaws.{HasItsParent, SumsCalls};

use stack_rebuild::{a_thread_goes_on, each_pair_is_a_whole_call};

/// The number of a function's pairs in an account, and the sum of their durations, are those of the
/// rows of its calls.
pub fn an_account_sums_the_calls_of_each_function()
    ensures { (blocks : List Block) → All (SumsCalls blocks) (account_of blocks) }
{}

/// Each parent is none, or an entry that encloses the call in its thread.
pub fn each_parent_encloses_its_call()
    ensures { (blocks : List Block) → All (HasItsParent (history_of blocks)) (pairs_of_blocks blocks) }
{
    each_pair_is_a_whole_call();
}

/// Rows stand in the order in which calls end: that order leaves them as they are.
pub fn rows_stand_in_the_order_of_ends()
    ensures { (blocks : List Block) (wanted : CallFilter)
        → arranged_calls by_end (wanted_rows wanted (call_rows_of blocks))
        ≡ wanted_rows wanted (call_rows_of blocks) }
{
    a_thread_goes_on();
    each_pair_is_a_whole_call();
}
