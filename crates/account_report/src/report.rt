//! The rows of the account.

ghost use Rattle.std.specs.{Prelude.{◌≡◌, ◌++◌, [], ◌∷◌, List, nat_eq, map, IfOk, OnOk}};
ghost use Rattle.std.specs.List.{IsDistinct};
ghost use Rattle.fdr_file.specs.declared.trace.Block.{Block};
ghost use Rattle.fdr_file.specs.ThreadEvents.{ThreadEvent};
ghost use Rattle.account_report.specs.{Account.{account_of, account_rows}, AccountText.{latencies_of}};
ghost use Rattle.account_report.specs.private.{AllTallies.{AreTallies}, Folding.{Folds}};

use crate::fold::AccountFold;
use crate::row::AccountRow;
use crate::tallies::Tallies;
use fdr_file::{Block, Taker, Trace};
use stack_rebuild::{each_exit_ends_one_call, each_pair_is_a_whole_call};
use std::alloc::Global;
use xray_io::NoMemory;

/// The account of a trace: a row for each function that has an event, in ascending order of ids.
/// `NoMemory` means that an allocation was refused.
pub fn account(alloc: Global, trace: &Trace) -> Result<Vec<AccountRow>, NoMemory>
    ensures rows { IfOk result (λ rows. rows.items ≡ account_of trace.now.blocks) }
    // As `order_rows` asks for.
    ensures distinct { IfOk result (λ rows. IsDistinct nat_eq (map (λ row. row.func) rows.items)) }
{
    let mut fold = AccountFold::new(alloc);
    'folding: for block in trace.blocks.as_slice() {
        take_block(&mut fold, block)?;
    }
    let (rows, _) = fold.rows()?;
    Ok(rows)
}

/// Takes a block with its events.
fn take_block(fold: &mut AccountFold, block: &Block) -> Result<(), NoMemory>
    requires { (blocks : List Block) × Folds fold.old blocks }
    ensures { OnOk result ((blocks : List Block) → Folds fold.old blocks
        → Folds fold.new (blocks ++ block.now ∷ [])) }
{
    fold.block(block.thread, block.wall, block.pid)?;
    'taking: for event in block.events.as_slice() {
        fold.event(event)?;
    }
    Ok(())
}

/// The rows of functions, in ascending order of ids.
pub(crate) fn rows_from(alloc: Global, tallies: Tallies) -> Result<Vec<AccountRow>, NoMemory>
    ensures rows { IfOk result (λ rows. (history : List ThreadEvent) → AreTallies tallies history
        → rows.items ≡ account_rows history) }
    ensures distinct { IfOk result (λ rows. (history : List ThreadEvent)
        → AreTallies tallies history → IsDistinct nat_eq (map (λ row. row.func) rows.items)) }
{
    each_exit_ends_one_call();
    each_pair_is_a_whole_call();
    let mut rows = tallies.into_rows(alloc)?;
    rows.sort_unstable_by_key(|row| row.func);
    Ok(rows)
}

/// How many functions of an account have a pair, and so durations.
pub fn latencies(rows: &[AccountRow]) -> u64
    ensures { result ≡ latencies_of rows.now }
{
    rows.iter().filter(|row| row.count > 0).count() as u64
}
