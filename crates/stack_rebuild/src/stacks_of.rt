//! The stacks of a trace.

ghost use Rattle.std.specs.Prelude.{◌≡◌, map, IfErr, IfOk, OnOk, None};
ghost use Rattle.stack_rebuild.specs.Stacks.{IsDeepFault, deep_in, most_open, stack_of, told};

use crate::fold::StackFold;
use crate::stack_row::{StackFault, StackRow};
use fdr_file::Trace;
use std::alloc::Global;

/// The stacks of a trace: a row for each path that has a pair of an entry and an exit, over all
/// threads. The rows are in ascending order of the paths as lists of numbers. `StackFault` says why
/// there may be none.
pub fn stacks(alloc: Global, trace: &Trace) -> Result<Vec<StackRow>, StackFault>
    ensures rows { IfOk result (λ rows. map told rows.items ≡ stack_of trace.now.blocks) }
    ensures shallow { OnOk result (deep_in most_open trace.now.blocks ≡ None) }
    ensures deep { IfErr result (λ fault.
        IsDeepFault fault (deep_in most_open trace.now.blocks)) }
{
    let mut fold = StackFold::new(alloc);
    'folding: for block in trace.blocks.as_slice() {
        fold.add_block(block)?;
    }
    fold.rows()
}
