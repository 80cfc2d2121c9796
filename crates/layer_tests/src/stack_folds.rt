//! Calls of `StackFold` of `stack_rebuild`, which a scan of `fdr_file` feeds in pieces.

use crate::checks::check_same_text;
use crate::event_traces::{NESTED, Said, TURNS, printed};
use crate::fed_traces::{feed_pieces, file_of};
use function_names::Names;
use stack_rebuild::{StackFault, StackFold, StackForm, StackRow, StackText};
use std::alloc::Global;
use std::process::Abort;
use std::test::Fail;

/// How many bytes a scan is fed at once. Each record is longer.
const PIECE: usize = 7;

/// The stacks of events, each in a block of its own.
fn stacks_of(alloc: Global, events: &[Said]) -> Result<Result<Vec<StackRow>, StackFault>, Fail> {
    let mut fold = StackFold::new(alloc);
    feed_pieces(&file_of(alloc, events)?, PIECE, &mut fold)??;
    Ok(fold.rows())
}

/// Checks the text of the stacks of events.
fn check_stacks(rt: &impl Abort, alloc: Global, events: &[Said], wanted: &str) -> Result<(), Fail> {
    let rows = stacks_of(alloc, events)??;
    let text = StackText {
        rows: &rows,
        names: Names::Ids,
        form: StackForm::Flame,
    };
    check_same_text(rt, printed(alloc, &text)?.as_str(), wanted);
    Ok(())
}

#[test]
fn a_fold_that_is_fed_in_pieces_has_the_stacks_of_the_trace(rt: HostRuntime) -> Result<(), Fail> {
    check_stacks(&rt, rt.alloc(), &[], "")?;
    check_stacks(&rt, rt.alloc(), &NESTED, "#1;#1 25\n#1;#1;#1 10\n")?;
    check_stacks(&rt, rt.alloc(), &TURNS, "#7 47\n#7;#8 3\n")?;
    Ok(())
}
