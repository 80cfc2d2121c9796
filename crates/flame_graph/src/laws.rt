//! Laws of flame graphs. Each law is the contract of a function that does nothing.

ghost use Rattle.std.specs.Prelude.{ℕ, List};
ghost use Rattle.fdr_file.specs.declared.trace.Block.{Block};
ghost use Rattle.fdr_record.specs.declared.event.Event.{Event};
ghost use Rattle.stack_rebuild.specs.Stacks.{PathRow, stack_of, stack_of_threads};
ghost use Rattle.flame_graph.specs.{Frames.{AreStacks}, Laws.{AreRowPrefixes, BeginsAtItsRows, LowestAddUp, NamesAreEscaped, NamesAreText, NoneOverlap, NoneSticksOut, NoneTwice, WeighsItsCalls, WeighsItsSum}};

/// The stacks of blocks are in ascending order of their paths, each path once and with a function.
/// So a flame graph can be drawn of them.
pub fn stacks_can_be_drawn()
    ensures { (blocks : List Block) → AreStacks (stack_of blocks) }
{}

/// So it is of the stacks of threads, by the events of each.
pub fn stacks_of_threads_can_be_drawn()
    ensures { (threads : List (List Event)) → AreStacks (stack_of_threads threads) }
{}

/// The frames are exactly the prefixes of the rows' paths that have a function, and none is listed
/// twice.
pub fn each_prefix_is_a_frame_once()
    ensures exactly { (rows : List PathRow) → AreRowPrefixes rows }
    ensures once { (rows : List PathRow) → NoneTwice rows }
{}

/// The place of a frame is the time that was spent in the calls themselves of the rows that stand
/// before the first one whose path begins with it. So the frames of a row begin where the rows before
/// it end, unless an earlier row begins with them.
pub fn a_frame_begins_after_the_rows_before_it()
    ensures { (rows : List PathRow) (frame : List ℕ) → AreStacks rows → BeginsAtItsRows rows frame }
{}

/// A frame weighs as much as the `sum` that is shown of it, and the time that is in no sum: that of the
/// calls made directly in calls without an exit, on its path or below it, and how much longer than a
/// call there the calls made directly in it took. If there is no such time, it weighs just this `sum`.
/// The width of a frame is its weight as a part of the whole.
pub fn a_frame_weighs_the_sum_that_is_shown()
    ensures exactly { (threads : List (List Event)) (frame : List ℕ) → WeighsItsCalls threads frame }
    ensures timed { (threads : List (List Event)) (frame : List ℕ) → WeighsItsSum threads frame }
{}

/// Frames of one height don't overlap. This is true of what is printed, where they are listed from left
/// to right.
pub fn frames_of_a_height_are_apart()
    ensures { (rows : List PathRow) → AreStacks rows → NoneOverlap rows }
{}

/// No frame sticks out of the frame of its caller, or, if it has none, out of the whole. This is true
/// of what is printed.
pub fn no_frame_sticks_out()
    ensures { (rows : List PathRow) → AreStacks rows → NoneSticksOut rows }
{}

/// If any time was spent, the widths of the lowest row of frames add up to the whole. This is true of
/// what is printed, with the frames that are left out.
pub fn the_lowest_frames_add_up()
    ensures { (rows : List PathRow) → AreStacks rows → LowestAddUp rows }
{}

/// What is shown of a name is UTF-8, whatever its bytes are, and wherever it is cut.
pub fn names_are_text()
    ensures { NamesAreText }
{}

/// What is shown of a name has no `<`, `>` or `"`, and no control character of ASCII. Each `&` in it
/// begins an escape.
pub fn names_are_escaped()
    ensures { NamesAreEscaped }
{}
