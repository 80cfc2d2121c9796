//! The two rows of a thread, and the last row of an audit.

ghost use Rattle.std.specs.Prelude.{◌≡◌, ◌≢◌, ◌<◌, ◌≤◌, ◌+◌, ◌∷◌, ◌++◌, ℕ, List, [], None, Some, length, IfSome, MatchOption, OnSome, IsSome, IsTrue, ◌↔◌, replicate};
ghost use Rattle.machine_step.specs.Texts.{marks_line};
ghost use Rattle.handler_word.specs.declared.mark.Mark.{Mark};
ghost use Rattle.handler_word.specs.Runs.{run_text};
ghost use Rattle.audit_check.specs.private.Marks.{AreRuns, TakesRun, marks_of_runs, marks_part, spaced};
ghost use Rattle.audit_check.specs.private.Parts.{BeginsNoDigit};
ghost use Rattle.audit_check.specs.private.Taking.{Gives, counts_in, recycled_in, said_in};
ghost use Rattle.audit_check.specs.Statements.{most_marks};

use crate::row::{ROW_END, after, take_end, take_field, take_run, take_short};
use handler_word::{Mark, Marks};
use machine_step::End;
use text_lines::a_written_number_is_itself;

/// The most marks of a thread.
pub(crate) const MOST_MARKS: u32 = 1_048_576;

/// What the first row of a thread says.
#[derive(Clone, Copy)]
pub(crate) struct Counts {
    pub(crate) end: End,
    pub(crate) passings: u32,
    pub(crate) recorded: u32,
    pub(crate) segments: u32,
    pub(crate) first: u32,
}

/// What a row says of the thread of this number, if it is the first row of that thread.
#[tactic(auto, unfolding(crate::specs::private::Taking::counts_in))]
pub(crate) fn read_counts(row: &[u8], thread: u32) -> Option<Counts>
    ensures { result ≡ counts_in thread row.now }
{
    let (number, row) = take_short(row, b"thread ")?;
    if number != thread {
        return None;
    }
    let (counts, row) = take_counts(row)?;
    if row == ROW_END { Some(counts) } else { None }
}

/// Takes the end of a thread and its counts.
#[tactic(auto, unfolding(crate::specs::private::Taking::said_in))]
fn take_counts(row: &[u8]) -> Option<(Counts, &[u8])>
    ensures { Gives (λ x. (x.0, x.1.now)) result (said_in row.now) }
{
    let row = after(row, b" ")?;
    let (end, row) = take_end(row)?;
    let (passings, row) = take_short(row, b" passings ")?;
    let (recorded, row) = take_short(row, b" recorded ")?;
    let (segments, row) = take_short(row, b" segments ")?;
    let (first, row) = take_short(row, b" first ")?;
    let counts = Counts {
        end,
        passings,
        recorded,
        segments,
        first,
    };
    Some((counts, row))
}

/// Adds the marks of a row, if it is the row of the marks of a thread. They are its longest runs of
/// equal marks. `marks` has to be empty, and needs room for the most marks of a thread.
pub(crate) fn read_marks(row: &[u8], marks: &mut Marks) -> Option<()>
    requires empty { marks.old.items ≡ [] }
    requires room { marks.old.room ≡ most_marks }
    ensures few { OnSome result (length marks.new.items ≤ most_marks) }
    ensures found { OnSome result (row.now ≡ marks_line marks.new.items) }
    ensures only { (all : List Mark) → length all ≤ most_marks → row.now ≡ marks_line all
        → IsSome result × (marks.new.items ≡ all) }
{
    let part = after(row, b"marks")?;
    let rest = take_marks(part, marks)?;
    if rest == ROW_END { Some(()) } else { None }
}

/// Takes a space and the marks, or a hyphen if there are none.
fn take_marks<'a>(row: &'a [u8], marks: &mut Marks) -> Option<&'a [u8]>
    requires empty { marks.old.items ≡ [] }
    requires room { marks.old.room ≡ most_marks }
    ensures few { OnSome result (length marks.new.items ≤ most_marks) }
    ensures found { IfSome result (λ rest. row.now ≡ marks_part marks.new.items ++ rest.now) }
    ensures only { (all : List Mark) (rest : List ℕ) → length all ≤ most_marks → row.now ≡ marks_part all ++ 10 ∷ rest
        → MatchOption result ⊥ (λ left. (left.now ≡ 10 ∷ rest) × (marks.new.items ≡ all)) }
{
    match after(row, b" -") {
        Some(rest) => Some(rest),
        None => take_runs(row, marks),
    }
}

/// Takes one run of marks or more, each with a space before it.
fn take_runs<'a>(row: &'a [u8], marks: &mut Marks) -> Option<&'a [u8]>
    requires empty { marks.old.items ≡ [] }
    requires room { marks.old.room ≡ most_marks }
    ensures few { OnSome result (length marks.new.items ≤ most_marks) }
    ensures found { IfSome result (λ rest. row.now ≡ marks_part marks.new.items ++ rest.now) }
    ensures only { (runs : List (Mark × ℕ)) (rest : List ℕ) → AreRuns None runs → runs ≢ []
        → length (marks_of_runs runs) ≤ most_marks → row.now ≡ spaced runs ++ 10 ∷ rest
        → MatchOption result ⊥ (λ left. (left.now ≡ 10 ∷ rest) × (marks.new.items ≡ marks_of_runs runs)) }
{
    let mut left = row;
    let mut before = None;
    'runs: while let Some(run) = after(left, b" ") {
        let (mark, rest) = take_next(run, marks, before)?;
        left = rest;
        before = Some(mark);
    }
    if before.is_some() { Some(left) } else { None }
}

/// Takes a run of marks, which aren't those of the run before it. Returns its mark.
fn take_next<'a>(row: &'a [u8], marks: &mut Marks, before: Option<Mark>) -> Option<(Mark, &'a [u8])>
    requires { marks.old.room ≡ most_marks }
    ensures room { marks.new.room ≡ most_marks }
    ensures few { OnSome result (length marks.new.items ≤ most_marks) }
    ensures found { IfSome result (λ x. (before ≢ Some x.0)
        × ((count : ℕ) × TakesRun row.now x.1.now marks.old.items marks.new.items x.0 count)) }
    ensures only { (mark : Mark) (count : ℕ) (rest : List ℕ) → before ≢ Some mark → 0 < count
        → length marks.old.items + count ≤ most_marks → BeginsNoDigit rest
        → row.now ≡ run_text (mark, count) ++ rest → MatchOption result ⊥ (λ x. (x.0 ≡ mark)
        × (x.1.now ≡ rest) × (marks.new.items ≡ marks.old.items ++ replicate count mark)) }
{
    a_written_number_is_itself();
    let (mark, count, rest) = take_run(row)?;
    if differs(before, mark) && 0 < count && count <= MOST_MARKS - marks.len() {
        add_run(marks, mark, count);
        Some((mark, rest))
    } else {
        None
    }
}

/// Whether a mark isn't that of the run before.
fn differs(before: Option<Mark>, mark: Mark) -> bool
    ensures { IsTrue result ↔ (before ≢ Some mark) }
{
    match before {
        Some(last) => last != mark,
        None => true,
    }
}

/// Adds this many equal marks.
fn add_run(marks: &mut Marks, mark: Mark, count: u32)
    requires { length marks.old.items + count ≤ marks.old.room }
    ensures items { marks.new.items ≡ marks.old.items ++ replicate count mark }
    ensures room { marks.new.room ≡ marks.old.room }
{
    for _mark in 0..count {
        marks.add(mark);
    }
}

/// How many segments were recycled, by the last row.
#[tactic(auto, unfolding(crate::specs::private::Taking::recycled_in))]
pub(crate) fn read_recycled(row: &[u8]) -> Option<u64>
    ensures { result ≡ recycled_in row.now }
{
    let (recycled, row) = take_field(row, b"recycled ")?;
    if row == ROW_END { Some(recycled) } else { None }
}
