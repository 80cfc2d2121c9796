//! Calls of `sled_rule`: those of a table one after the other, on an image with one function that
//! prints an A.

ghost use Rattle.std.specs.Prelude.{◌≡◌, ◌≤◌, length, IfOk};
ghost use Rattle.sled_words.specs.Words.{word_count};
ghost use Rattle.sled_rule.specs.Plans.{IsCodeIn};
ghost use Rattle.sled_rule.specs.Seats.{patch_view, script_of, work_view, IsPatcherOf, IsWorkerOf};
ghost use Rattle.sled_rule.specs.Views.{first_patch};

use crate::checks::check_same_list;
use crate::sled_values::PATCHED;
use patch_script::{Micro, read_script};
use sled_rule::{CodeTable, PatchSeat, WorkSeat};
use std::process::Abort;
use std::test::Fail;
use test_helpers::images::OUTPUTS_AN_A;
use text_lines::count_lines;
use xray_image::{Image, read_image};

/// The table of an image under a script for one thread, and its patcher, at the start.
pub fn begin<R: Abort + AllocGlobal>(
    rt: &R,
    image: &Image,
    text: &[u8],
) -> Result<(CodeTable, PatchSeat), Fail>
    ensures own { IfOk result (λ t. IsPatcherOf t.0 t.1) }
    ensures first { IfOk result (λ t. patch_view t.1 ≡ first_patch (script_of t.0)) }
    ensures program { IfOk result (λ t. (script_of t.0).program ≡ image.now) }
    ensures one { IfOk result (λ t. (script_of t.0).threads ≡ 1) }
{
    assert!(rt; count_lines(text) < 100);
    let script = read_script(rt.alloc(), text, image, 1)?;
    let made = CodeTable::new(rt.alloc(), image, script, 1)?;
    Ok(made)
}

/// The table of an image under a script for one thread, and the seats of its patcher and of the
/// thread, at the start.
fn start<R: Abort + AllocGlobal>(
    rt: &R,
    image: &Image,
    text: &[u8],
) -> Result<(CodeTable, PatchSeat, WorkSeat), Fail>
    ensures patcher { IfOk result (λ t. IsPatcherOf t.0 t.1) }
    ensures worker { IfOk result (λ t. IsWorkerOf t.0 t.2) }
    ensures given { IfOk result (λ t. (patch_view t.1).given ≡ 1) }
    ensures thread { IfOk result (λ t. (work_view t.2).thread ≡ 1) }
    ensures going { IfOk result (λ t. (work_view t.2).count ≡ 0) }
{
    let (table, mut seat) = begin(rt, image, text)?;
    assert!(rt; table.is_at_start(&seat));
    let worker = table.split(&mut seat);
    Ok((table, seat, worker))
}

/// Makes `stores` stores. They are what the script says next.
fn store(rt: &impl Abort, table: &CodeTable, seat: &mut PatchSeat, stores: u32)
    requires { IsPatcherOf table.now seat.old }
    ensures own { IsPatcherOf table.now seat.new }
    ensures given { (patch_view seat.new).given ≡ (patch_view seat.old).given }
{
    for _ in 0..stores {
        match table.next_micro(seat) {
            Micro::Store { .. } => table.store_next(seat),
            Micro::Await { .. } | Micro::End => panic!(rt; "no store"),
        }
    }
}

/// Looks at an await. It is what the script says next.
fn look(rt: &impl Abort, table: &CodeTable, seat: &mut PatchSeat) -> bool
    requires { IsPatcherOf table.now seat.old }
    ensures own { IsPatcherOf table.now seat.new }
{
    match table.next_micro(seat) {
        Micro::Await { .. } => table.look(seat),
        Micro::Store { .. } | Micro::End => panic!(rt; "no await"),
    }
}

/// Ends the only thread and the table.
fn finish(table: CodeTable, mut seat: PatchSeat, mut worker: WorkSeat, into: &mut [u64])
    requires own { IsPatcherOf table seat }
    requires own_worker { IsWorkerOf table worker }
    requires one { (patch_view seat).given ≡ 1 }
    requires thread { (work_view worker).thread ≡ 1 }
    requires going { (work_view worker).count ≡ 0 }
    requires room { length into.old ≡ word_count (script_of table).program (script_of table).threads }
{
    table.ended(&mut worker);
    table.meet(&mut seat, worker);
    table.close(seat, into);
}

/// The head of the first sled, as a thread finds it after hearing of all stores so far.
fn heard_head(table: &CodeTable, patcher: &mut PatchSeat, worker: &mut WorkSeat) -> u64
    requires patcher { IsPatcherOf table.now patcher.old }
    requires worker { IsWorkerOf table.now worker.old }
    requires some { IsCodeIn (script_of table.now) 0 }
    ensures worker { IsWorkerOf table.now worker.new }
    ensures heard { (patch_view patcher.old).place ≤ (work_view worker.new).seen }
{
    let note = table.note(patcher);
    table.hear(worker, note);
    table.fetch(worker, 0)
}

#[test]
fn a_thread_that_hears_a_note_fetches_nothing_older(rt: HostRuntime) -> Result<(), Fail> {
    let image = read_image(rt.alloc(), &OUTPUTS_AN_A)?;
    let (table, mut seat, mut worker) = start(&rt, &image, b"go\npatch\n")?;
    assert!(rt; table.is_code_word(0));
    store(&rt, &table, &mut seat, 4);
    assert!(rt; heard_head(&table, &mut seat, &mut worker) == 0xBA41);
    Ok(())
}

#[test]
fn the_last_words_are_those_of_the_script_and_the_counts(rt: HostRuntime) -> Result<(), Fail> {
    let image = read_image(rt.alloc(), &OUTPUTS_AN_A)?;
    let (table, mut seat, worker) = start(&rt, &image, b"go\npatch\n")?;
    assert!(rt; table.word_count() == 13);
    store(&rt, &table, &mut seat, 8);
    let mut last = [0; 13];
    finish(table, seat, worker, &mut last);
    check_same_list(&rt, &last[..8], PATCHED.as_slice());
    check_same_list(&rt, &last[8..], [0, 0, 0, u64::MAX, 0].as_slice());
    Ok(())
}

#[test]
fn an_await_is_passed_once_the_thread_has_made_its_passings(rt: HostRuntime) -> Result<(), Fail> {
    let image = read_image(rt.alloc(), &OUTPUTS_AN_A)?;
    let (table, mut seat, mut worker) = start(&rt, &image, b"go\nawait 1 1\npatch\n")?;
    assert!(rt; !look(&rt, &table, &mut seat));
    assert!(rt; seat.place() == 0);
    table.passed(&mut worker);
    let tally = table.tally(&mut worker);
    table.heed(&mut seat, tally);
    assert!(rt; look(&rt, &table, &mut seat));
    assert!(rt; seat.place() == 1);
    Ok(())
}
