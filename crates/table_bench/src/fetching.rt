//! Threads that fetch the words of a table.

ghost use Rattle.std.specs.{Prelude.{◌≡◌, ◌+◌, ◌^◌, ◌<◌, ◌≤◌, All, IfOk}, Thread.{IsSync}};
ghost use Rattle.sled_words.specs.Words.{code_word_count};
ghost use Rattle.sled_rule.specs.Plans.{start_in};
ghost use Rattle.sled_rule.specs.Seats.{patch_view, script_of, work_view, IsPatcherOf, IsWorkerOf};
ghost use Rattle.table_bench.specs.private.Fetchers.{IsFresh};

use sled_patch::run_script;
use sled_rule::{CodeTable, PatchSeat, WorkSeat};
use sled_words::MAX_THREADS;
use std::alloc::{AllocError, Global};
use std::sync::Wait;
use std::thread::{self, Threads};
use xray_io::OpenGate;

/// How many words keep what two threads write apart: 128 bytes, since processors fetch cache lines in pairs.
const APART: usize = 16;

/// A thread that fetches.
#[derive(Drop)]
pub struct Fetcher {
    seat: WorkSeat,
    /// Each bit that was 1 in a value that the thread found.
    pub found: u64,
    /// Keeps the fetchers of a list in cache lines of their own.
    apart: [u64; APART],
}

/// A fetcher for each thread, in order.
pub fn seats_of_all(
    alloc: Global,
    table: &CodeTable,
    patcher: &mut PatchSeat,
    threads: u32,
) -> Result<Vec<Fetcher>, AllocError>
    requires own { IsPatcherOf table.now patcher.old }
    requires starts { (patch_view patcher.old).place ≡ start_in (script_of table.now) }
    requires none { (patch_view patcher.old).given ≡ 0 }
    requires few { threads ≤ (script_of table.now).threads }
    ensures own { IsPatcherOf table.now patcher.new }
    ensures fresh { IfOk result (λ fetchers. All (IsFresh table.now) fetchers.items) }
{
    let mut fetchers = Vec::with_capacity(alloc, threads as usize)?;
    'seats: for given in 0..threads {
        let seat = table.split(patcher);
        fetchers.push(Fetcher {
            seat,
            found: 0,
            apart: [0; APART],
        })?;
    }
    Ok(fetchers)
}

/// Lets all threads fetch for some rounds while the patcher makes all micro steps of the script.
pub fn fetch_beside<R: Threads + Wait + Sync>(
    rt: &R,
    table: &CodeTable,
    patcher: PatchSeat,
    fetchers: &mut [Fetcher],
    rounds: u32,
) -> PatchSeat
    requires own { IsPatcherOf table.now patcher }
    requires fresh { All (IsFresh table.now) fetchers.old }
    ensures own { IsPatcherOf table.now result }
{
    let (patcher, ()) = thread::join(
        rt,
        || patch(rt, table, patcher),
        || -> ()
            requires shared { IsSync R.row }
            requires fresh { All (IsFresh table.now) fetchers.now }
        { fetch_all(rt, table, fetchers, rounds) },
    );
    patcher
}

/// Makes all micro steps of the script.
fn patch<R: Wait>(rt: &R, table: &CodeTable, mut patcher: PatchSeat) -> PatchSeat
    requires own { IsPatcherOf table.now patcher }
    ensures own { IsPatcherOf table.now result }
{
    run_script(rt, table, &mut patcher, &OpenGate);
    patcher
}

/// Lets all threads fetch side by side.
fn fetch_all<R: Threads + Sync>(rt: &R, table: &CodeTable, fetchers: &mut [Fetcher], rounds: u32)
    requires fresh { All (IsFresh table.now) fetchers.old }
{
    thread::for_each_mut(
        rt,
        fetchers,
        MAX_THREADS as usize,
        &|_, fetcher| {
            fetch_rounds(table, fetcher, rounds);
        },
    );
}

/// Fetches all words again and again, and counts each round as a passing.
fn fetch_rounds(table: &CodeTable, fetcher: &mut Fetcher, rounds: u32)
    requires { IsFresh table.now fetcher.old }
{
    'rounds: for round in 0..rounds {
        fetcher.found |= fetch_each(table, &mut fetcher.seat);
        table.passed(&mut fetcher.seat);
    }
    table.ended(&mut fetcher.seat);
}

/// Fetches each code word, and returns the bits of all values.
fn fetch_each(table: &CodeTable, seat: &mut WorkSeat) -> u64
    requires own { IsWorkerOf table.now seat.old }
    ensures own { IsWorkerOf table.now seat.new }
    ensures count { (work_view seat.new).count ≡ (work_view seat.old).count }
{
    // The argument handler's word is the last of all words. The other code words are the first ones.
    let others = table.code_word_count() - 1;
    let mut found = 0;
    'fours: for four in 0..others / 4 {
        found |= fetch_four(table, seat, 4 * four);
    }
    'words: for word in others / 4 * 4..others {
        found |= table.fetch(seat, word);
    }
    found | table.fetch(seat, table.word_count() - 1)
}

/// Fetches four code words, from this one on, and returns the bits of their values.
#[inline(always)]
fn fetch_four(table: &CodeTable, seat: &mut WorkSeat, first: u32) -> u64
    requires own { IsWorkerOf table.now seat.old }
    requires few { first + 4 < 2 ^ 32 }
    requires there { first + 4 < code_word_count (script_of table.now).program (script_of table.now).threads }
    ensures own { IsWorkerOf table.now seat.new }
    ensures count { (work_view seat.new).count ≡ (work_view seat.old).count }
{
    table.fetch(seat, first)
        | table.fetch(seat, first + 1)
        | table.fetch(seat, first + 2)
        | table.fetch(seat, first + 3)
}
