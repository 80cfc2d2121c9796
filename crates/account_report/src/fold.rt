//! An account of blocks that come one after the other.

ghost use Rattle.std.specs.{Prelude.{◌≡◌, ◌≤◌, ◌++◌, ℕ, [], ◌∷◌, List, nat_eq, map, IfOk, OnOk, OnErr}, List.{IsDistinct}};
ghost use Rattle.xray_io.specs.Faults.{Rose};
ghost use Rattle.fdr_file.specs.declared.trace.Block.{Block};
ghost use Rattle.fdr_file.specs.Scanning.{empty_block, longer_block};
ghost use Rattle.account_report.specs.{Account.{account_of}, AccountText.{latencies_of}};
ghost use Rattle.account_report.specs.private.{Folding.{Folds}, Tallies.{standing_in}};

use crate::report::{latencies, rows_from};
use crate::row::AccountRow;
use crate::tallies::Tallies;
use fdr_file::Taker;
use fdr_record::Event;
use stack_rebuild::ThreadCalls;
use std::alloc::Global;
use std::collections::HashMap;
use std::mem;
use xray_io::{NoMemory, Wall};

/// Takes blocks and their events, and keeps what an account says of them. It keeps no events: its
/// memory is that of the functions, of the threads with their open calls, and 8 bytes for each pair.
#[derive(Drop)]
pub struct AccountFold {
    alloc: Global,
    /// The thread of the last block.
    thread: u32,
    /// Its calls.
    calls: ThreadCalls,
    /// Those of the other threads.
    threads: HashMap<u32, ThreadCalls>,
    tallies: Tallies,
    refused: u64,
}

/// Counts a refusal, if there is one.
fn counted(refused: u64, answer: Result<(), NoMemory>) -> u64
    ensures rose { OnErr answer (Rose refused result) }
    ensures later { refused ≤ result }
{
    match answer {
        Ok(()) => refused,
        Err(_) => refused.saturating_add(1),
    }
}

/// Takes the calls of a thread out of the table.
fn take_out(alloc: Global, threads: &mut HashMap<u32, ThreadCalls>, thread: u32) -> ThreadCalls
    ensures taken { result ≡ standing_in threads.old thread }
    ensures others { (other : ℕ) → (thread ≡ other → ⊥)
        → standing_in threads.new other ≡ standing_in threads.old other }
{
    match threads.remove(&thread) {
        Some(calls) => calls,
        None => ThreadCalls::new(alloc),
    }
}

impl AccountFold {
    /// A fold that took no block.
    pub fn new(alloc: Global) -> AccountFold
        ensures { ⟦<AccountFold as Taker>⟧.took result [] }
    {
        AccountFold {
            alloc,
            thread: 0,
            calls: ThreadCalls::new(alloc),
            threads: HashMap::new(alloc),
            tallies: Tallies::new(alloc),
            refused: 0,
        }
    }

    /// The account of the blocks: a row for each function that has an event, in ascending order of
    /// ids. And how many functions have a pair. `NoMemory` means that an allocation was refused.
    pub fn rows(self) -> Result<(Vec<AccountRow>, u64), NoMemory>
        ensures rows { IfOk result (λ x. (blocks : List Block)
            → ⟦<AccountFold as Taker>⟧.took self blocks → x.0.items ≡ account_of blocks) }
        // As `order_rows` asks for.
        ensures distinct { IfOk result (λ x. (blocks : List Block)
            → ⟦<AccountFold as Taker>⟧.took self blocks
            → IsDistinct nat_eq (map (λ row. row.func) x.0.items)) }
        ensures latencies { IfOk result (λ x. x.1 ≡ latencies_of x.0.items) }
    {
        let rows = rows_from(self.alloc, self.tallies)?;
        let with_pairs = latencies(&rows);
        Ok((rows, with_pairs))
    }

    /// Goes to a thread.
    fn go_to(&mut self, thread: u32) -> Result<(), NoMemory>
        ensures gone { OnOk result ((blocks : List Block) (last : Block) → Folds self.old blocks
            → last.thread ≡ thread → last.events ≡ [] → Folds self.new (blocks ++ last ∷ [])) }
        ensures same { self.new.refused ≡ self.old.refused }
    {
        let calls = mem::replace(&mut self.calls, ThreadCalls::new(self.alloc));
        self.threads.insert(self.thread, calls)?;
        self.calls = take_out(self.alloc, &mut self.threads, thread);
        self.thread = thread;
        Ok(())
    }

    /// Takes an event of the thread at hand.
    #[inline(always)]
    fn add(&mut self, event: &Event) -> Result<(), NoMemory>
        ensures added { OnOk result ((blocks : List Block) (last : Block)
            → Folds self.old (blocks ++ last ∷ [])
            → Folds self.new (blocks ++ longer_block last event.now ∷ [])) }
        ensures same { self.new.refused ≡ self.old.refused }
    {
        let pair = self.calls.take(event)?;
        self.tallies.add(self.alloc, event, &pair)?;
        Ok(())
    }
}

impl Taker for AccountFold {
    ghost took = { Folds };

    ghost refusals = { λ fold. fold.refused };

    fn block(&mut self, thread: u32, _wall: Wall, _pid: u32) -> Result<(), NoMemory> {
        let answer = self.go_to(thread);
        self.refused = counted(self.refused, answer);
        answer
    }

    #[inline(always)]
    fn event(&mut self, event: &Event) -> Result<(), NoMemory> {
        let answer = self.add(event);
        self.refused = counted(self.refused, answer);
        answer
    }
}
