//! Stacks of blocks that come one by one.

ghost use Rattle.std.specs.Prelude.{◌≡◌, ◌≤◌, ◌<◌, ◌++◌, ◌↔◌, ℕ, List, [], ◌∷◌, length, map, nat_eq, IfErr, IfOk, IsTrue, None, OnErr, OnOk};
ghost use Rattle.std.specs.HashMap.{get};
ghost use Rattle.xray_io.specs.Faults.{Rose};
ghost use Rattle.fdr_record.specs.declared.event.Event.{Event};
ghost use Rattle.fdr_file.specs.declared.trace.Block.{Block};
ghost use Rattle.fdr_file.specs.Scanning.{empty_block, longer_block};
ghost use Rattle.stack_rebuild.specs.private.Folding.{Folds, IsFollowed, IsStack, IsStackOf};
ghost use Rattle.stack_rebuild.specs.Stacks.{IsDeepFault, deep_in, most_open, stack_of, told};

use crate::path_sums::PathSums;
use crate::rows::rows_of;
use crate::stack_row::{StackFault, StackRow};
use crate::thread_stack::ThreadStack;
use fdr_file::{Block, Taker};
use fdr_record::{Event, Kind};
use std::alloc::Global;
use std::collections::HashMap;
use std::mem;
use xray_io::{NoMemory, Wall};

/// The most calls of a thread that may be open at once.
pub const MOST_OPEN: usize = 4096;

/// Takes blocks and their events one by one, and makes the stacks of them all. It keeps the paths and
/// the open calls of each thread, but no event.
#[derive(Drop)]
pub struct StackFold {
    alloc: Global,
    /// The thread of the last block.
    thread: u32,
    /// Its open calls.
    stack: ThreadStack,
    /// Those of the other threads.
    others: HashMap<u32, ThreadStack>,
    sums: PathSums,
    /// The least thread that had too many calls open, if there was one. Only lesser threads are
    /// followed then, since no rows come of it.
    deep: Option<u32>,
    /// How many times memory was refused.
    refused: u64,
}

/// Counts a refusal.
fn refuse(refused: &mut u64, taken: Result<(), NoMemory>)
    ensures rose { OnErr taken (Rose refused.old refused.new) }
    ensures later { refused.old ≤ refused.new }
{
    if taken.is_err() {
        *refused = refused.saturating_add(1);
    }
}

/// Takes the open calls of a thread out of those of all.
fn take_out(alloc: Global, stacks: &mut HashMap<u32, ThreadStack>, thread: u32) -> ThreadStack
    ensures taken { (paths : List (List ℕ)) (history : List Event)
        → IsStackOf (get nat_eq stacks.old thread) paths history → IsStack result paths history }
    ensures others { (other : ℕ) → (thread ≡ other → ⊥)
        → get nat_eq stacks.new other ≡ get nat_eq stacks.old other }
{
    match stacks.remove(&thread) {
        Some(stack) => stack,
        None => ThreadStack::new(alloc),
    }
}

impl StackFold {
    /// A fold of no block.
    pub fn new(alloc: Global) -> StackFold
        ensures { ⟦<StackFold as Taker>⟧.took result [] }
    {
        StackFold {
            alloc,
            thread: 0,
            stack: ThreadStack::new(alloc),
            others: HashMap::new(alloc),
            sums: PathSums::new(alloc),
            deep: None,
            refused: 0,
        }
    }

    /// What `stacks` returns for the blocks that were taken: a row for each path that has a pair, in
    /// ascending order, or why there are none.
    pub fn rows(self) -> Result<Vec<StackRow>, StackFault>
        ensures rows { IfOk result (λ rows. (blocks : List Block)
            → ⟦<StackFold as Taker>⟧.took self blocks → map told rows.items ≡ stack_of blocks) }
        ensures shallow { OnOk result ((blocks : List Block)
            → ⟦<StackFold as Taker>⟧.took self blocks → deep_in most_open blocks ≡ None) }
        ensures deep { IfErr result (λ fault. (blocks : List Block)
            → ⟦<StackFold as Taker>⟧.took self blocks
            → IsDeepFault fault (deep_in most_open blocks)) }
    {
        match self.deep {
            Some(thread) => Err(StackFault::Deep(thread)),
            None => Ok(rows_of(self.alloc, self.sums)?),
        }
    }

    /// Goes to a thread.
    fn go_to(&mut self, thread: u32) -> Result<(), NoMemory>
        ensures gone { OnOk result ((blocks : List Block) (last : Block) → Folds self.old blocks
            → last.thread ≡ thread → last.events ≡ [] → Folds self.new (blocks ++ last ∷ [])) }
        ensures same { self.new.refused ≡ self.old.refused }
    {
        if thread == self.thread {
            return Ok(());
        }
        let next = take_out(self.alloc, &mut self.others, thread);
        let before = mem::replace(&mut self.stack, next);
        self.others.insert(self.thread, before)?;
        self.thread = thread;
        Ok(())
    }

    /// Whether the thread of the last block is followed.
    fn is_followed(&self) -> bool
        ensures { IsTrue result ↔ IsFollowed self.now.deep self.now.thread }
    {
        match self.deep {
            None => true,
            Some(deep) => self.thread < deep,
        }
    }

    /// Takes an event of the last block.
    #[inline(always)]
    fn add(&mut self, event: &Event) -> Result<(), NoMemory>
        requires { (blocks : List Block) × (last : Block) × Folds self.old (blocks ++ last ∷ []) }
        ensures added { OnOk result ((blocks : List Block) (last : Block)
            → Folds self.old (blocks ++ last ∷ [])
            → Folds self.new (blocks ++ longer_block last event.now ∷ [])) }
        ensures same { self.new.refused ≡ self.old.refused }
    {
        if !self.is_followed() {
            return Ok(());
        }
        self.stack.take(&mut self.sums, event)?;
        match event.kind {
            Kind::Entry | Kind::EntryArgs => {
                if self.stack.calls.depth() > MOST_OPEN {
                    self.deep = Some(self.thread);
                }
            }
            Kind::Exit | Kind::TailExit => {}
        }
        Ok(())
    }

    /// Takes a block of a trace, and its events.
    pub(crate) fn add_block(&mut self, block: &Block) -> Result<(), NoMemory>
        requires { (blocks : List Block) × Folds self.old blocks }
        ensures { OnOk result ((blocks : List Block) → Folds self.old blocks
            → Folds self.new (blocks ++ block.now ∷ [])) }
    {
        self.block(block.thread, block.wall, block.pid)?;
        'taking: for event in block.events.as_slice() {
            self.event(event)?;
        }
        Ok(())
    }
}

impl Taker for StackFold {
    ghost took = { Folds };

    ghost refusals = { λ fold. fold.refused };

    fn block(&mut self, thread: u32, _wall: Wall, _pid: u32) -> Result<(), NoMemory> {
        let taken = self.go_to(thread);
        refuse(&mut self.refused, taken);
        taken
    }

    #[inline(always)]
    fn event(&mut self, event: &Event) -> Result<(), NoMemory> {
        let taken = self.add(event);
        refuse(&mut self.refused, taken);
        taken
    }
}
