//! A taker that keeps all blocks.

ghost use Rattle.std.specs.Prelude.{◌≡◌, ◌≤◌, ◌++◌, ◌∷◌, [], List, OnOk, OnErr};
ghost use Rattle.xray_io.specs.Faults.{Rose};
ghost use Rattle.fdr_file.specs.declared.trace.Block.{Block};

use crate::{Block, Blocks, Events, Taker};
use fdr_record::Event;
use std::alloc::Global;
use xray_io::{NoMemory, Wall};

/// Keeps all blocks with their events.
#[derive(Drop)]
pub(crate) struct KeepAll {
    alloc: Global,
    blocks: Vec<Block>,
    refused: u64,
}

impl KeepAll {
    /// Keeps no blocks yet.
    pub(crate) fn new(alloc: Global) -> KeepAll
        ensures { ⟦<KeepAll as Taker>⟧.took result [] }
    {
        KeepAll {
            alloc,
            blocks: Vec::new(alloc),
            refused: 0,
        }
    }

    /// The blocks that it took.
    pub(crate) fn into_blocks(self) -> Blocks
        ensures { (blocks : List Block) → ⟦<KeepAll as Taker>⟧.took self blocks → result ≡ blocks }
    {
        Blocks::new(self.blocks)
    }

    /// Adds a block.
    fn add_block(&mut self, block: Block) -> Result<(), NoMemory>
        ensures added { OnOk result (self.new.blocks.items ≡ self.old.blocks.items ++ block ∷ []) }
        ensures same { self.new.refused ≡ self.old.refused }
    {
        self.blocks.push(block)?;
        Ok(())
    }
}

/// Counts a refused allocation.
fn refuse(refused: &mut u64, answer: Result<(), NoMemory>) -> Result<(), NoMemory>
    ensures same { result ≡ answer }
    ensures rose { OnErr result (Rose refused.old refused.new) }
    ensures later { refused.old ≤ refused.new }
{
    if answer.is_err() {
        *refused = refused.saturating_add(1);
    }
    answer
}

impl Taker for KeepAll {
    ghost took = { λ keep blocks. keep.blocks.items ≡ blocks };

    ghost refusals = { λ keep. keep.refused };

    fn block(&mut self, thread: u32, wall: Wall, pid: u32) -> Result<(), NoMemory> {
        let block = Block {
            thread,
            wall,
            pid,
            events: Events::new(Vec::new(self.alloc)),
        };
        let answer = self.add_block(block);
        refuse(&mut self.refused, answer)
    }

    fn event(&mut self, event: &Event) -> Result<(), NoMemory> {
        let Some(block) = self.blocks.last_mut() else {
            unreachable!()
        };
        let answer = block.events.push(*event);
        refuse(&mut self.refused, answer)
    }
}
