//! What takes the blocks and events of a trace, one after the other.

ghost use Rattle.std.specs.Prelude.{◌≡◌, ◌≤◌, ℕ, ⊤, [], ◌∷◌, ◌++◌, List, OnOk, OnErr};
ghost use Rattle.xray_io.specs.Faults.{Rose};
ghost use Rattle.fdr_file.specs.declared.trace.Block.{Block};
ghost use Rattle.fdr_file.specs.Scanning.{empty_block, longer_block};

use crate::Block;
use fdr_record::Event;
use xray_io::{NoMemory, Wall};

/// What takes the blocks and events of a trace, in the order of the file. After `NoMemory` nothing
/// but the count of refusals is said of it, and no call may be made on it.
pub trait Taker {
    /// The taker stands for these blocks. It may stand for several lists. A taker that keeps nothing
    /// stands for each.
    ghost took: { Self → List Block → Type 0 };

    /// How many times memory was refused, up to 2^64 - 1.
    ghost refusals: { Self → ℕ };

    /// Takes a block without events, after the others.
    fn block(&mut self, thread: u32, wall: Wall, pid: u32) -> Result<(), NoMemory>
        ensures took { OnOk result ((blocks : List Block) → took self.old blocks
            → took self.new (blocks ++ empty_block thread wall pid ∷ [])) }
        ensures refused { OnErr result (Rose (refusals self.old) (refusals self.new)) }
        ensures later { refusals self.old ≤ refusals self.new };

    /// Takes an event of the last block, after its other events. A block has to be taken before.
    fn event(&mut self, event: &Event) -> Result<(), NoMemory>
        requires begun { (blocks : List Block) × (last : Block) × took self.old (blocks ++ last ∷ []) }
        ensures took { OnOk result ((blocks : List Block) (last : Block)
            → took self.old (blocks ++ last ∷ [])
            → took self.new (blocks ++ longer_block last event.now ∷ [])) }
        ensures refused { OnErr result (Rose (refusals self.old) (refusals self.new)) }
        ensures later { refusals self.old ≤ refusals self.new };
}

/// Keeps nothing, and so stands for any blocks. It never refuses.
#[derive(Clone, Copy, Drop)]
pub struct KeepNothing;

impl Taker for KeepNothing {
    ghost took = { λ _ _. ⊤ };

    ghost refusals = { λ _. 0 };

    fn block(&mut self, _thread: u32, _wall: Wall, _pid: u32) -> Result<(), NoMemory> {
        Ok(())
    }

    fn event(&mut self, _event: &Event) -> Result<(), NoMemory> {
        Ok(())
    }
}
