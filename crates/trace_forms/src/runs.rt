//! Events as blocks, a block for each run of events of one thread and one process.

ghost use Rattle.std.specs.Prelude.{◌≡◌, ◌==◌, ◌&&◌, [], ◌∷◌, ◌++◌, List, IfOk, OnOk};
ghost use Rattle.fdr_file.specs.ThreadEvents.{ThreadEvent, event_given};
ghost use Rattle.trace_forms.specs.Runs.{runs};

use fdr_file::{Block, Events};
use fdr_record::Event;
use std::alloc::{AllocError, Global};
use std::mem;
use xray_io::Wall;

/// The wall time of these blocks, for which no event says one.
const NO_WALL: Wall = Wall { secs: 0, micros: 0 };

/// Blocks that are made of events, which come one after the other.
#[derive(Drop)]
pub(crate) struct RunBlocks {
    /// The blocks before the last one.
    blocks: Vec<Block>,
    /// The thread and the process of the last one.
    thread: u32,
    pid: u32,
    /// Its events. There are none before the first event of all.
    events: Vec<Event>,
}

impl RunBlocks {
    ghost use Rattle.trace_forms.specs.private.RunBlocks.{HoldsRuns, TakesNext, blocks_so_far};

    /// No blocks.
    pub(crate) fn new(alloc: Global) -> RunBlocks
        ensures { HoldsRuns result [] }
    {
        RunBlocks {
            blocks: Vec::new(alloc),
            thread: 0,
            pid: 0,
            events: Vec::new(alloc),
        }
    }

    /// Ends the last block.
    fn end_run(&mut self, alloc: Global) -> Result<(), AllocError>
        ensures { OnOk result ((self.new.blocks.items ≡ blocks_so_far self.old)
            × (self.new.events.items ≡ [])) }
    {
        if self.events.is_empty() {
            return Ok(());
        }
        let events = mem::replace(&mut self.events, Vec::new(alloc));
        self.blocks.push(Block {
            thread: self.thread,
            wall: NO_WALL,
            pid: self.pid,
            events: Events::new(events),
        })?;
        Ok(())
    }

    /// Whether events of this thread and this process go on with the last block.
    fn goes_on(&self, thread: u32, pid: u32) -> bool
        ensures { result ≡ (thread == self.now.thread) && (pid == self.now.pid) }
    {
        thread == self.thread && pid == self.pid
    }

    /// Makes the last block one of this thread and this process, to which the next event belongs.
    fn turn_to(&mut self, alloc: Global, thread: u32, pid: u32) -> Result<(), AllocError>
        ensures { OnOk result ((events : List ThreadEvent) → HoldsRuns self.old events
            → TakesNext self.new events thread pid) }
    {
        if self.goes_on(thread, pid) {
            return Ok(());
        }
        self.end_run(alloc)?;
        self.thread = thread;
        self.pid = pid;
        Ok(())
    }

    /// Adds an event after the others. It begins a block if it is of another thread or process than
    /// the last one.
    pub(crate) fn add(
        &mut self,
        alloc: Global,
        thread: u32,
        pid: u32,
        event: Event,
    ) -> Result<(), AllocError>
        ensures { OnOk result ((events : List ThreadEvent) → HoldsRuns self.old events
            → HoldsRuns self.new (events ++ event_given (thread, pid, event) ∷ [])) }
    {
        self.turn_to(alloc, thread, pid)?;
        self.events.push(event)?;
        Ok(())
    }

    /// The blocks.
    pub(crate) fn finish(mut self, alloc: Global) -> Result<Vec<Block>, AllocError>
        ensures { IfOk result (λ blocks. (events : List ThreadEvent) → HoldsRuns self events
            → blocks.items ≡ runs events) }
    {
        self.end_run(alloc)?;
        Ok(self.blocks)
    }
}
