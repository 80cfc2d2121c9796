//! Traces.

ghost use Rattle.std.specs.Prelude.{◌≡◌, ◌++◌, ◌∷◌, [], OnOk};

use crate::Header;
use fdr_record::Event;
use std::marker::Model;
use xray_io::{NoMemory, Wall};

/// Items in order. In contracts they are a list.
#[derive(Drop)]
pub struct Items<X> {
    list: Vec<X>,
}

impl<X> Model for Items<X> {
    ghost use Rattle.std.specs.Prelude.{List};

    ghost Value = { List X };

    ghost view = { λ i. i.list.items };
}

impl<X> Items<X> {
    /// These items.
    pub fn new(list: Vec<X>) -> Items<X>
        ensures { result ≡ list.items }
    {
        Items { list }
    }

    /// The items as a slice.
    pub fn as_slice(&self) -> &[X]
        ensures { result.now ≡ self.now }
    {
        &self.list
    }

    /// The items as the vector that they were made of.
    pub fn into_vec(self) -> Vec<X>
        ensures { result.items ≡ self }
    {
        self.list
    }
}

impl<X: Drop> Items<X> {
    /// Adds an item behind the others.
    pub(crate) fn push(&mut self, item: X) -> Result<(), NoMemory>
        ensures { OnOk result (self.new ≡ self.old ++ item ∷ []) }
    {
        self.list.push(item)?;
        Ok(())
    }
}

/// The events of a block, in order.
pub type Events = Items<Event>;

/// One block of a file: what a thread's buffer said.
#[derive(Drop)]
pub struct Block {
    /// The thread whose buffer it was.
    pub thread: u32,
    /// When the buffer was begun. Reading doesn't check that the microseconds are below 1,000,000.
    pub wall: Wall,
    /// The process that the thread belongs to. Files of version 2 don't say it, and it is 0 then.
    pub pid: u32,
    /// The events, in the order in which they were recorded.
    pub events: Events,
}

/// The blocks of a file, in order.
pub type Blocks = Items<Block>;

/// A trace: what a file says about itself, and its blocks.
#[derive(Drop)]
pub struct Trace {
    /// The file's header.
    pub header: Header,
    /// The file's blocks, in order.
    pub blocks: Blocks,
}
