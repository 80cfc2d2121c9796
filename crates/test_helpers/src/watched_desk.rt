//! A desk that moves one byte a call, and records its reads and its first fault.
ghost use Rattle.std.specs.Prelude.{◌^◌};
ghost use Rattle.xray_io.specs.Desk.{Untold};

use std::alloc::Global;
use xray_io::{Desk, Failed, MemDesk, ReadFail};

/// A call of a desk.
#[derive(Clone, Copy, PartialEq, Eq)]
pub enum DeskCall {
    Read,
    Create,
    Append,
}

/// A call that failed, and the name that it was given.
#[derive(Drop)]
pub struct DeskFault {
    pub call: DeskCall,
    pub name: String,
}

/// The reads of one name so far.
#[derive(Clone, Copy)]
struct Reads {
    next: u64,
    in_order: bool,
    greatest: u64,
}

/// A desk that moves one byte a call. It checks that each read begins where the last one ended, and
/// records the greatest place up to which a read asked. It also records the first call that failed,
/// and counts the calls after that one.
#[derive(Drop)]
pub struct WatchedDesk {
    alloc: Global,
    desk: MemDesk,
    reads: Reads,
    fault: Option<DeskFault>,
    later_calls: u64,
}

impl WatchedDesk {
    /// Over this desk, with its inputs and its faults, before its first call.
    pub fn new(alloc: Global, desk: MemDesk) -> Self {
        WatchedDesk {
            alloc,
            desk,
            reads: Reads {
                next: 0,
                in_order: true,
                greatest: 0,
            },
            fault: None,
            later_calls: 0,
        }
    }

    /// What a name holds.
    pub fn get(&self, name: &str) -> Option<&[u8]> {
        self.desk.get(name)
    }

    /// The place after the last byte that was read.
    pub fn next(&self) -> u64 {
        self.reads.next
    }

    /// Whether each read began where the last one ended. The first one begins at 0.
    pub fn is_in_order(&self) -> bool {
        self.reads.in_order
    }

    /// The greatest place up to which a read asked for bytes.
    pub fn greatest(&self) -> u64 {
        self.reads.greatest
    }

    /// The first call that failed, if one failed.
    pub fn fault(&self) -> Option<&DeskFault> {
        self.fault.as_ref()
    }

    /// How many calls were made after the one that failed.
    pub fn later_calls(&self) -> u64 {
        self.later_calls
    }

    /// Counts a call, if one has failed.
    fn begin(&mut self) {
        if self.fault.is_some() {
            self.later_calls = self.later_calls.saturating_add(1);
        }
    }

    /// Records a call that failed, if it is the first one. If memory runs out, nothing is recorded.
    fn record(&mut self, call: DeskCall, name: &str) {
        if self.fault.is_some() {
            return;
        }
        if let Ok(name) = String::from_str(self.alloc, name) {
            self.fault = Some(DeskFault { call, name });
        }
    }
}

impl Reads {
    /// Notes where a read begins, and for how many bytes it asks.
    fn ask(&mut self, from: u64, count: u64) {
        self.in_order = self.in_order && from == self.next;
        self.greatest = self.greatest.max(from.saturating_add(count));
    }
}

impl Desk for WatchedDesk {
    ghost held = { λ _ _. Untold };

    ghost read_faults = { λ _. 2 ^ 64 };

    ghost write_faults = { λ _. 2 ^ 64 };

    ghost along = { λ _ _ _. Unit {0} };

    ghost along_none = { λ _. tt };

    ghost along_both = { λ _ _ _ _ _ _ _. tt };

    fn read(&mut self, name: &str, from: u64, buf: &mut [u8]) -> Result<usize, ReadFail> {
        self.begin();
        self.reads.ask(from, buf.len() as u64);
        let room = buf.len().min(1);
        match self.desk.read(name, from, &mut buf[..room]) {
            Ok(count) => {
                self.reads.next = from.saturating_add(count as u64);
                Ok(count)
            }
            Err(_) => {
                self.record(DeskCall::Read, name);
                Err(ReadFail::Failed)
            }
        }
    }

    fn create(&mut self, name: &str) -> Result<(), Failed> {
        self.begin();
        match self.desk.create(name) {
            Ok(()) => Ok(()),
            Err(failed) => {
                self.record(DeskCall::Create, name);
                Err(failed)
            }
        }
    }

    fn append(&mut self, name: &str, bytes: &[u8]) -> Result<usize, Failed> {
        self.begin();
        match self.desk.append(name, &bytes[..bytes.len().min(1)]) {
            Ok(count) => Ok(count),
            Err(failed) => {
                self.record(DeskCall::Append, name);
                Err(failed)
            }
        }
    }
}
