//! Traces of events that a test lists, for [`accounts`](crate::accounts).

ghost use Rattle.std.specs.Prelude.{◌≡◌, length, IfOk};

use fdr_file::{Block, Blocks, Events, Header, Trace};
use fdr_record::{Event, Kind};
use std::alloc::Global;
use std::test::Fail;
use xray_io::{MemSink, Printed, Wall, write_text};

/// An event: its thread, its kind, its function and its counter.
pub type Said = (u32, Kind, u32, u64);

/// Three calls of one function, each made in the one before. The outermost has no exit.
pub const NESTED: [Said; 5] = [
    (1, Kind::Entry, 1, 0),
    (1, Kind::Entry, 1, 10),
    (1, Kind::Entry, 1, 20),
    (1, Kind::Exit, 1, 30),
    (1, Kind::Exit, 1, 45),
];

/// Two threads whose events take turns. Each exit ends a call of its own thread. The exit of 7 in
/// thread 2 ends the call of 9 too.
pub const TURNS: [Said; 8] = [
    (1, Kind::Entry, 7, 0),
    (2, Kind::Entry, 7, 100),
    (1, Kind::Entry, 8, 1),
    (2, Kind::Entry, 9, 110),
    (1, Kind::Exit, 8, 4),
    (2, Kind::Exit, 7, 140),
    (1, Kind::Exit, 7, 10),
    (2, Kind::Exit, 9, 150),
];

const HEADER: Header = Header {
    version: 3,
    constant: true,
    nonstop: true,
    frequency: 0,
    size: 16_384,
};

/// A trace with a block for each event.
pub fn trace_of(alloc: Global, events: &[Said]) -> Result<Trace, Fail>
    ensures { IfOk result (λ trace. length trace.blocks ≡ length events.now) }
{
    let mut blocks = Vec::new(alloc);
    for said in events {
        let (thread, kind, func, tsc) = *said;
        let event = Event {
            cpu: 0,
            func,
            kind,
            tsc,
            arg: 0,
        };
        blocks.push(Block {
            thread,
            wall: Wall { secs: 0, micros: 0 },
            pid: 1,
            events: Events::new(Vec::from_slice(alloc, &[event])?),
        })?;
    }
    Ok(Trace {
        header: HEADER,
        blocks: Blocks::new(blocks),
    })
}

/// What is printed of a value.
pub fn printed<T: Printed>(alloc: Global, value: &T) -> Result<String, Fail>
    requires { T.ready value.now }
{
    let mut sink = MemSink::new(alloc, Vec::new(alloc));
    write_text(value, &mut sink)?;
    Ok(String::from_str(alloc, std::str::from_utf8(sink.bytes())?)?)
}
