//! Bytes in and out: a desk of named inputs and outputs, a sink that takes bytes, texts of numbers,
//! and the gate that a traced thread passes. Each device is a trait whose clauses say what it holds
//! and how many of its calls have failed. There is a desk and a sink in memory, and a desk and
//! sinks over the system.
#![tactic(auto)]

mod desk;
mod desk_file;
mod digits;
mod faults;
mod feed;
mod gate;
mod memory;
mod outputs;
mod piece;
mod sink;
mod system;
mod text;
mod waiting;
mod wall;
mod whole;

pub use desk::Desk;
pub use desk_file::DeskFile;
pub use faults::{Failed, NoMemory, ReadError, ReadFail, WriteFault};
pub use feed::Feed;
pub use gate::{Gate, OpenGate};
pub use memory::{MemDesk, MemSink};
pub use outputs::write_output;
pub use piece::Piece;
pub use sink::Sink;
pub use system::{ErrSink, FileDesk, OutSink};
pub use text::{Each, Printed, Text, write_text};
pub use wall::Wall;
pub use whole::{read_pieces, read_whole, write_all};
