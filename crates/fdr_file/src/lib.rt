//! Trace files of LLVM XRay's Flight Data Recorder mode, versions 2 and 3: a header, and a block for
//! each buffer that was flushed. `read_trace` reads a whole file, and `write_file` writes one. The
//! layout is that of "XRay Flight Data Recorder Trace Format" in LLVM's documentation.
#![tactic(auto)]

mod cursor;
mod events;
mod fault;
mod header;
mod keep;
mod laws;
mod longest;
mod prefix;
mod reading;
mod records;
mod scan;
mod source;
mod stage;
mod taker;
mod trace;
mod version;
mod writing;

pub use cursor::EventCursor;
pub use events::{Argument, Base, Step, take_step};
pub use fault::TraceFault;
pub use header::{CONSTANT, HEADER_BYTES, Header, NONSTOP, header_fields};
pub use laws::{
    a_block_may_follow, a_file_is_read_by_records, a_file_reads_back, a_place_is_decoded,
    a_trace_is_read, no_bytes_are_out_of_memory, prefixes_end_with_blocks, what_is_read_fits,
    what_is_read_is_a_trace,
};
pub use longest::readable;
pub use reading::read_trace;
pub use records::{record_len, record_of};
pub use scan::TraceScan;
pub use source::{EventSource, TraceCursor};
pub use stage::{Inside, Span, Stage, Told, end_among, judge, stage_at, within_events};
pub use taker::{KeepNothing, Taker};
pub use trace::{Block, Blocks, Events, Items, Trace};
pub use version::{VERSION, Version};
pub use writing::{TraceFile, extents, write_file};
