//! Logs that LLVM's runtime writes of a program compiled with `-fxray-instrument`, and the traces
//! that they are imported as. `import_log` reads a log of either mode and makes the file of a trace.
//! The formats are those of `xray_fdr_log_records.h`, `xray_fdr_logging.cpp` and
//! `xray_basic_logging.cpp` of LLVM's compiler-rt.
//!
//! `version` and `own_event` have what differs from one version to the next, and `argument` the
//! arguments behind entries. `walk` goes through the
//! records of a block of the Flight Data Recorder mode, over the step of `fdr_file`. `stretch` has the
//! function records that are passed and packed many at a time. `basic` reads the records of the basic
//! mode, and `threads` puts its passings in the order of threads. `reading` makes a list of all blocks,
//! `taken` chooses and orders those that are taken, `packing` writes their events as blocks of a trace,
//! `notes` takes what they say, and `facts` is what is said of all this.
#![tactic(auto)]

mod argument;
mod basic;
mod blocks;
mod facts;
mod fault;
mod import;
mod laws;
mod notes;
mod own_event;
mod packing;
mod reading;
mod refusal;
mod stretch;
mod taken;
mod threads;
mod version;
mod walk;

pub use facts::Facts;
pub use fault::LogFault;
pub use import::{ImportedLog, import_log};
pub use laws::{
    a_log_is_read, a_trace_in_order_is_imported_as_itself, an_import_reads_back,
    each_block_is_taken_once, one_import, printed_numbers_are_meant,
    printed_numbers_of_a_basic_log_are_meant, some_import,
    the_threads_of_a_basic_log_keep_their_order, threads_keep_their_events, traces_are_logs,
    what_is_read_is_a_log,
};
