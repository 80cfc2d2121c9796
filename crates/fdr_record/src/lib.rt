//! Events, as the passings of patched sleds record them, and the records of LLVM XRay's Flight Data
//! Recorder mode that say them. `put_rec` writes a record's bytes, and `take_rec` reads the record
//! at a place. The layout is that of `xray_fdr_log_records.h` of LLVM's compiler-rt, and of "XRay
//! Flight Data Recorder Trace Format" in its documentation.
#![tactic(auto)]

mod event;
mod fault;
mod laws;
mod layout;
mod reading;
mod rec;
mod recorder;
mod writing;

pub use event::{Event, Kind};
pub use fault::RecFault;
pub use laws::{a_record_reads_back, one_answer, one_record};
pub use layout::{FUNCTION_BYTES, METADATA_BYTES};
pub use reading::take_rec;
pub use rec::{Rec, rec_len};
pub use recorder::Recorder;
pub use writing::put_rec;
