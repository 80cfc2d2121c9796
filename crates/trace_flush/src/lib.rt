//! The end of a traced run: what is written once all threads have ended. The audit says what the
//! run was made with, and how its threads ended. A summary says less. The trace has the buffers in the
//! order of a flush.
#![tactic(auto)]

mod audit;
mod header;
mod laws;
mod line;
mod order;
mod summary;

pub use audit::{Audit, write_audit};
pub use header::trace_header;
pub use laws::{
    a_run_is_audited, a_run_is_traced, a_trace_is_short, audit_tells_its_run, one_run_of_an_audit,
};
pub use line::{AuditLine, add_audit_lines};
pub use order::arrange;
pub use summary::add_summary;
