//! Traced threads that run while one patcher patches the sleds that they pass.
//!
//! A `Worker` is one thread. It makes the loads that its `Cpu` wants by its seat of a code table,
//! and notes its events in a recorder. An `FdrRecorder` is a recorder over the buffers of a pool that
//! all threads share. `run_threads` runs the script and all workers, each in a thread.
//!
//! A whole run is two calls. `new` of `ReadyThreads` or `ReadyRun` takes all memory, and starts no
//! thread. `go` starts the threads through a `Starter`, and can't run out of memory.
#![tactic(auto)]

mod exchange;
mod laws;
mod recorded;
mod recorder;
mod running;
mod starter;
mod thread;
mod whole;
mod work;
mod worker;

pub use recorded::{ReadyThreads, RecordedEnd, run_recorded};
pub use recorder::FdrRecorder;
pub use running::run_threads;
pub use starter::Starter;
pub use thread::new_cpu;
pub use whole::{ReadyRun, RunEnd, run};
pub use worker::{Turn, Worker};
