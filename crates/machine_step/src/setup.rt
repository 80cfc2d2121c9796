//! What replays and runs are made with.

use crate::limits::Limits;
use xray_io::Wall;

/// What a replay or a run is made with, besides its image and its script. What is asked of it is said
/// once, by `IsSetup` of `specs/Setups.antt`.
#[derive(Clone, Copy)]
pub struct Setup {
    /// How many threads run, from 1 to 16.
    pub threads: u32,
    /// The size of a buffer of events in bytes, from 88 to 1,048,576.
    pub size: u32,
    /// How many buffers there are: at least one per thread, at most 1,024, and no more than fit a
    /// trace file.
    pub max: u32,
    /// The limits of each thread, and how its passings are stamped.
    pub limits: Limits,
    /// The process's number, below 2^31.
    pub pid: u32,
    /// The wall time that is written in each buffer: one for the whole run. LLVM's runtime reads a
    /// clock for each buffer (`setupNewBuffer` of `xray_fdr_controller.h`).
    pub wall: Wall,
    /// The frequency of the counter in cycles per second, as the trace's header says it.
    pub frequency: u64,
}
