//! What runs and replays of the tests are made with.

use machine_step::{Limits, Setup};
use xray_io::Wall;

/// The limits of the threads unless a test says otherwise.
pub const DEFAULT_LIMITS: Limits = Limits {
    fuel: 10_000_000,
    passings: 1_048_576,
    tick: 1,
    tsc: 0,
    cpus: 1,
    migrate: 1_048_576,
};

/// The setup of one thread unless a test says otherwise.
pub const DEFAULT_SETUP: Setup = Setup {
    threads: 1,
    size: 16_384,
    max: 100,
    limits: DEFAULT_LIMITS,
    pid: 1,
    wall: Wall { secs: 0, micros: 0 },
    frequency: 0,
};
