//! The header of a run's trace.

ghost use Rattle.std.specs.Prelude.{◌≡◌};
ghost use Rattle.trace_flush.specs.Flush.{run_header};

use fdr_file::{Header, VERSION};
use machine_step::Setup;

/// The header of the trace of a run with this setup: version 3, a counter that runs at a constant
/// frequency and never stops, that frequency, and the size of a buffer.
pub fn trace_header(setup: &Setup) -> Header
    ensures { result ≡ run_header setup.now }
{
    Header {
        version: VERSION,
        constant: true,
        nonstop: true,
        frequency: setup.frequency,
        size: u64::from(setup.size),
    }
}
