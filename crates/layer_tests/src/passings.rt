//! Passings of threads of [`OUTPUTS_AN_A`](test_helpers::images::OUTPUTS_AN_A), load by load.

use fdr_record::Event;
use machine_step::{Cpu, Want};
use std::test::Fail;

/// A load: the number of the word, and the value that it has.
pub type Load = (u32, u64);

/// The parts of the patched entry sled.
pub const ENTRY: [Load; 4] = [(0, 0xBA41), (1, 1), (2, 0xE8), (3, 0x1F_FFF5)];

/// The parts of the patched exit sled.
pub const EXIT: [Load; 4] = [(4, 0xBA41), (5, 1), (6, 0xE9), (7, 0x1F_FFF3)];

/// The word of the handler, if there is none.
pub const NO_HANDLER: [Load; 1] = [(8, 0)];

/// The words of the handler and of the log's state, if there is a handler and the log records.
pub const RECORDS: [Load; 2] = [(8, 1), (9, 2)];

/// The same words, if there is a handler and the log has ended.
pub const HAS_ENDED: [Load; 2] = [(8, 1), (9, 4)];

/// Lets a thread into its next passing, if it waits for one, and gives it the values of these loads.
/// The thread has to want them in this order. Returns the last event that came.
pub fn pass(cpu: &mut Cpu, loads: &[Load]) -> Result<Option<Event>, Fail> {
    if let Want::Gate(_) = cpu.want() {
        cpu.opened();
    }
    let mut event = None;
    for (word, value) in loads {
        match cpu.want() {
            Want::Load(wanted) if wanted == *word && cpu.allowed(*value) => {
                event = cpu.give(*value);
            }
            _ => Err("another word or value")?,
        }
    }
    Ok(event)
}
