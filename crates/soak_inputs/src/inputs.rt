//! The three inputs.
ghost use Rattle.std.specs.Prelude.{◌≡◌, IfOk};
ghost use Rattle.soak_inputs.specs.Inputs.{soak_schedule, soak_script, soak_text};

use crate::draws::Draws;
use crate::schedule::write_schedule;
use crate::script::write_script;
use crate::text::write_text;
use std::alloc::Global;
use xray_io::NoMemory;

/// How many functions the text of each number has. Each of them has an id.
pub const SOAK_FUNCTIONS: u64 = 64;

/// How many threads the schedule of each number is for.
pub const SOAK_THREADS: u32 = 4;

/// The inputs of a number, each as the bytes of its file.
#[derive(Drop)]
pub struct SoakInputs {
    /// The assembler text. It says `SOAK_FUNCTIONS` functions.
    pub text: Vec<u8>,
    /// The script, over the ids of these functions.
    pub script: Vec<u8>,
    /// The schedule of the patcher and `SOAK_THREADS` threads.
    pub schedule: Vec<u8>,
}

/// The assembler text, the script and the schedule of a number. `NoMemory` means that an allocation
/// was refused.
pub fn soak_inputs(alloc: Global, number: u64) -> Result<SoakInputs, NoMemory>
    ensures text { IfOk result (λ inputs. inputs.text.items ≡ soak_text number) }
    ensures script { IfOk result (λ inputs. inputs.script.items ≡ soak_script number) }
    ensures schedule { IfOk result (λ inputs. inputs.schedule.items ≡ soak_schedule number) }
{
    let mut draws = Draws::new(number);
    let text = write_text(alloc, &mut draws)?;
    let script = write_script(alloc, &mut draws)?;
    let schedule = write_schedule(alloc, &mut draws)?;
    Ok(SoakInputs {
        text,
        script,
        schedule,
    })
}
