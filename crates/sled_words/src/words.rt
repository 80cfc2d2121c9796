//! The values of the words before the first command of a script.

ghost use Rattle.std.specs.Prelude.{◌≡◌, ◌≤◌, IfOk};
ghost use Rattle.sled_words.specs.Parts.{initial_words, sled_words};

use crate::value::unpatched_value;
use crate::{PARTS, Part};
use std::alloc::Global;
use xray_image::{Image, Sled};
use xray_io::NoMemory;

/// The most threads that run at once.
pub const MAX_THREADS: u32 = 16;

/// All words for `threads` threads, before a script's first store. Each sled has its unpatched
/// head, id, opcode and offset. Then there are zeros for the handler's word, the state's, two words
/// per thread, and the argument handler's word.
///
/// `NoMemory` means that an allocation was refused.
pub fn initial_words(alloc: Global, image: &Image, threads: u32) -> Result<Vec<u64>, NoMemory>
    requires { threads ≤ MAX_THREADS }
    ensures { IfOk result (λ words. words.items ≡ initial_words image.now threads) }
{
    let sleds = image.sled_count();
    let others = 3 + 2 * threads as usize;
    let mut words = Vec::with_capacity(alloc, (PARTS * sleds) as usize + others)?;
    for k in 0..sleds {
        words.extend_from_slice(&unpatched_words(image.sled(k)))?;
    }
    words.resize(words.len() + others, 0)?;
    Ok(words)
}

/// The words of a sled, as the image file has them.
fn unpatched_words(sled: Sled) -> [u64; PARTS as usize]
    ensures { result ≡ sled_words sled }
{
    [
        unpatched_value(sled, Part::Head),
        unpatched_value(sled, Part::Id),
        unpatched_value(sled, Part::Opcode),
        unpatched_value(sled, Part::Offset),
    ]
}
