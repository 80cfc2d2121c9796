//! The numbers of the words.

ghost use Rattle.std.specs.Prelude.{◌≡◌, ◌<◌, ◌≤◌, ◌^◌, length};
ghost use Rattle.sled_words.specs.Words.{arg_handler_word, handler_word, release_word, state_word, word_count, word_of};

use crate::{MAX_THREADS, Part};
use xray_image::Image;

/// How many words a sled has: one for each part.
pub const PARTS: u32 = 4;

/// The number of the word of a sled's part. A sled has four words, in the order of its bytes.
pub fn word_of(sled: u32, part: Part) -> u32
    requires { sled < 2 ^ 30 }
    ensures { result ≡ word_of sled part }
{
    PARTS * sled + part as u32
}

/// The number of the word that says whether a handler is set, 1 or 0. It is the first word after
/// those of the sleds.
pub fn handler_word(image: &Image) -> u32
    requires { length image.now.sleds < 2 ^ 30 }
    ensures { result ≡ handler_word image.now }
{
    PARTS * image.sled_count()
}

/// The number of the word that holds the log's state, a `LogState`. It comes after the handler's.
pub fn state_word(image: &Image) -> u32
    ensures { result ≡ state_word image.now }
{
    PARTS * image.sled_count() + 1
}

/// The number of the word that lets a held thread go on. Threads count from 1. Their release words
/// come after the state's, in the order of the threads.
pub fn release_word(image: &Image, thread: u32) -> u32
    requires { thread ≤ MAX_THREADS }
    ensures { result ≡ release_word image.now thread }
{
    PARTS * image.sled_count() + 1 + thread
}

/// The number of the word that says whether an argument handler is set, 1 or 0. It comes after all
/// other words of this many threads.
pub fn arg_handler_word(image: &Image, threads: u32) -> u32
    requires { threads ≤ MAX_THREADS }
    ensures { result ≡ arg_handler_word image.now threads }
{
    PARTS * image.sled_count() + 2 + 2 * threads
}

/// How many words there are for this many threads: those of the sleds, of the two handlers and of
/// the state, and two for each thread.
pub fn word_count(image: &Image, threads: u32) -> usize
    requires { threads ≤ MAX_THREADS }
    ensures { result ≡ word_count image.now threads }
{
    arg_handler_word(image, threads) as usize + 1
}
