//! The words of an image's sleds, and those of the threads that pass them: what patching stores and
//! passings load.
//!
//! A sled has 11 bytes, in four parts. Each part is a word of its own: a running thread loads it
//! whole, and the patcher stores it whole. The layout is that of LLVM's compiler-rt,
//! `xray_x86_64.cpp`.
#![tactic(auto)]

mod bytes;
mod layout;
mod part;
mod state;
mod value;
mod words;

pub use bytes::code_bytes;
pub use layout::{
    PARTS, arg_handler_word, handler_word, release_word, state_word, word_count, word_of,
};
pub use part::Part;
pub use state::{HANDLER_SET, HELD, LogState, NO_HANDLER, RELEASED};
pub use value::{JUMP_HEAD, PATCHED_HEAD, RETURN_HEAD, part_value};
pub use words::{MAX_THREADS, initial_words};
