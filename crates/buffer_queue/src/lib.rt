//! One pool of buffers that all threads of a run share, without a lock.
//!
//! Each thread has a `PoolPass` and one buffer in hand. When the hand is full, the thread seals it: it
//! puts it at the back of the pool's queue and takes the buffer at the front. After the threads have
//! ended, `drain` gives what is queued. `law` has the rule that all of it keeps between any two steps,
//! and `view` has what a pass knows.
#![tactic(auto)]

mod draining;
mod law;
mod pass;
mod pool;
mod stocking;
mod turning;
mod view;

pub use pass::PoolPass;
pub use pool::Pool;
