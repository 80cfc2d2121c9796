//! Why an audit has no order.

use fault_words::{Fault, Words};
use thiserror::Error;

/// Why the run of an audit has no order. If several refusals apply, it is the first of them, with the
/// least thread. Threads count from 1.
#[derive(Clone, Copy, Debug, PartialEq, Eq, Error)]
pub enum OrderFault {
    /// This thread's end, or the number of its passings, isn't that of its plain run.
    #[error("thread {0} doesn't end as it is said to")]
    Ends(u32),
    /// This thread doesn't have a mark for each of its passings, or no loads that follow the script
    /// give these marks.
    #[error("the marks of thread {0} don't follow the script")]
    Marks(u32),
    /// The order has more than 1,048,576 lines.
    #[error("the order has too many lines for a schedule")]
    Long,
    /// Memory for the order was refused.
    #[error("out of memory")]
    NoMemory,
}

/// A refused allocation ends the ordering.
impl<E: Into<xray_io::NoMemory> + Drop> From<E> for OrderFault {
    ghost use Rattle.std.specs.Prelude.{◌≡◌};
    ghost use Rattle.run_order.specs.declared.fault.OrderFault.TheVariants as faults;

    ghost from_gives = { λ _ fault. fault ≡ faults.NoMemory };

    fn from(_error: E) -> OrderFault {
        OrderFault::NoMemory
    }
}

impl Fault for OrderFault {
    ghost use Rattle.run_order.specs.FaultWords.{order_words};

    ghost told = { order_words };

    fn refusal(&self) -> Option<Words<'static>> {
        match *self {
            OrderFault::Ends(thread) => Some(Words::numbered(b"Ends ", thread)),
            OrderFault::Marks(thread) => Some(Words::numbered(b"Marks ", thread)),
            OrderFault::Long => Some(Words::name(b"Long")),
            OrderFault::NoMemory => None,
        }
    }
}
