//! The part of a line that the events of a block on one CPU share.
ghost use Rattle.std.specs.Prelude.{◌≡◌};
ghost use Rattle.yaml_convert.specs.private.Stamps.{stamp_text};

use crate::row::Row;
use std::marker::Model;

/// The text of a line between the name of its function and its kind. It is kept, and made anew only
/// for another CPU, thread or process.
#[derive(Drop)]
pub(crate) struct Stamp {
    cpu: u16,
    thread: u32,
    pid: u32,
    row: Row,
}

impl Model for Stamp {
    ghost use Rattle.std.specs.Prelude.{◌≡◌, ℕ, List};
    ghost use Rattle.yaml_convert.specs.private.Stamps.{stamp_text};

    ghost Value = { List ℕ };

    ghost view = { λ stamp. stamp.row };

    ghost invariant = { λ stamp. stamp.row ≡ stamp_text stamp.cpu stamp.thread stamp.pid };
}

impl Stamp {
    /// The text for this CPU, this thread and this process.
    pub(crate) fn new(cpu: u16, thread: u32, pid: u32) -> Self
        ensures { result ≡ stamp_text cpu thread pid }
    {
        let mut row = Row::new();
        row.put(b", kind: ");
        row.put_number(u64::from(pid));
        row.put(b", process: ");
        row.put_number(u64::from(thread));
        row.put(b", thread: ");
        row.put_number(u64::from(cpu));
        row.put(b"', cpu: ");
        Stamp {
            cpu,
            thread,
            pid,
            row,
        }
    }

    /// Makes it the text for this CPU, this thread and this process.
    #[inline]
    pub(crate) fn renew(&mut self, cpu: u16, thread: u32, pid: u32)
        ensures { self.new ≡ stamp_text cpu thread pid }
    {
        if cpu != self.cpu || thread != self.thread || pid != self.pid {
            *self = Stamp::new(cpu, thread, pid);
        }
    }

    /// The text.
    #[inline]
    pub(crate) fn as_slice(&self) -> &[u8]
        ensures { result.now ≡ self.now }
    {
        self.row.as_slice()
    }
}
