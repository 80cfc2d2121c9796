//! A name of a desk as a sink.
ghost use Rattle.std.specs.Prelude.{◌≡◌};

use crate::{Desk, Failed, Sink};

/// A sink that writes at the end of what one name of a desk holds. The first write begins a name
/// that isn't held; until then the name holds no bytes. The faults are those of the desk's writes.
#[derive(Drop)]
pub struct DeskFile<'a, D> {
    desk: &'a mut D,
    name: &'a str,
}

impl<'a, D: Desk> DeskFile<'a, D> {
    ghost use Rattle.xray_io.specs.DeskFile.{desk_of, desk_loan, name_of};

    /// A sink that writes at the end of this name.
    pub fn new(desk: &'a mut D, name: &'a str) -> Self
        ensures desk { desk_of result ≡ desk.old }
        ensures loan { desk_loan result ≡ desk.entry.ghost_name }
        ensures name { name_of result ≡ name.now }
    {
        DeskFile { desk, name }
    }
}

impl<D: Desk> Sink for DeskFile<'_, D> {
    ghost use Rattle.xray_io.specs.DeskFile.{desk_of, name_of, bytes_held, AppendsAlong, appends_nothing, appends_both};

    ghost written = { λ file. bytes_held (D.held (desk_of file) (name_of file)) };

    ghost faults = { λ file. D.write_faults (desk_of file) };

    ghost along = { AppendsAlong D.held D.read_faults D.along };

    fn write(&mut self, bytes: &[u8]) -> Result<usize, Failed> {
        self.desk.append(self.name, bytes)
    }

    ghost along_none = { appends_nothing D.held D.read_faults D.along D.along_none };

    ghost along_both = { appends_both D.held D.read_faults D.along D.along_both };
}
