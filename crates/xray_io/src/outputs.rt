//! Outputs: names of a desk that are created and then written.
ghost use Rattle.xray_io.specs.Outputs.{AppendsText, MakesOutput};

use crate::{Desk, DeskFile, Printed, WriteFault, write_text};

/// Creates `name`, whether the desk held it before or not, and writes a text to it.
///
/// On `WriteFault`, if the creation failed, the name holds what it held before. Otherwise it holds
/// a prefix of the text. The desk counted a fault of writing. It wasn't called again after the
/// call that failed.
pub fn write_output<D: Desk, P: Printed>(
    desk: &mut D,
    name: &str,
    text: &P,
) -> Result<(), WriteFault>
    requires { P.ready text.now }
    ensures { MakesOutput D.held D.read_faults D.write_faults D.along
        desk.old desk.new name.now (P.text text.now) result }
{
    match desk.create(name) {
        Ok(()) => append_text(desk, name, text),
        Err(_) => Err(WriteFault),
    }
}

/// Writes a text at the end of what a name holds.
fn append_text<D: Desk, P: Printed>(desk: &mut D, name: &str, text: &P) -> Result<(), WriteFault>
    requires { P.ready text.now }
    ensures { AppendsText D.held D.read_faults D.write_faults D.along
        desk.old desk.new name.now (P.text text.now) result }
{
    let mut file = DeskFile::new(desk, name);
    write_text(text, &mut file)
}
