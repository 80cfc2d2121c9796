//! The plain text of a thread: the line of its end and counts, that of its registers, and that of
//! its output.

ghost use Rattle.std.specs.Prelude.{◌≡◌, ◌++◌, ◌<◌, length, slice_get, Some};
ghost use Rattle.machine_step.specs.PlainEnd.{state_of};
ghost use Rattle.machine_step.specs.Texts.{plain_text, end_text, counts_text, registers_line, printed_registers, output_line, flag_text, line_feed};
ghost use Rattle.xray_io.specs.Text.{AddsText};
ghost use Rattle.xray_io.specs.Writes.{WritesText};

use crate::end::End;
use crate::plain_end::PlainEnd;
use subset_decode::REGISTERS;
use xray_io::{Piece, Printed, Sink, Text, WriteFault, write_text};

/// The end of a thread is printed as its plain text: three lines, each with its line feed. It needs
/// all 16 registers.
impl Printed for PlainEnd {
    ghost text = { λ end. plain_text end.thread end.end (state_of end) };

    ghost ready = { λ end. length end.regs.items ≡ 16 };

    fn add_to<S: Sink>(&self, to: &mut Text<S>) -> Result<(), WriteFault> {
        add_counts(to, self.thread, self.end, self.instructions, self.passings)?;
        add_registers(to, &self.regs, self.zf)?;
        add_output(to, &self.output)
    }
}

/// Writes the plain text of a thread: the line of its end and counts, that of its registers, and that
/// of its output. `regs` has to hold all 16 registers.
///
/// Takes no memory. On `WriteFault` a prefix of the text was written, and the sink counted a fault.
pub fn write_plain<S: Sink>(end: &PlainEnd, sink: &mut S) -> Result<(), WriteFault>
    requires registers { length end.now.regs.items ≡ REGISTERS }
    ensures writes { WritesText S.written S.faults S.along sink.old sink.new
        (plain_text end.now.thread end.now.end (state_of end.now)) result }
{
    write_text(end, sink)
}

/// Adds the line of a thread's end and counts to a text.
pub(crate) fn add_counts<S: Sink>(
    text: &mut Text<S>,
    thread: u32,
    end: End,
    instructions: u64,
    passings: u32,
) -> Result<(), WriteFault>
    ensures { AddsText S.written S.faults S.along text.old text.new
        (counts_text thread end instructions passings) result }
{
    text.pieces(&[
        Piece::Bytes(b"thread "),
        Piece::Number(u128::from(thread)),
        Piece::Bytes(b" "),
        Piece::Bytes(end_name(end)),
        Piece::Bytes(b" instructions "),
        Piece::Number(u128::from(instructions)),
        Piece::Bytes(b" passings "),
        Piece::Number(u128::from(passings)),
        Piece::Bytes(b"\n"),
    ])
}

/// The name of an end, as texts have it.
pub fn end_name(end: End) -> &'static [u8]
    ensures { result.now ≡ end_text end }
{
    match end {
        End::Returned => b"returned",
        End::Fuel => b"fuel",
        End::Passings => b"passings",
        End::OutputFull => b"output-full",
        End::StackFull => b"stack-full",
        End::StackEmpty => b"stack-empty",
        End::BadTarget => b"bad-target",
    }
}

/// Adds the line of a thread's registers and its zero flag to a text. Register n is at place n.
pub(crate) fn add_registers<S: Sink>(
    text: &mut Text<S>,
    registers: &[u64],
    zero_flag: bool,
) -> Result<(), WriteFault>
    requires { length registers.now ≡ REGISTERS }
    ensures { AddsText S.written S.faults S.along text.old text.new
        (registers_line registers.now zero_flag) result }
{
    for place in 0..PRINTED_REGISTERS {
        let (name, number) = printed_register(place);
        text.pieces(&[
            Piece::Bytes(name),
            Piece::Hex {
                number: registers[number],
                digits: 0,
            },
            Piece::Bytes(b" "),
        ])?;
    }
    text.bytes(flag_line(zero_flag))
}

/// How many registers are printed: all but rsp and r10.
const PRINTED_REGISTERS: usize = 14;

/// The register at a place of the line: the text before its value, and its number.
fn printed_register(place: usize) -> (&'static [u8], usize)
    requires { place < PRINTED_REGISTERS }
    ensures row { slice_get printed_registers place ≡ Some (result.0.now, result.1) }
    ensures exists { result.1 < REGISTERS }
{
    match place {
        0 => (b"rax=", 0),
        1 => (b"rcx=", 1),
        2 => (b"rdx=", 2),
        3 => (b"rbx=", 3),
        4 => (b"rbp=", 5),
        5 => (b"rsi=", 6),
        6 => (b"rdi=", 7),
        7 => (b"r8=", 8),
        8 => (b"r9=", 9),
        9 => (b"r11=", 11),
        10 => (b"r12=", 12),
        11 => (b"r13=", 13),
        12 => (b"r14=", 14),
        _ => (b"r15=", 15),
    }
}

/// The end of the registers' line.
fn flag_line(zero_flag: bool) -> &'static [u8]
    ensures { result.now ≡ flag_text zero_flag ++ line_feed }
{
    if zero_flag { b"zf=1\n" } else { b"zf=0\n" }
}

/// Adds the line of a thread's output to a text: two digits per byte, or - if there are none.
pub(crate) fn add_output<S: Sink>(text: &mut Text<S>, output: &[u8]) -> Result<(), WriteFault>
    ensures { AddsText S.written S.faults S.along text.old text.new
        (output_line output.now) result }
{
    if output.is_empty() {
        return text.bytes(b"output -\n");
    }
    text.bytes(b"output ")?;
    for byte in output {
        text.hex(u64::from(*byte), 2)?;
    }
    text.bytes(b"\n")
}
