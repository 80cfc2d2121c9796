//! The order of a run, as a schedule.

ghost use Rattle.std.specs.Prelude.{◌≡◌, ◌≤◌, ◌⊎◌, All, Err, length, map};
ghost use Rattle.std.specs.List.{flat_map};
ghost use Rattle.xray_io.specs.Text.{AddsText};
ghost use Rattle.patch_script.specs.Limits.{most_micros};
ghost use Rattle.run_order.specs.declared.fault.OrderFault.TheVariants.{NoMemory};
ghost use Rattle.run_order.specs.private.Ordered.{ordered};
ghost use Rattle.audit_check.specs.Stops.{places_of};
ghost use Rattle.run_order.specs.private.{Ordering.{cut}, Stops.{AreStops}, Texts.{line_text}};

use crate::fault::OrderFault;
use crate::merging::schedule_lines;
use audit_check::Stop;
use std::alloc::Global;
use std::marker::Model;
use step_sim::Turns;
use xray_io::{Piece, Printed, Sink, Text, WriteFault};

/// The most lines that a schedule may have.
const MOST_LINES: usize = 1_048_576;

/// The order of all loads and stores of a finished run: a schedule for the script without waits. Its
/// replay has the marks of the run. In contracts it is the list of its turns.
#[derive(Drop)]
pub struct Order {
    lines: Vec<Turns>,
}

impl Model for Order {
    ghost use Rattle.std.specs.Prelude.{List};
    ghost use Rattle.step_sim.specs.declared.turns.Turns.{Turns};

    ghost Value = { List Turns };

    ghost view = { λ order. order.lines.items };
}

impl Order {
    /// The order of the loads of threads, thread 1 first, from the place at which the threads start up to
    /// the script's end. `Long` comes exactly when it has more lines than a schedule may have.
    pub(crate) fn of_stops(
        alloc: Global,
        threads: &[Vec<Stop>],
        start: u32,
        total: u32,
    ) -> Result<Order, OrderFault>
        requires few { length threads.now ≤ 16 }
        requires start { start ≤ total }
        requires total { total ≤ most_micros }
        requires stops { All (λ stops. AreStops start stops.items) threads.now }
        ensures { (result ≡ Err NoMemory)
            ⊎ (result ≡ cut (ordered start total (map (λ stops. places_of stops.items) threads.now))) }
    {
        let lines = schedule_lines(alloc, threads, start, total)?;
        if lines.len() > MOST_LINES {
            return Err(OrderFault::Long);
        }
        Ok(Order { lines })
    }

    /// The turns, in order.
    pub fn lines(&self) -> &[Turns]
        ensures { result.now ≡ self.now }
    {
        &self.lines
    }
}

/// The text of the schedule: a line for each of its turns.
impl Printed for Order {
    ghost use Rattle.std.specs.Prelude.{⊤};
    ghost use Rattle.step_sim.specs.WrittenSchedules.{schedule_text};

    ghost text = { schedule_text };

    ghost ready = { λ _. ⊤ };

    fn add_to<S: Sink>(&self, to: &mut Text<S>) -> Result<(), WriteFault> {
        add_lines(to, &self.lines)
    }
}

/// Adds a line for each of these turns.
fn add_lines<S: Sink>(to: &mut Text<S>, lines: &[Turns]) -> Result<(), WriteFault>
    ensures { AddsText S.written S.faults S.along to.old to.new (flat_map line_text lines.now) result }
{
    'lines: for turns in lines {
        add_line(to, *turns)?;
    }
    Ok(())
}

/// Adds the line of turns.
fn add_line<S: Sink>(to: &mut Text<S>, turns: Turns) -> Result<(), WriteFault>
    ensures { AddsText S.written S.faults S.along to.old to.new (line_text turns) result }
{
    match turns {
        Turns::Thread { thread, count } => to.pieces(&[
            Piece::Bytes(b"t "),
            Piece::Number(u128::from(thread)),
            Piece::Bytes(b" "),
            Piece::Number(u128::from(count)),
            Piece::Bytes(b"\n"),
        ]),
        Turns::Patcher { count } => to.pieces(&[
            Piece::Bytes(b"p "),
            Piece::Number(u128::from(count)),
            Piece::Bytes(b"\n"),
        ]),
    }
}
