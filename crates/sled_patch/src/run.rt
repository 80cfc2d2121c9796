//! The micro steps of a script, made one after the other.

ghost use Rattle.std.specs.Prelude.{◌≡◌};
ghost use Rattle.sled_rule.specs.Plans.{start_in, total_in};
ghost use Rattle.sled_rule.specs.Seats.{patch_view, script_of, IsPatcherOf};
ghost use Rattle.sled_patch.specs.Runs.{at_place, HasRun};

use crossbeam_utils::Backoff;
use patch_script::Micro;
use sled_rule::{CodeTable, PatchSeat};
use std::sync::Wait;
use xray_io::Gate;

/// Makes the micro steps before the place where threads start. All of them are stores.
pub fn run_prefix(table: &CodeTable, seat: &mut PatchSeat)
    requires own { IsPatcherOf table.now seat.old }
    requires begins { (patch_view seat.old).place ≡ 0 }
    ensures own { IsPatcherOf table.now seat.new }
    ensures view { patch_view seat.new
        ≡ at_place (patch_view seat.old) (start_in (script_of table.now)) }
{
    for _ in 0..table.script().start() {
        table.store_next(seat);
    }
}

/// Makes all micro steps from the place on. Calls the gate with the place before each store. At an
/// await that isn't reached it waits and looks again. So it may wait forever, if the awaited thread
/// makes no more passings.
pub fn run_script<R: Wait, G: Gate + Sync>(
    rt: &R,
    table: &CodeTable,
    seat: &mut PatchSeat,
    gate: &G,
)
    requires own { IsPatcherOf table.now seat.old }
    ensures own { IsPatcherOf table.now seat.new }
    ensures run { HasRun (patch_view seat.old) (total_in (script_of table.now)) (patch_view seat.new) }
{
    let backoff = Backoff::new();
    'steps: for _ in rt.forever() {
        match table.next_micro(seat) {
            Micro::Store { word, value } => {
                gate.before_store(seat.place());
                table.make_store(seat, word, value);
            }
            Micro::Await { .. } => {
                if table.look(seat) {
                    backoff.reset();
                } else {
                    backoff.snooze();
                }
            }
            Micro::End => break,
        }
    }
}
