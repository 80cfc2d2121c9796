//! The order of the run of an audit.

ghost use Rattle.std.specs.Prelude.{◌≡◌, ◌⊎◌, Err};
ghost use Rattle.patch_script.specs.Refusals.{commands_of};
ghost use Rattle.audit_check.specs.Statements.{NamesThreads, statement_of};
ghost use Rattle.run_order.specs.Answers.{IsOrdered};
ghost use Rattle.run_order.specs.declared.fault.OrderFault.TheVariants.{NoMemory};
ghost use Rattle.run_order.specs.private.Ordering.{fault_of};

use crate::fault::OrderFault;
use crate::order::Order;
use crate::waits::{Waits, free_threads};
use audit_check::{Audit, PlaceFault, place_loads};
use machine_step::passings_are_limited;
use patch_script::{Script, awaits_bound_passings};
use std::alloc::Global;
use xray_image::Image;

/// The order of all loads and stores of the run that an audit states, beside an image and a script.
/// `Ends` and `Marks` come exactly where `check_audit` returns that verdict, with the same thread. `Long`
/// comes exactly where the order would have more lines than a schedule may have.
///
/// The script has to be one for this image and for the audit's number of threads, and the audit has to
/// state something of each of these threads, in order. An audit that was read does.
///
/// Takes time in proportion to the instructions of the plain runs, the marks and the micro steps of the
/// script. `NoMemory` means that an allocation was refused.
pub fn order_run(
    alloc: Global,
    image: &Image,
    script: &Script,
    audit: &Audit,
) -> Result<Order, OrderFault>
    requires program { script.now.program ≡ image.now }
    requires threads { script.now.threads ≡ audit.now.setup.threads }
    requires names { NamesThreads (statement_of audit.now) }
    ensures { (result ≡ Err NoMemory)
        ⊎ IsOrdered image.now (commands_of script.now.lines) (statement_of audit.now) result }
{
    awaits_bound_passings();
    passings_are_limited();
    script.micro_steps_are_few();
    let threads = match place_loads(alloc, image, script, audit) {
        Ok(threads) => threads,
        Err(fault) => return Err(order_fault(fault)),
    };
    let waits = Waits::of(alloc, image, script, audit.setup.threads)?;
    let start = waits.free_place(script.start() as u32);
    let total = waits.free_place(script.total() as u32);
    let free = free_threads(alloc, &threads, &waits)?;
    Order::of_stops(alloc, &free, start, total)
}

/// Why an audit whose loads have no places has no order.
fn order_fault(fault: PlaceFault) -> OrderFault
    ensures { result ≡ fault_of fault }
{
    match fault {
        PlaceFault::Ends(thread) => OrderFault::Ends(thread),
        PlaceFault::Marks(thread) => OrderFault::Marks(thread),
        PlaceFault::NoMemory => OrderFault::NoMemory,
    }
}
