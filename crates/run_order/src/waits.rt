//! The places of a script, as those of the script without its waits.

ghost use Rattle.std.specs.Prelude.{◌≡◌, ◌<◌, ◌^◌, All, IfOk, length, map, not, true};
ghost use Rattle.xray_image.specs.Program.{Program};
ghost use Rattle.sled_words.specs.Words.{state_word};
ghost use Rattle.patch_script.specs.Refusals.{commands_of};
ghost use Rattle.audit_check.specs.Stops.{AreJoined, places_of};
ghost use Rattle.run_order.specs.FreeScripts.{is_free};
ghost use Rattle.run_order.specs.private.Waits.{AreWaits, BeginsPatch, freed, waits_of};

use audit_check::{Stop, add_stop};
use patch_script::{Micro, Script};
use sled_words::{PARTS, Part, state_word};
use std::alloc::Global;
use xray_image::Image;
use xray_io::NoMemory;

/// How many stores patch a sled. The first of them stores its id.
const PATCH_STORES: u64 = PARTS as u64;

/// The waits of a script: the places of its awaits and of its stores in release words. The script
/// without waits makes all other micro steps.
#[derive(Drop)]
pub(crate) struct Waits {
    places: Vec<u32>,
}

impl Waits {
    /// The waits of a script for this image. If it has some, takes time in proportion to the sleds that its
    /// commands patch or unpatch.
    pub(crate) fn of(
        alloc: Global,
        image: &Image,
        script: &Script,
        threads: u32,
    ) -> Result<Waits, NoMemory>
        requires program { script.now.program ≡ image.now }
        requires threads { script.now.threads ≡ threads }
        ensures { IfOk result (λ waits. waits.places.items
            ≡ waits_of image.now threads (commands_of script.now.lines)) }
    {
        let mut places = Vec::new(alloc);
        if script.waits().is_none() {
            return Ok(Waits { places });
        }
        let state = state_word(image);
        let total = script.total();
        let mut near = 0;
        let mut place = 0;
        'steps: while place < total {
            let micro = script.micro_near(place, &mut near);
            if begins_patch(micro, state) {
                place += PATCH_STORES;
            } else {
                if is_wait(micro, state, threads) {
                    places.push(place as u32)?;
                }
                place += 1;
            }
        }
        Ok(Waits { places })
    }

    /// The place of the script without waits that a place is.
    pub(crate) fn free_place(&self, place: u32) -> u32
        requires { AreWaits self.now.places.items }
        ensures { result ≡ freed self.now.places.items place }
    {
        place - self.places.partition_point(|wait| *wait < place) as u32
    }
}

/// Whether a micro step is the first of those that patch a sled. `state` is the number of the log's word.
fn begins_patch(micro: Micro, state: u32) -> bool
    ensures { (program : Program) → state ≡ state_word program → result ≡ true → BeginsPatch program micro }
{
    match micro {
        Micro::Store { word, .. } => word < state && word % PARTS == Part::Id as u32,
        Micro::Await { .. } | Micro::End => false,
    }
}

/// Whether the script without waits doesn't make a micro step. `state` is the number of the log's word.
/// The release words of the threads come after it.
fn is_wait(micro: Micro, state: u32, threads: u32) -> bool
    ensures { (program : Program) → state ≡ state_word program → result ≡ not (is_free program threads micro) }
{
    match micro {
        Micro::Store { word, .. } => word > state && word - state <= threads,
        Micro::Await { .. } | Micro::End => true,
    }
}

/// The loads of each thread, at the places of the script without waits.
pub(crate) fn free_threads(
    alloc: Global,
    threads: &[Vec<Stop>],
    waits: &Waits,
) -> Result<Vec<Vec<Stop>>, NoMemory>
    requires waits { AreWaits waits.now.places.items }
    requires few { All (λ stops. length (places_of stops.items) < 2 ^ 32) threads.now }
    ensures places { IfOk result (λ free. map (λ stops. places_of stops.items) free.items
        ≡ map (λ stops. map (freed waits.now.places.items) (places_of stops.items)) threads.now) }
    ensures joined { IfOk result (λ free. All (λ stops. AreJoined stops.items) free.items) }
{
    let mut free = Vec::new(alloc);
    for stops in threads {
        free.push(free_stops(alloc, stops, waits)?)?;
    }
    Ok(free)
}

/// The loads of a thread, at the places of the script without waits.
fn free_stops(alloc: Global, stops: &[Stop], waits: &Waits) -> Result<Vec<Stop>, NoMemory>
    requires waits { AreWaits waits.now.places.items }
    requires few { length (places_of stops.now) < 2 ^ 32 }
    ensures places { IfOk result (λ free. places_of free.items
        ≡ map (freed waits.now.places.items) (places_of stops.now)) }
    ensures joined { IfOk result (λ free. AreJoined free.items) }
{
    let mut free = Vec::new(alloc);
    for stop in stops {
        let place = waits.free_place(stop.place);
        add_stop(
            &mut free,
            Stop {
                place,
                loads: stop.loads,
            },
        )?;
    }
    Ok(free)
}
