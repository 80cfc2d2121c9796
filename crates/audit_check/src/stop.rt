//! The loads of a thread at a place.

ghost use Rattle.std.specs.Prelude.{◌≡◌, ◌≢◌, ◌<◌, ◌+◌, ◌^◌, ◌++◌, [], IfOk, OnOk, false, length, replicate, true};
ghost use Rattle.audit_check.specs.Stops.{AreJoined, places_of};
ghost use Rattle.audit_check.specs.private.LoadStops.{places_in};

use std::alloc::Global;
use xray_io::NoMemory;

/// Some loads of a thread at a place of the script, one after the other.
#[derive(Clone, Copy)]
pub struct Stop {
    /// How many micro steps come before them.
    pub place: u32,
    /// How many loads.
    pub loads: u32,
}

/// No loads.
const NO_STOP: Stop = Stop { place: 0, loads: 0 };

/// Loads of a thread, to which others are added. Most are added at the place of the last ones, so these are
/// apart.
#[derive(Drop)]
pub(crate) struct LoadStops {
    pub(crate) earlier: Vec<Stop>,
    pub(crate) last: Stop,
}

impl LoadStops {
    /// No loads yet.
    pub(crate) fn new(alloc: Global) -> Self
        ensures { places_in result ≡ [] }
    {
        LoadStops {
            earlier: Vec::new(alloc),
            last: NO_STOP,
        }
    }

    /// Adds loads at a place.
    #[inline]
    pub(crate) fn add(&mut self, stop: Stop) -> Result<(), NoMemory>
        ensures { OnOk result (places_in self.new ≡ places_in self.old ++ replicate stop.loads stop.place) }
    {
        if joins(self.last, stop) {
            self.last.loads += stop.loads;
            return Ok(());
        }
        self.begin(stop)
    }

    /// Begins with the loads at another place.
    fn begin(&mut self, stop: Stop) -> Result<(), NoMemory>
        ensures { OnOk result (places_in self.new ≡ places_in self.old ++ replicate stop.loads stop.place) }
    {
        add_stop(&mut self.earlier, self.last)?;
        self.last = stop;
        Ok(())
    }

    /// All loads.
    pub(crate) fn done(mut self) -> Result<Vec<Stop>, NoMemory>
        ensures { IfOk result (λ stops. places_of stops.items ≡ places_in self) }
    {
        add_stop(&mut self.earlier, self.last)?;
        Ok(self.earlier)
    }
}

/// Adds loads to those of a thread: to the last stop, if they are at its place. A stop without loads adds
/// nothing.
pub fn add_stop(stops: &mut Vec<Stop>, stop: Stop) -> Result<(), NoMemory>
    ensures places { OnOk result (places_of stops.new.items
        ≡ places_of stops.old.items ++ replicate stop.loads stop.place) }
    ensures joined { OnOk result (length (places_of stops.old.items) + stop.loads < 2 ^ 32
        → AreJoined stops.old.items → AreJoined stops.new.items) }
{
    if stop.loads == 0 {
        return Ok(());
    }
    let count = stops.len();
    if count > 0 && joins(stops[count - 1], stop) {
        let last = stops[count - 1];
        stops[count - 1] = Stop {
            place: last.place,
            loads: last.loads + stop.loads,
        };
        return Ok(());
    }
    stops.push(stop)?;
    Ok(())
}

/// Whether loads belong to the last stop: they are at its place, and their number fits it.
#[inline]
fn joins(last: Stop, stop: Stop) -> bool
    ensures fits { result ≡ true → last.loads + stop.loads < 2 ^ 32 }
    ensures same { result ≡ true → last.place ≡ stop.place }
    ensures apart { result ≡ false → last.loads + stop.loads < 2 ^ 32 → last.place ≢ stop.place }
{
    last.place == stop.place && last.loads <= u32::MAX - stop.loads
}
