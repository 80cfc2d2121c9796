//! Why a text isn't a sled map.

use thiserror::Error;

/// Why `read_map` returns no names: the refusal of the first line that is refused, with its number,
/// counted from 1.
#[derive(Clone, Copy, Debug, PartialEq, Eq, Error)]
pub enum MapFault {
    /// The line isn't `---` where the map begins, or neither says an entry nor ends the map; or it
    /// stands after `...`; or the text ends before that line.
    #[error("line {0} is no line of a sled map")]
    Syntax(u32),
    /// Memory for the names was refused.
    #[error("out of memory")]
    NoMemory,
}

/// A refused allocation ends the reading.
impl<E: Into<xray_io::NoMemory> + Drop> From<E> for MapFault {
    ghost use Rattle.std.specs.Prelude.{◌≡◌};
    ghost use Rattle.map_names.specs.declared.fault.MapFault.TheVariants.{NoMemory};

    ghost from_gives = { λ _ fault. fault ≡ NoMemory };

    fn from(_error: E) -> MapFault {
        MapFault::NoMemory
    }
}
