//! Laws of programs' maps. Each law is the contract of a function that does nothing.

ghost use Rattle.program_map.specs.Laws.{MapsAreRead};

use map_names::a_map_is_the_lines_of_its_entries;

/// The text of a program's map is a sled map, which is read as the ids and the names of its sleds, in
/// their order.
pub fn a_map_is_read_as_its_names()
    ensures { MapsAreRead }
{
    a_map_is_the_lines_of_its_entries();
}
