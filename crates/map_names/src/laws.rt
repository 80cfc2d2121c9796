//! Laws of sled maps. Each law is the contract of a function that does nothing.

ghost use Rattle.std.specs.Prelude.{◌≡◌, ◌↔◌, List, ℕ, Ok, Some};
ghost use Rattle.map_names.specs.{Entries.{NamedFunction, entry_said}, Maps.{map_of}, Spelling.{SpellsEntry, SpellsMap}};

/// The entry that a line says is the one whose pieces, joined, are the line. So no line spells two
/// entries.
pub fn a_line_is_the_pieces_of_its_entry()
    ensures { (line : List ℕ) (entry : NamedFunction) → entry_said line ≡ Some entry ↔ SpellsEntry line entry }
{}

/// The entries of a text are those whose lines it has, in their order, between `---` and `...`.
pub fn a_map_is_the_lines_of_its_entries()
    ensures { (text : List ℕ) (entries : List NamedFunction) → map_of text ≡ Ok entries ↔ SpellsMap text entries }
{}
