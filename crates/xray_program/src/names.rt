//! What names the functions of a report.
ghost use Rattle.std.specs.Prelude.{◌≡◌};
ghost use Rattle.function_names.specs.Name.{naming};
ghost use Rattle.xray_program.specs.private.NamesTaken.{named_by};

use function_names::Names;
use map_names::MapNames;
use xray_image::Image;

/// What names functions, once it was taken.
#[derive(Drop)]
pub(crate) enum TakenNames {
    /// Nothing: a function is named by its id.
    Ids,
    /// An image.
    Image(Image),
    /// The names of a sled map.
    Map(MapNames),
}

impl TakenNames {
    /// The names, as reports get them.
    pub(crate) fn as_names(&self) -> Names<'_>
        ensures { naming result ≡ named_by self.now }
    {
        match self {
            TakenNames::Ids => Names::Ids,
            TakenNames::Image(image) => Names::Image(image),
            TakenNames::Map(map) => Names::Map(map),
        }
    }
}
