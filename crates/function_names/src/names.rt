//! Where the names of functions come from.

ghost use Rattle.std.specs.Prelude.{◌≡◌, option_map};

use map_names::MapNames;
use xray_image::Image;

/// What names the functions of a text, by their ids.
#[derive(Clone, Copy)]
pub enum Names<'a> {
    /// Nothing: a function is named by its id.
    Ids,
    /// An image.
    Image(&'a Image),
    /// A sled map.
    Map(&'a MapNames),
}

impl<'a> Names<'a> {
    ghost use Rattle.function_names.specs.Name.{image_names, naming};

    /// The names of an image, if there is one.
    pub fn of_image(image: Option<&'a Image>) -> Names<'a>
        ensures { naming result ≡ image_names (option_map (λ image. image.now) image.entry) }
    {
        match image {
            Some(image) => Names::Image(image),
            None => Names::Ids,
        }
    }

    /// The name of the function with an id, or `None` if it isn't known.
    pub fn name_of(self, id: u32) -> Option<&'a [u8]>
        ensures { option_map (λ name. name.now) result ≡ (naming self.entry).name id }
    {
        match self {
            Names::Ids => None,
            Names::Image(image) => match image.name_of(id) {
                Some(name) => Some(name.as_bytes()),
                None => None,
            },
            Names::Map(map) => map.name_of(id),
        }
    }
}
