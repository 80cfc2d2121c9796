//! Laws of names in texts. Each law is the contract of a function that does nothing.

ghost use Rattle.function_names.specs.NameLaws.{CsvReadsBack, MapsName, YamlReadsBack};

/// What csv prints of a name is read back as that name, by RFC 4180, whatever its bytes are.
pub fn csv_reads_names_back()
    ensures { CsvReadsBack }
{}

/// What YAML prints of a name between single quotation marks is read back as that name, if it has no
/// control character except tabs.
pub fn yaml_reads_names_back()
    ensures { YamlReadsBack }
{}

/// The map that `extract` prints of an image is a sled map, and it names each function as the image
/// does.
pub fn an_extracted_map_names_as_the_image()
    ensures { MapsName }
{}
