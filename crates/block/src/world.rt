// What a walk reads and never writes.
ghost use Rattle.marks.specs.Places.{Places};

use marks::places::MarkPlaces;
use type_table::typed::TypedFile;

// A module that was read, with a row for each of its types, and where the marks of each statement stand.
#[derive(Clone, Copy, Drop)]
pub struct World<'a> {
    pub typed: &'a TypedFile<'a>,
    pub places: &'a MarkPlaces,
    pub ghost placed: { Places typed.now.file.now.bytes typed.now.file.now.t places.now },
}
