// A module that was read, with the table of its types beside it.
ghost use Rattle.std.specs.Prelude.{◌≡◌};
ghost use Rattle.module.specs.Tables.{module_of};
ghost use Rattle.access.specs.Laid.{WasRead};
ghost use Rattle.context.specs.Types.{types_of};

use access::file::File;
use context::remove::SizedTypes;

// Of each type its row, as `fill` makes them.
#[derive(Clone, Copy, Drop)]
pub struct TypedFile<'a> {
    pub file: &'a File<'a>,
    pub types: &'a [u32],
    pub ghost was_read: { WasRead file.now.bytes file.now.t },
    pub ghost rows: { types_of types.now ≡ (module_of file.now.bytes file.now.t).types },
}

impl<'a> TypedFile<'a> {
    // The rows alone: each is of a size that a file may have.
    pub fn sized(&self) -> SizedTypes<'a>
        ensures { result.rows.now ≡ self.now.types.now }
    {
        SizedTypes { rows: self.types }
    }
}
