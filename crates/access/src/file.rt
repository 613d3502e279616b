// A module that was read, as one value: the file's bytes, and the tables that lead into them.
ghost use Rattle.std.specs.Prelude.{◌≡◌};
ghost use Rattle.module.specs.Tables.{row_at};

use module::handles::FunctionHandle;
use module::tables::{Row, row_at};
use std::marker::Model;

// Only this crate looks inside.
// Stays: a function goes by its handle beside the file, as in naga. A struct of both would be made anew wherever a handle is followed, and a walk has the
// handle in its frame already.
#[derive(Drop)]
pub struct File<'a> {
    pub(crate) bytes: &'a [u8],
    pub(crate) t: &'a [u32],
}

impl<'a> Model for File<'a> {
    ghost use Rattle.access.specs.File.{File};

    ghost Value = { File };

    ghost view = { λ m. record { bytes = m.bytes.now; t = m.t.now } };
}

impl<'a> File<'a> {
    pub fn new(bytes: &'a [u8], t: &'a [u32]) -> Self
        ensures bytes { result.bytes ≡ bytes.now }
        ensures tables { result.t ≡ t.now }
    {
        File { bytes, t }
    }

    // How many of each the function has, and where they begin.
    pub fn row(&self, f: FunctionHandle) -> Row
        ensures { result ≡ row_at self.now.t f.0 }
    {
        row_at(self.t, f)
    }
}
