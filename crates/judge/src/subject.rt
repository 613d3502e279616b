// What a check is about: a function of a module that was read, with the tables that were filled for it.
ghost use Rattle.judge.specs.Given.{Given};

use access::file::File;
use module::handles::FunctionHandle;

// Of each type its row, and the first type that is alike; of each expression, whether it is a path.
#[derive(Clone, Copy, Drop)]
pub struct Subject<'a> {
    pub file: &'a File<'a>,
    pub f: FunctionHandle,
    pub types: &'a [u32],
    pub alike: &'a [u32],
    pub paths: &'a [bool],
    pub ghost given: { Given file.now.bytes file.now.t f.0 types.now alike.now paths.now },
}
