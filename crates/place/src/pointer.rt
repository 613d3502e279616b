// A pointer: an expression that is a path, of a function of a module that was read.
ghost use Rattle.place.specs.Target.{Pointer};

use access::file::File;
use module::handles::{ExpressionHandle, FunctionHandle};

#[derive(Clone, Copy, Drop)]
pub struct PointerExpression<'a> {
    pub file: &'a File<'a>,
    pub f: FunctionHandle,
    pub e: ExpressionHandle,
    pub ghost pointer: { Pointer file.now.bytes file.now.t f.0 e.0 },
}
