// An expression's type, and whether it is a path or a value.
ghost use Rattle.std.specs.Prelude.{◌≡◌, ◌+◌};
ghost use Rattle.module.specs.Decode.{tab};
ghost use Rattle.module.specs.Tables.{function_of};
ghost use Rattle.access.specs.Access.{operand_at, handle_in};
ghost use Rattle.clearance.specs.Scope.{type_of, is_path};
ghost use Rattle.clearance.specs.Judged.{every, presently, is_value};
ghost use Rattle.judge.specs.Given.{scope_at, Values};
ghost use Rattle.judge.specs.Paths.{PathTable};
ghost use Rattle.judge.specs.Subject.{scope_of};

use crate::rows::kind_at;
use crate::subject::Subject;
use crate::tables::is_marked;
use access::file::File;
use access::kinded::Kinded;
use module::handles::{ExpressionHandle, FunctionHandle, TypeHandle};
use module::kinds::TypeKind;

// The type of the expression e; 0, where there is none. It answers of any file, and so beside the method, which is a subject's.
// Stays: 0 is what the definition says of an expression that is not there, and an Option would be opened to it at each of the calls.
pub fn type_of(file: &File, f: FunctionHandle, e: ExpressionHandle) -> TypeHandle
    ensures { result.0 ≡ type_of (scope_at file.now.bytes file.now.t f.0) e.0 }
{
    if e.0 < file.expressions(f) {
        return file.expression_type(f, e);
    }
    TypeHandle(0)
}

// Whether the expression e is a path. As the next three it asks for the tables that it looks into alone, and so stands beside the method.
pub fn is_path(file: &File, f: FunctionHandle, paths: &[bool], e: ExpressionHandle) -> bool
    requires { PathTable (function_of file.now.bytes file.now.t f.0).expressions paths.now }
    ensures { result ≡ is_path (scope_at file.now.bytes file.now.t f.0) e.0 }
{
    is_marked(paths, e.0)
}

// Whether the expression e is a value.
pub fn is_value(
    file: &File,
    f: FunctionHandle,
    types: &[u32],
    paths: &[bool],
    e: ExpressionHandle,
) -> bool
    requires { Values file.now.bytes file.now.t f.0 types.now paths.now }
    ensures { result ≡ is_value (scope_at file.now.bytes file.now.t f.0) e.0 }
{
    !is_path(file, f, paths, e) && kind_at(types, type_of(file, f, e)) != TypeKind::Pointer
}

// Whether the operand v is absent or a value.
pub fn maybe_value(
    file: &File,
    f: FunctionHandle,
    types: &[u32],
    paths: &[bool],
    v: Option<ExpressionHandle>,
) -> bool
    requires { Values file.now.bytes file.now.t f.0 types.now paths.now }
    ensures { result ≡ presently (is_value (scope_at file.now.bytes file.now.t f.0)) (handle_in v) }
{
    match v {
        None => true,
        Some(e) => is_value(file, f, types, paths, e),
    }
}

// Whether the operands after the first, which is their count, are values.
pub fn all_values(
    file: &File,
    f: FunctionHandle,
    types: &[u32],
    paths: &[bool],
    row: Kinded,
) -> bool
    requires { Values file.now.bytes file.now.t f.0 types.now paths.now }
    ensures { result ≡ every (is_value (scope_at file.now.bytes file.now.t f.0)) (tab (operand_at file.now.bytes row 0) (λ i. operand_at file.now.bytes row (1 + i))) }
{
    let n = file.operand(row, 0);
    for i in 0..n {
        let c = file.expression_operand(row, 1 + i);
        if !is_value(file, f, types, paths, c) {
            return false;
        }
    }
    true
}

impl<'a> Subject<'a> {
    // The type of the expression e; 0, where there is none.
    pub fn type_of(&self, e: ExpressionHandle) -> TypeHandle
        ensures { result.0 ≡ type_of (scope_of self.now) e.0 }
    {
        type_of(self.file, self.f, e)
    }

    // Whether the expression e is a path.
    pub fn is_path(&self, e: ExpressionHandle) -> bool
        ensures { result ≡ is_path (scope_of self.now) e.0 }
    {
        is_path(self.file, self.f, self.paths, e)
    }

    // Whether the expression e is a value.
    pub fn is_value(&self, e: ExpressionHandle) -> bool
        ensures { result ≡ is_value (scope_of self.now) e.0 }
    {
        is_value(self.file, self.f, self.types, self.paths, e)
    }

    // Whether the operand v is absent or a value.
    pub fn maybe_value(&self, v: Option<ExpressionHandle>) -> bool
        ensures { result ≡ presently (is_value (scope_of self.now)) (handle_in v) }
    {
        maybe_value(self.file, self.f, self.types, self.paths, v)
    }

    // Whether the operands after the first, which is their count, are values.
    pub fn all_values(&self, row: Kinded) -> bool
        ensures { result ≡ every (is_value (scope_of self.now)) (tab (operand_at self.now.file.now.bytes row 0) (λ i. operand_at self.now.file.now.bytes row (1 + i))) }
    {
        all_values(self.file, self.f, self.types, self.paths, row)
    }
}
