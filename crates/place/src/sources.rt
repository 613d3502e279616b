// Where an operand's value is, and whether an emit gives one, by the expression's kind.
ghost use Rattle.std.specs.Prelude.{◌≡◌};
ghost use Rattle.module.specs.Tables.{function_of};
ghost use Rattle.clearance.specs.Scope.{arm, source};
ghost use Rattle.clearance.specs.Needs.{gives};
ghost use Rattle.judge.specs.Given.{scope_at};
ghost use Rattle.judge.specs.Paths.{PathTable};
ghost use Rattle.place.specs.Sources.{source_by, gives_kind};

use access::file::File;
use judge::values::is_path;
use module::handles::{ExpressionHandle, FunctionHandle};
use module::kinds::ExpressionKind;

// A value that is fixed, an argument, what the expression's own emit leaves.
#[derive(Clone, Copy)]
pub enum Source {
    Given,
    Argument(u16),
    Evaluated,
}

// Where the value of the expression e is; one that is not there is a literal, and so is a kind past the last.
pub fn source_of(file: &File, f: FunctionHandle, e: ExpressionHandle) -> Source
    ensures { source_by result e.0 ≡ source (scope_at file.now.bytes file.now.t f.0) e.0 }
{
    if file.expressions(f) <= e.0 {
        return Source::Given;
    }
    let row = file.expression(f, e);
    match ExpressionKind::try_from(row.kind) {
        Ok(ExpressionKind::FunctionArgument) => Source::Argument(file.operand(row, 0)),
        Ok(ExpressionKind::Literal | ExpressionKind::ZeroValue | ExpressionKind::Constant) => {
            Source::Given
        }
        Ok(_) => Source::Evaluated,
        Err(_) => Source::Given,
    }
}

// Whether an emit gives an expression of this kind its value, where it is no index.
fn gives_kind(kind: u16) -> bool
    ensures { result ≡ gives_kind kind }
{
    matches!(
        ExpressionKind::try_from(kind),
        Ok(
            ExpressionKind::Splat
                | ExpressionKind::Swizzle
                | ExpressionKind::Compose
                | ExpressionKind::Load
                | ExpressionKind::Unary
                | ExpressionKind::Binary
                | ExpressionKind::Select
                | ExpressionKind::Relational
                | ExpressionKind::Math
                | ExpressionKind::As
        )
    )
}

// Whether an emit gives the expression e its value.
pub fn gives_value(file: &File, f: FunctionHandle, paths: &[bool], e: ExpressionHandle) -> bool
    requires { PathTable (function_of file.now.bytes file.now.t f.0).expressions paths.now }
    ensures { result ≡ gives (arm (scope_at file.now.bytes file.now.t f.0) e.0) }
{
    if file.expressions(f) <= e.0 {
        return false;
    }
    let row = file.expression(f, e);
    match ExpressionKind::try_from(row.kind) {
        Ok(ExpressionKind::AccessIndex | ExpressionKind::Access) => !is_path(file, f, paths, e),
        _ => gives_kind(row.kind),
    }
}
