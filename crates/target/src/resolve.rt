// `resolve_var`: from a store's pointer down to the variable. The part grows on the way, a piece for each index.
ghost use Rattle.std.specs.Prelude.{◌≡◌, ◌<◌, length};
ghost use Rattle.field.specs.Limits.{max_expressions};
ghost use Rattle.part.specs.Store.{Good, Room};
ghost use Rattle.module.specs.File.{accepted, read_module};
ghost use Rattle.module.specs.Tables.{module_of};
ghost use Rattle.walk.specs.Resolve.{function_at};
ghost use Rattle.target.specs.Target.{Resolves};

use access::file::File;
use context::required_context::VarRef;
use module::handles::{ExpressionHandle, FunctionHandle};
use module::kinds::ExpressionKind;
use part::store::{ALL_PIECE, EMPTY_PIECE, make};

// `VarRefPart`: a variable, and the piece of its part.
#[derive(Clone, Copy)]
pub struct Target {
    pub var: VarRef,
    pub part: u32,
}

// `resolve_var`: none where the pointer names no variable.
pub fn resolve_var(
    file: &File,
    cells: &mut [u32],
    f: FunctionHandle,
    e: ExpressionHandle,
) -> Option<Target>
    requires bytes_value { read_module file.now.bytes ≡ accepted (module_of file.now.bytes file.now.t) }
    requires e_in_bounds { e.0 < length (function_at (module_of file.now.bytes file.now.t) f.0).expressions }
    requires good { Good cells.old }
    requires room { Room cells.old max_expressions }
    ensures { Resolves (module_of file.now.bytes file.now.t) f.0 e.0 cells.old cells.new result }
{
    let mut x = e;
    let mut p = ALL_PIECE;
    // Stays: a pointer names the next, below it, and its kind ends the loop. An iterator would match on the kind to know whether there is a next, and the
    // loop once more for the part and the variable; a `for` would count expressions, and still need an answer behind it.
    loop {
        let row = file.expression(f, x);
        match ExpressionKind::try_from(row.kind) {
            Ok(ExpressionKind::GlobalVariable) => {
                return Some(Target {
                    var: VarRef::Global(file.global_operand(row, 0)),
                    part: p,
                });
            }
            Ok(ExpressionKind::LocalVariable) => {
                return Some(Target {
                    var: VarRef::Local(file.local_operand(row, 0)),
                    part: p,
                });
            }
            // an index wraps the part, and an access by a value takes all
            Ok(ExpressionKind::AccessIndex) => {
                p = make(cells, file.operand(row, 1) as u32, p, EMPTY_PIECE);
            }
            Ok(ExpressionKind::Access) => p = ALL_PIECE,
            _ => return None,
        }
        x = file.expression_operand(row, 0);
    }
}
