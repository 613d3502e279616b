// What is needed of a store's target, and the context without it.
ghost use Rattle.std.specs.Prelude.{◌≡◌, ◌<◌, length};
ghost use Rattle.part.specs.PartReq.{spine};
ghost use Rattle.part.specs.Store.{top, part, Good, Room};
ghost use Rattle.part.specs.Found.{Got};
ghost use Rattle.module.specs.File.{read_module, accepted};
ghost use Rattle.module.specs.Tables.{module_of};
ghost use Rattle.context.specs.Types.{types_of};
ghost use Rattle.context.specs.RequiredContext.{handle, variable_type, remove_var};
ghost use Rattle.context.specs.Contexts.{context_of, HasContext, variable_of, TookContext, take_room};
ghost use Rattle.walk.specs.Resolve.{function_at, check_part, store_required};
ghost use Rattle.target.specs.Target.{Sees, HasTarget, subpart_of, HasFound};

use crate::resolve::Target;
use access::file::File;
use context::remove::SizedTypes;
use context::required_context::{RequiredContext, VarRef};
use module::handles::{FunctionHandle, TypeHandle};
use part::req::get;
use part::store::{ALL_PIECE, EMPTY_PIECE, EXIST_PIECE, look};

// `check_part`: what is needed of the part q, where required is needed of the whole. A path has one entry on each level.
pub fn check_part(cells: &[u32], q: u32, required: Option<u32>) -> Option<u32>
    requires good { Good cells.now }
    requires q_bound { (q < top cells.now) × HasFound cells.now required }
    ensures { Got cells.now (check_part (part cells.now q) (subpart_of cells.now required)) result }
{
    let whole = required?;
    let mut n = q;
    let mut p = whole;
    // Stays: it goes down by the child, and not along a list as `Entries` does; this loop alone goes so, and the piece that it ends at answers.
    while EMPTY_PIECE < n {
        let x = look(cells, n);
        if p == ALL_PIECE {
            return Some(ALL_PIECE);
        }
        p = get(cells, p, x.index)?;
        n = x.child;
    }
    if n != ALL_PIECE {
        return None;
    }
    if p == EXIST_PIECE {
        return None;
    }
    Some(p)
}

// `store_required`
pub fn store_required(cells: &[u32], c: RequiredContext, target: Target) -> Option<u32>
    requires good { Good cells.now }
    requires has_context { HasContext cells.now c }
    requires part_bound { (target.part < top cells.now) × (handle (variable_of target.var) < spine) }
    ensures { Got cells.now (store_required (context_of cells.now c) (variable_of target.var) (part cells.now target.part)) result }
{
    let var = target.var;
    let required = c.get(cells, var);
    check_part(cells, target.part, required)
}

// The type of a variable.
fn variable_type(file: &File, f: FunctionHandle, var: VarRef) -> TypeHandle
    requires f_in_bounds { f.0 < length (module_of file.now.bytes file.now.t).functions }
    requires sees { Sees (module_of file.now.bytes file.now.t) f.0 (variable_of var) }
    ensures { result.0 ≡ variable_type (module_of file.now.bytes file.now.t) (function_at (module_of file.now.bytes file.now.t) f.0) (variable_of var) }
{
    match var {
        VarRef::Global(g) => file.global(g),
        VarRef::Local(l) => file.local(f, l),
    }
}

// `remove`: the context without the target; or the panic at a struct member that is not there.
// Stays: the file and the rows of its types, since a `TypedFile` would ask how the rows of its functions lie too, which nothing here looks at.
pub fn take_out(
    file: &File,
    types: &[u32],
    cells: &mut [u32],
    f: FunctionHandle,
    c: RequiredContext,
    target: Target,
) -> Option<RequiredContext>
    requires bytes_value { read_module file.now.bytes ≡ accepted (module_of file.now.bytes file.now.t) }
    requires f_in_bounds { f.0 < length (module_of file.now.bytes file.now.t).functions }
    requires types_value { types_of types.now ≡ (module_of file.now.bytes file.now.t).types }
    requires good { Good cells.old }
    requires has_context { HasContext cells.old c × HasTarget (module_of file.now.bytes file.now.t) f.0 cells.old target }
    requires room { Room cells.old (take_room (context_of cells.old c) (part cells.old target.part)) }
    ensures { TookContext cells.old cells.new (remove_var (module_of file.now.bytes file.now.t) (function_at (module_of file.now.bytes file.now.t) f.0) (context_of cells.old c) (variable_of target.var) (part cells.old target.part)) (take_room (context_of cells.old c) (part cells.old target.part)) result }
{
    let var = target.var;
    let ty = variable_type(file, f, var);
    let sized = SizedTypes { rows: types };
    c.remove(cells, &sized, var, ty, target.part)
}
