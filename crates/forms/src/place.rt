// Needs without the value of a place of the frame.
ghost use Rattle.std.specs.Prelude.{◌≡◌, ◌≤◌, ◌<◌};
ghost use Rattle.part.specs.Store.{top, part, Good, Room, Made};
ghost use Rattle.module.specs.Tables.{module_of};
ghost use Rattle.valid.specs.There.{There};
ghost use Rattle.context.specs.Types.{types_of};
ghost use Rattle.clearance.specs.Shape.{member, extent};
ghost use Rattle.clearance.specs.Scope.{variable, kind_shape, frame};
ghost use Rattle.clearance.specs.IsNeed.{IsNeed};
ghost use Rattle.judge.specs.Given.{scope_at};
ghost use Rattle.needs.specs.Lean.{leaves};
ghost use Rattle.needs.specs.Framed.{Framed};
ghost use Rattle.forms.specs.ShapeBy.{shape_by};
ghost use Rattle.forms.specs.Frames.{Rooted, place_cells};

use crate::form::Form;
use crate::take::{change_entry, take_out};
use crate::types::Types;
use access::file::File;
use judge::frame::{EVALUATED, GLOBALS, LOCALS, MAP_EXPRESSIONS};
use judge::values::type_of;
use module::handles::{ExpressionHandle, FunctionHandle, GlobalHandle, LocalHandle};
use part::limits::SPINE;
use part::req::get;

// The shape of the variable v of the frame's map k: a global, a local, or an evaluated expression.
fn place_form(file: &File, f: FunctionHandle, types: &Types, k: u32, v: u32) -> Form
    requires there { There file.now.bytes file.now.t f.0 }
    requires same { (module_of file.now.bytes file.now.t).types ≡ types_of types.now.rows.now }
    requires fact { (k ≡ 2 → ⊥) × (k ≡ 3 → ⊥) }
    requires k_bound { (k ≤ 64) × (v < extent (kind_shape (scope_at file.now.bytes file.now.t f.0) k)) }
    ensures { shape_by types.now.rows.now result ≡ member (kind_shape (scope_at file.now.bytes file.now.t f.0) k) (variable v) }
{
    match k {
        GLOBALS => Form::Of(file.global(GlobalHandle(v))),
        LOCALS => Form::Of(file.local(f, LocalHandle(v))),
        _ => Form::Of(type_of(
            file,
            f,
            ExpressionHandle(MAP_EXPRESSIONS * (k - EVALUATED) + v),
        )),
    }
}

// The needs n without the part at the path, whose first two indexes say where its variable is.
pub fn take_place(
    cells: &mut [u32],
    file: &File,
    f: FunctionHandle,
    types: &Types,
    n: u32,
    path: &[u32],
) -> u32
    requires good { Good cells.old }
    requires there { There file.now.bytes file.now.t f.0 }
    requires same { (module_of file.now.bytes file.now.t).types ≡ types_of types.now.rows.now }
    requires rooted { Rooted path.now }
    requires n_bound { (n < top cells.old) × Framed (part cells.old n) }
    requires need { IsNeed (frame (scope_at file.now.bytes file.now.t f.0)) (part cells.old n) }
    requires room { Room cells.old (place_cells path.now) }
    ensures { Made cells.old cells.new (leaves (frame (scope_at file.now.bytes file.now.t f.0)) (part cells.old n) path.now) (place_cells path.now) result }
{
    let x = path[0];
    let y = path[1];
    let Some(m) = get(cells, n, x) else {
        return n;
    };
    let Some(c) = get(cells, m, y) else {
        return n;
    };
    let form = place_form(file, f, types, x - SPINE, y - SPINE);
    let d = take_out(cells, types, form, c, &path[2..]);
    let e = change_entry(cells, m, y, d);
    change_entry(cells, n, x, e)
}
