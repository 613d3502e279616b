// What a request asks, within the types of what it asks it of.
ghost use Rattle.std.specs.Prelude.{◌≡◌, ◌+◌, ◌<◌, List, ℕ};
ghost use Rattle.part.specs.PartReq.{entries};
ghost use Rattle.part.specs.Store.{top, part, Good, Room, Made};
ghost use Rattle.module.specs.Tables.{module_of, function_of};
ghost use Rattle.context.specs.Types.{types_of};
ghost use Rattle.clearance.specs.Shape.{member, trim};
ghost use Rattle.clearance.specs.Scope.{result_shape};
ghost use Rattle.judge.specs.Given.{scope_at};
ghost use Rattle.forms.specs.ShapeBy.{shape_by};
ghost use Rattle.forms.specs.Frames.{globals_shape, trim_globals};

use crate::form::Form;
use crate::take::keep;
use crate::types::Types;
use access::file::File;
use judge::frame::GLOBALS;
use module::handles::{FunctionHandle, GlobalHandle};
use part::limits::SPINE;
use part::store::{ALL_PIECE, EMPTY_PIECE, look};

// What is left of the requirement p in its shape.
pub fn trim_part(cells: &mut [u32], types: &Types, form: Form, p: u32) -> u32
    requires good { Good cells.old }
    requires p_bound { (p < top cells.old) × Room cells.old (entries (part cells.old p)) }
    ensures { Made cells.old cells.new (trim (part cells.old p) (shape_by types.now.rows.now form)) (entries (part cells.old p)) result }
{
    if p == ALL_PIECE {
        if form.is_void() {
            return EMPTY_PIECE;
        }
        return ALL_PIECE;
    }
    if p <= EMPTY_PIECE {
        return EMPTY_PIECE;
    }
    let x = look(cells, p);
    let m = form.member(types, x.index);
    let c = trim_part(cells, types, m, x.child);
    let r = trim_part(cells, types, form, x.rest);
    keep(cells, x.index, c, r)
}

// The shape of the entry i of the map of globals.
fn global_form(file: &File, i: u32) -> Form
    ensures { (types : List ℕ) → shape_by types result ≡ member (globals_shape file.now.bytes file.now.t types) i }
{
    if i < SPINE {
        return Form::Void;
    }
    let g = i - SPINE;
    if file.globals() <= g {
        return Form::Void;
    }
    Form::Of(file.global(GlobalHandle(g)))
}

// What is left of p, a map of globals.
fn trim_map(cells: &mut [u32], file: &File, types: &Types, p: u32) -> u32
    requires good { Good cells.old }
    requires p_bound { (p < top cells.old) × Room cells.old (entries (part cells.old p)) }
    ensures { Made cells.old cells.new (trim (part cells.old p) (globals_shape file.now.bytes file.now.t types.now.rows.now)) (entries (part cells.old p)) result }
{
    if p == ALL_PIECE {
        return ALL_PIECE;
    }
    if p <= EMPTY_PIECE {
        return EMPTY_PIECE;
    }
    let x = look(cells, p);
    let m = global_form(file, x.index);
    let c = trim_part(cells, types, m, x.child);
    let r = trim_map(cells, file, types, x.rest);
    keep(cells, x.index, c, r)
}

// What is left of p, asked of the globals at a function's end, as needs of its frame.
pub fn trim_globals(cells: &mut [u32], file: &File, types: &Types, p: u32) -> u32
    requires good { Good cells.old }
    requires p_bound { (p < top cells.old) × Room cells.old (1 + entries (part cells.old p)) }
    ensures { Made cells.old cells.new (trim_globals file.now.bytes file.now.t types.now.rows.now (part cells.old p)) (1 + entries (part cells.old p)) result }
{
    let m = trim_map(cells, file, types, p);
    keep(cells, SPINE + GLOBALS, m, EMPTY_PIECE)
}

// The shape of a function's result.
fn result_form(file: &File, f: FunctionHandle) -> Form
    ensures { (types : List ℕ) → (module_of file.now.bytes file.now.t).types ≡ types_of types → shape_by types result ≡ result_shape (scope_at file.now.bytes file.now.t f.0) (function_of file.now.bytes file.now.t f.0).result }
{
    match file.result(f) {
        Some(x) => Form::Of(x.ty),
        None => Form::Void,
    }
}

// What is left of p, asked of a function's result.
pub fn trim_value(cells: &mut [u32], file: &File, f: FunctionHandle, types: &Types, p: u32) -> u32
    requires good { Good cells.old }
    requires same { (module_of file.now.bytes file.now.t).types ≡ types_of types.now.rows.now }
    requires p_bound { (p < top cells.old) × Room cells.old (entries (part cells.old p)) }
    ensures { Made cells.old cells.new (trim (part cells.old p) (result_shape (scope_at file.now.bytes file.now.t f.0) (function_of file.now.bytes file.now.t f.0).result)) (entries (part cells.old p)) result }
{
    let form = result_form(file, f);
    trim_part(cells, types, form, p)
}
