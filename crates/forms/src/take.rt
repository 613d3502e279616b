// A need without the part at a path, with what that empties.
ghost use Rattle.std.specs.Prelude.{◌*◌, ◌<◌, length};
ghost use Rattle.part.specs.PartReq.{all, width};
ghost use Rattle.part.specs.Store.{top, part, Good, Room, Made};
ghost use Rattle.clearance.specs.Shape.{keep, members};
ghost use Rattle.clearance.specs.IsNeed.{IsNeed};
ghost use Rattle.needs.specs.Lean.{change, leaves};
ghost use Rattle.forms.specs.ShapeBy.{shape_by};
ghost use Rattle.forms.specs.Narrow.{level_cells, Narrow, or_all};

use crate::form::Form;
use crate::types::Types;
use part::req::get;
use part::store::{ALL_PIECE, EMPTY_PIECE, EXIST_PIECE, look, make};

// The entry index: child before those of rest; rest alone, where the child needs nothing.
pub fn keep(cells: &mut [u32], index: u32, child: u32, rest: u32) -> u32
    requires good { Good cells.old }
    requires room { Room cells.old 1 }
    requires child_bound { (child < top cells.old) × (rest < top cells.old) }
    ensures { Made cells.old cells.new (keep index (part cells.old child) (part cells.old rest)) 1 result }
{
    match child {
        EXIST_PIECE | EMPTY_PIECE => rest,
        _ => make(cells, index, child, rest),
    }
}

// The entries of p with d for the entry i, dropped where d needs nothing.
pub fn change_entry(cells: &mut [u32], p: u32, i: u32, d: u32) -> u32
    requires good { Good cells.old }
    requires p_bound { (p < top cells.old) × (d < top cells.old) }
    requires room { Room cells.old (width (part cells.old p)) }
    ensures { Made cells.old cells.new (change i (λ c. part cells.old d) (part cells.old p)) (width (part cells.old p)) result }
{
    if p <= EMPTY_PIECE {
        return p;
    }
    let x = look(cells, p);
    if i < x.index {
        return p;
    }
    if i == x.index {
        return keep(cells, x.index, d, x.rest);
    }
    let r = change_entry(cells, x.rest, i, d);
    make(cells, x.index, x.child, r)
}

// The member k before those of r: all of it, or d where it is the one that changes.
fn put_member(cells: &mut [u32], k: u32, i: u32, d: u32, r: u32) -> u32
    requires good { Good cells.old }
    requires room { Room cells.old 1 }
    requires d_bound { (d < top cells.old) × (r < top cells.old) }
    ensures { Made cells.old cells.new (or_all k i (part cells.old d) (part cells.old r)) 1 result }
{
    if k == i {
        return keep(cells, k, d, r);
    }
    make(cells, k, ALL_PIECE, r)
}

// All of each of n members, with d for the member i.
fn members_around(cells: &mut [u32], n: u32, i: u32, d: u32) -> u32
    requires good { Good cells.old }
    requires room { Room cells.old n × (d < top cells.old) }
    ensures { Made cells.old cells.new (change i (λ c. part cells.old d) (members 0 n)) n result }
{
    let mut r = EMPTY_PIECE;
    for k in (0..n).rev() {
        r = put_member(cells, k, i, d, r);
    }
    r
}

// What is left of all, without the part at the path.
fn take_all(cells: &mut [u32], types: &Types, form: Form, path: &[u32]) -> u32
    requires good { Good cells.old }
    requires narrow { Narrow (shape_by types.now.rows.now form) }
    requires room { Room cells.old (level_cells * length path.now) }
    ensures { Made cells.old cells.new (leaves (shape_by types.now.rows.now form) all path.now) (level_cells * length path.now) result }
{
    let Some((i, rest)) = path.split_first() else {
        return EMPTY_PIECE;
    };
    let Some(n) = form.split(types.rows) else {
        return ALL_PIECE;
    };
    let m = form.member(types, *i);
    let d = take_all(cells, types, m, rest);
    members_around(cells, n, *i, d)
}

// What is left of p, without the part at the path.
pub fn take_out(cells: &mut [u32], types: &Types, form: Form, p: u32, path: &[u32]) -> u32
    requires good { Good cells.old }
    requires narrow { Narrow (shape_by types.now.rows.now form) }
    requires p_bound { (p < top cells.old) × IsNeed (shape_by types.now.rows.now form) (part cells.old p) }
    requires room { Room cells.old (level_cells * length path.now) }
    ensures { Made cells.old cells.new (leaves (shape_by types.now.rows.now form) (part cells.old p) path.now) (level_cells * length path.now) result }
{
    let Some((i, rest)) = path.split_first() else {
        return EMPTY_PIECE;
    };
    if p == ALL_PIECE {
        return take_all(cells, types, form, path);
    }
    if form.is_whole(types.rows) {
        return p;
    }
    let Some(c) = get(cells, p, *i) else {
        return p;
    };
    let m = form.member(types, *i);
    let d = take_out(cells, types, m, c, rest);
    change_entry(cells, p, *i, d)
}
