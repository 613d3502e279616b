// What an act gives that is needed.
ghost use Rattle.std.specs.Prelude.{◌≡◌, ℕ, ◌+◌, ◌<◌, ◌≤◌, length};
ghost use Rattle.clearance.specs.Tree.{emit, store};
ghost use Rattle.place.specs.Steps.{scope_in};
ghost use Rattle.quiet.specs.Acts.{NeedingOf, needed_by, Something, Overlap, Idle};
ghost use Rattle.judge.specs.Subject.{scope_of, function_in};

use crate::need::Need;
use module::handles::ExpressionHandle;
use needs::path::below;
use part::store::{ALL_PIECE, EMPTY_PIECE};
use place::pointer::PointerExpression;
use place::slots::evaluated_path;
use place::sources::gives_value;

// The piece p, unless it is exist or none.
fn something(p: u32) -> Option<u32>
    ensures { Something p result }
{
    (p == ALL_PIECE || EMPTY_PIECE < p).then_some(p)
}

// What is needed of the expression e, if an emit gives it its value.
pub fn emit_overlap(need: &Need, path: &mut [u32], e: ExpressionHandle) -> Option<u32>
    requires needing { NeedingOf need.now }
    requires e_in_bounds { e.0 < length (function_in need.now.subject.now).expressions }
    requires in_bounds { 2 ≤ length path.old }
    ensures { Overlap (scope_of need.now.subject.now) (emit e.0) need.now.cells.now (needed_by need.now) path.old path.new result }
{
    let subject = need.subject;
    if !gives_value(subject.file, subject.f, subject.paths, e) {
        return None;
    }
    evaluated_path(path, e);
    let piece = below(need.cells, need.piece, &path[0..2]);
    something(piece)
}

// What is needed of the part that a store to a pointer gives, whatever the value.
pub fn store_overlap(need: &Need, path: &mut [u32], pointer: &PointerExpression) -> Option<u32>
    requires needing { NeedingOf need.now }
    requires same_function { scope_in pointer.now ≡ scope_of need.now.subject.now }
    requires f_in_bounds { length (function_in need.now.subject.now).expressions + 2 ≤ length path.old }
    ensures { (v : ℕ) → Overlap (scope_of need.now.subject.now) (store pointer.now.e.0 v) need.now.cells.now (needed_by need.now) path.old path.new result }
{
    let target = pointer.find_target(path);
    let piece = below(need.cells, need.piece, &path[target.from..target.to]);
    something(piece)
}

// Whether the expression e, emitted, gives nothing that is needed.
pub fn emit_idle(need: &Need, path: &mut [u32], e: ExpressionHandle) -> bool
    requires needing { NeedingOf need.now }
    requires e_in_bounds { e.0 < length (function_in need.now.subject.now).expressions }
    requires in_bounds { 2 ≤ length path.old }
    ensures { Idle (scope_of need.now.subject.now) (emit e.0) (needed_by need.now) path.old path.new result }
{
    emit_overlap(need, path, e).is_none()
}

// Whether a store to a pointer gives nothing that is needed.
pub fn store_idle(need: &Need, path: &mut [u32], pointer: &PointerExpression) -> bool
    requires needing { NeedingOf need.now }
    requires same_function { scope_in pointer.now ≡ scope_of need.now.subject.now }
    requires f_in_bounds { length (function_in need.now.subject.now).expressions + 2 ≤ length path.old }
    ensures { (v : ℕ) → Idle (scope_of need.now.subject.now) (store pointer.now.e.0 v) (needed_by need.now) path.old path.new result }
{
    store_overlap(need, path, pointer).is_none()
}
