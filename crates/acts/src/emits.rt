// An emit: what is needed of the expression is taken out, and its operands are asked. The expressions of an emit are passed from the last to the first, each with its mark.
ghost use Rattle.std.specs.Prelude.{◌≡◌, ◌<◌, length};
ghost use Rattle.module.specs.Marks.{marks_before};
ghost use Rattle.clearance.specs.Tree.{emit};
ghost use Rattle.acts.specs.Acts.{ActGivenOf, Acted};
ghost use Rattle.acts.specs.Marks.{PassGivenOf, ByMark, EmitsPassed};
ghost use Rattle.judge.specs.Subject.{scope_of, function_in};
ghost use Rattle.standing.specs.Passing.{going, outcome};
ghost use Rattle.hold.specs.Fits.{fits};

use crate::marks::mark_at;
use crate::take::take_out;
use ends::notes::{blame, note};
use forms::types::Types;
use hold::hold::copy;
use judge::subject::Subject;
use module::handles::ExpressionHandle;
use operands::expression::ask_operands;
use place::slots::evaluated_path;
use quiet::acts::{emit_idle, emit_overlap};
use quiet::need::Need;
use standing::passing::Passing;

// The needs before an emit of the expression e. Its operands are lent as much of the path as the function's pointers take. None where the needs pass the bound.
pub fn act_emit(
    subject: &Subject,
    cells: &mut [u32],
    slots: &mut [u32],
    path: &mut [u32],
    n: usize,
    e: ExpressionHandle,
) -> Option<()>
    requires act_given { ActGivenOf subject.now cells.old slots.old path.old n }
    requires e_in_bounds { e.0 < length (function_in subject.now).expressions }
    ensures { Acted (scope_of subject.now) (emit e.0) cells.old slots.old n cells.new slots.new path.old path.new (fits result) }
{
    let last = n - 1;
    let left = n + 1;
    let asked = n + 2;
    let need = Need {
        subject: &*subject,
        cells,
        piece: slots[last],
    };
    let Some(a) = emit_overlap(&need, path, e) else {
        return Some(());
    };
    evaluated_path(path, e);
    let types = Types {
        rows: subject.types,
    };
    let place = &path[0..2];
    take_out(subject.file, subject.f, &types, cells, slots, n, place, a)?;
    let size = (subject.file.expressions(subject.f) as usize) + 2;
    let part = &mut path[..size];
    ask_operands(subject, cells, slots, part, asked, e)?;
    copy(slots, left, last);
    Some(())
}

// Stays: a store does the same around its own act. One function over both would take the act apart twice, each time in one more function with all these parameters.
// The expression e of the emit l, in a pass.
fn pass_emit(
    subject: &Subject,
    cells: &mut [u32],
    slots: &mut [u32],
    path: &mut [u32],
    n: usize,
    p: Passing,
    l: u32,
    marked: bool,
    e: ExpressionHandle,
) -> Option<Passing>
    requires pass_given { PassGivenOf subject.now cells.old slots.old path.old n (going p) }
    requires e_in_bounds { e.0 < length (function_in subject.now).expressions }
    ensures { ByMark (scope_of subject.now) l marked (emit e.0) cells.old slots.old n (going p) cells.new slots.new path.old path.new (outcome result) }
{
    let last = n - 1;
    let above = n + 1;
    if marked {
        act_emit(subject, cells, slots, path, n, e)?;
        return Some(p);
    }
    let need = Need {
        subject: &*subject,
        cells,
        piece: slots[last],
    };
    if emit_idle(&need, path, e) {
        return Some(p);
    }
    copy(slots, last, n);
    act_emit(subject, cells, slots, path, above, e)?;
    copy(slots, n, last);
    Some(blame(l, p))
}

// The statement l, an emit of the expressions from the first to the last, whose marks begin at `begin`, in a pass.
// Stays: l, begin, first and last side by side. The one caller reads them of a row, and a struct would be made there to be taken apart here.
pub fn pass_emits(
    subject: &Subject,
    marks: &[u8],
    cells: &mut [u32],
    slots: &mut [u32],
    path: &mut [u32],
    n: usize,
    p: Passing,
    l: u32,
    begin: u32,
    first: ExpressionHandle,
    last: ExpressionHandle,
) -> Option<Passing>
    requires pass_given { PassGivenOf subject.now cells.old slots.old path.old n (going p) }
    requires begin_value { begin ≡ marks_before (function_in subject.now).statements l }
    requires last_in_bounds { last.0 < length (function_in subject.now).expressions }
    ensures { EmitsPassed (scope_of subject.now) marks.now l first.0 last.0 cells.old slots.old n (going p) cells.new slots.new path.old path.new (outcome result) }
{
    let mut q = p;
    let count = (last.0 + 1).saturating_sub(first.0);
    for k in (0..count).rev() {
        let at = note(cells, slots, n, q);
        let marked = mark_at(marks, (begin as usize) + (k as usize));
        let e = ExpressionHandle(first.0 + k);
        q = pass_emit(subject, cells, slots, path, n, at, l, marked, e)?;
    }
    Some(q)
}
