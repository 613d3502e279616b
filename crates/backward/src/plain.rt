// A statement that holds no block: an emit or a store by its marks, or one that leaves.
ghost use Rattle.std.specs.Prelude.{◌≡◌, ◌+◌, ◌<◌, ◌≤◌, length};
ghost use Rattle.quiet.specs.Places.{statement_tree};
ghost use Rattle.standing.specs.Standing.{inside};
ghost use Rattle.backward.specs.Course.{CourseOf, Passes};
ghost use Rattle.judge.specs.Subject.{scope_of, function_in};
ghost use Rattle.standing.specs.Passing.{going, outcome};

use crate::statement::MarkedStatement;
use acts::emits::pass_emits;
use acts::marks::mark_at;
use acts::stores::pass_store;
use leaving::leave::pass_leaving;
use module::kinds::StatementKind;
use standing::passing::{Exits, Passing};

// The statement s of the block b, whose row is given.
pub fn pass_plain(
    statement: &MarkedStatement,
    cells: &mut [u32],
    slots: &mut [u32],
    path: &mut [u32],
    n: usize,
    x: Exits,
    p: Passing,
) -> Option<Passing>
    requires course { CourseOf statement.now.marked.now cells.old slots.old path.old n x (going p) }
    requires n_in_bounds { n + 12 ≤ length slots.old }
    requires lt_kind { (statement.now.row.kind ≡ 0 → ⊥) → 4 < statement.now.row.kind }
    ensures { Passes (scope_of statement.now.marked.now.subject.now) (inside (statement_tree (function_in statement.now.marked.now.subject.now) statement.now.marked.now.marks.now statement.now.b.0 statement.now.s)) cells.old slots.old n x (going p) cells.new slots.new path.old path.new (outcome result) }
{
    let marked = statement.marked;
    let s = statement.s;
    let begin = marked.firsts[s as usize];
    match StatementKind::try_from(statement.row.kind) {
        Ok(StatementKind::Emit) => {
            let first = marked.subject.file.expression_operand(statement.row, 0);
            let last = marked.subject.file.expression_operand(statement.row, 1);
            pass_emits(
                marked.subject,
                marked.marks,
                cells,
                slots,
                path,
                n,
                p,
                s,
                begin,
                first,
                last,
            )
        }
        Ok(StatementKind::Store) => {
            let is_marked = mark_at(marked.marks, begin as usize);
            let pointer = marked.subject.file.expression_operand(statement.row, 0);
            let value = marked.subject.file.expression_operand(statement.row, 1);
            pass_store(
                marked.subject,
                cells,
                slots,
                path,
                n,
                p,
                s,
                is_marked,
                pointer,
                value,
            )
        }
        _ => pass_leaving(marked.subject, cells, slots, n, x, p, s, statement.row),
    }
}
