// Statements that hold no blocks.
ghost use Rattle.std.specs.Prelude.{◌≡◌, ℕ, ◌+◌, ◌-◌, ◌<◌, ◌≤◌, length};
ghost use Rattle.access.specs.Access.{statement_row};
ghost use Rattle.strays.specs.Exits.{exits_of};
ghost use Rattle.quiet.specs.Acts.{NeedingOf, needed_by, IdleFrom};
ghost use Rattle.quiet.specs.Places.{quiet_statement, Says};
ghost use Rattle.judge.specs.Subject.{scope_of, function_in};

use crate::acts::{emit_idle, store_idle};
use crate::need::Need;
use access::kinded::Kinded;
use module::handles::ExpressionHandle;
use module::kinds::{NoKind, StatementKind};
use place::pointer::PointerExpression;
use strays::exits::Exits;

// Whether none of the emitted expressions, from the first to the last, gives anything that is needed.
fn quiet_emits(
    need: &Need,
    path: &mut [u32],
    first: ExpressionHandle,
    last: ExpressionHandle,
) -> bool
    requires needing { NeedingOf need.now }
    requires last_in_bounds { last.0 < length (function_in need.now.subject.now).expressions }
    requires in_bounds { 2 ≤ length path.old }
    ensures { IdleFrom (scope_of need.now.subject.now) (needed_by need.now) first.0 ((last.0 + 1) - first.0) path.old path.new result }
{
    for e in first.0..=last.0 {
        if !emit_idle(need, path, ExpressionHandle(e)) {
            return false;
        }
    }
    true
}

// The statement s, by its row, whatever block it is in.
pub fn quiet_plain(need: &Need, path: &mut [u32], s: u32, row: Kinded, e: Exits<bool>) -> bool
    requires needing { NeedingOf need.now }
    requires f_in_bounds { length (function_in need.now.subject.now).expressions + 2 ≤ length path.old }
    requires s_in_bounds { s < length (function_in need.now.subject.now).statements }
    requires row_value { row ≡ statement_row need.now.subject.now.file.now.bytes need.now.subject.now.file.now.t need.now.subject.now.f.0 s }
    requires lt_kind { (row.kind ≡ 0 → ⊥) → 4 < row.kind }
    ensures { (b : ℕ) → Says (quiet_statement (scope_of need.now.subject.now) (needed_by need.now) b s (exits_of e)) path.old path.new result }
{
    match StatementKind::try_from(row.kind) {
        Ok(StatementKind::Emit) => {
            let first = need.subject.file.expression_operand(row, 0);
            let last = need.subject.file.expression_operand(row, 1);
            quiet_emits(need, path, first, last)
        }
        Ok(StatementKind::Store) => {
            let pointer = PointerExpression {
                file: need.subject.file,
                f: need.subject.f,
                e: need.subject.file.expression_operand(row, 0),
            };
            store_idle(need, path, &pointer)
        }
        Ok(StatementKind::Continue) => e.continued,
        Ok(StatementKind::Return) => e.returned,
        // a kind past the last is a break's
        Ok(StatementKind::Break) | Err(NoKind) => e.broke,
        Ok(_) => true,
    }
}
