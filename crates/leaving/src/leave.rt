// Break, continue and return take their target's needs; a return needs what is asked of its value too.
ghost use Rattle.std.specs.Prelude.{◌≡◌, ◌<◌};
ghost use Rattle.leaving.specs.Leaves.{LeaveGivenOf, Leaves};
ghost use Rattle.standing.specs.Passing.{going, outcome};

use access::kinded::Kinded;
use asking::ask::ask_returned;
use hold::hold::copy;
use judge::subject::Subject;
use module::kinds::StatementKind;
use standing::passing::{Exits, Passing};

// A return.
fn pass_return(
    subject: &Subject,
    cells: &mut [u32],
    slots: &mut [u32],
    n: usize,
    x: Exits,
    p: Passing,
    l: u32,
    row: Kinded,
) -> Option<Passing>
    requires leave_given { LeaveGivenOf subject.now cells.old slots.old n x (going p) l row }
    requires kind_value { row.kind ≡ 7 }
    ensures { Leaves subject.now.file.now.bytes subject.now.file.now.t subject.now.f.0 cells.old slots.old n x (going p) l cells.new slots.new (outcome result) }
{
    let last = n - 1;
    copy(slots, x.returned, last);
    let Some(value) = subject.file.optional_expression(row, 0) else {
        return Some(p);
    };
    ask_returned(subject.file, subject.f, cells, slots, n, value)?;
    Some(p)
}

// The statement l, of a kind past a loop's, that is no store. A kind past the last is a break's.
pub fn pass_leaving(
    subject: &Subject,
    cells: &mut [u32],
    slots: &mut [u32],
    n: usize,
    x: Exits,
    p: Passing,
    l: u32,
    row: Kinded,
) -> Option<Passing>
    requires leave_given { LeaveGivenOf subject.now cells.old slots.old n x (going p) l row }
    requires lt_kind { (4 < row.kind) × (row.kind ≡ 12 → ⊥) }
    ensures { Leaves subject.now.file.now.bytes subject.now.file.now.t subject.now.f.0 cells.old slots.old n x (going p) l cells.new slots.new (outcome result) }
{
    let last = n - 1;
    match StatementKind::try_from(row.kind) {
        Ok(StatementKind::Return) => pass_return(subject, cells, slots, n, x, p, l, row),
        Ok(StatementKind::Continue) => {
            copy(slots, x.continued, last);
            Some(p)
        }
        Ok(StatementKind::Break) | Err(_) => {
            copy(slots, x.broke, last);
            Some(p)
        }
        Ok(_) => Some(p),
    }
}
