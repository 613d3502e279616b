// How the visit of a statement ends: its mark, and 16.
ghost use Rattle.std.specs.Prelude.{◌≡◌, Bool, ℕ};
ghost use Rattle.module.specs.Decode.{statement_of};
ghost use Rattle.walk.specs.StatementReq as req;
ghost use Rattle.statement.specs.Leaf.{leaf_req};
ghost use Rattle.arms.specs.Visit.{mark_when, MarkAsked, MarkEnds, LastAsked, LastEnds};

use access::file::File;
use access::kinded::Kinded;
use expression::visit::allowed;
use field::refusal::Refusal;
use marks::places::place;
use marks::set::set_mark;
use module::kinds::StatementKind;
use state::answer::{Answer, Answered};
use state::frame::Frame;

// Whether a statement has one mark, of those that are no emit and no call.
fn has_mark(kind: u16) -> bool
    ensures { (b : Bool) (o : ℕ → ℕ) → req.own_marks (leaf_req (statement_of kind o) b) ≡ mark_when result b }
{
    let Ok(kind) = StatementKind::try_from(kind) else {
        return true;
    };
    match kind {
        StatementKind::Emit
        | StatementKind::Block
        | StatementKind::Kill
        | StatementKind::ControlBarrier
        | StatementKind::MemoryBarrier
        | StatementKind::ImageAtomic
        | StatementKind::Call => false,
        _ => true,
    }
}

// Whether one is required whose arm answers b.
fn required(kind: u16, b: bool) -> bool
    ensures { (o : ℕ → ℕ) → result ≡ req.required (leaf_req (statement_of kind o) b) }
{
    let Ok(kind) = StatementKind::try_from(kind) else {
        return b;
    };
    match kind {
        StatementKind::Kill => true,
        StatementKind::Emit
        | StatementKind::ControlBarrier
        | StatementKind::MemoryBarrier
        | StatementKind::ImageAtomic
        | StatementKind::Call => false,
        _ => b,
    }
}

// An arm's answer, once its mark is written: whether the statement is required.
// Stays: after a refused arm it asks nothing, where a `World` would ask that the module was read and its places and types' rows filled.
pub fn mark_statement(
    file: &File,
    firsts: &[u32],
    open: &mut [u8],
    fr: Frame,
    row: Kinded,
    r: Answered,
) -> Answered
    requires { MarkAsked file.now.t firsts.now «open».old fr row r }
    ensures { MarkEnds file.now.t firsts.now «open».old fr row r result «open».new }
{
    let a = r?;
    let kind = row.kind;
    if has_mark(kind) {
        let at = place(file, firsts, fr.function, fr.statement);
        set_mark(open, at, a.required);
    }
    Ok(Answer {
        tally: a.tally,
        required: required(kind, a.required),
    })
}

// 16, as the visit ends, and room for the next one.
pub fn end_statement(cells: &mut [u32], slots: &mut [u32], fr: Frame, r: Answered) -> Answered
    requires { LastAsked cells.old slots.old fr r }
    ensures { LastEnds cells.old slots.old fr r result cells.new slots.new }
{
    let a = r?;
    allowed(cells, slots, fr.at, fr.held, a.tally.sum).ok_or(fr.halt(Refusal::PiecesLimit))?;
    Ok(a)
}
