// The statement Emit.
ghost use Rattle.arms.specs.Emit.{EmitAsked, EmitEnds};

use access::file::File;
use access::kinded::Kinded;
use marks::places::place;
use marks::set::set_emit;
use memory::layout::EXPRS;
use state::answer::{Answer, Answered, Tally};
use state::frame::Frame;

// `Emit`, with its marks: which of its expressions have a record. It is required if any has. It is not inlined: the walk calls itself,
// and would hold its frame on every level of blocks.
// Stays: a `World` would ask for rows of the types, which no emit looks at; a `&mut Workspace` would not say that cells and slots are only read.
#[inline(never)]
pub fn add_emit(
    file: &File,
    firsts: &[u32],
    cells: &[u32],
    slots: &[u32],
    open: &mut [u8],
    fr: Frame,
    row: Kinded,
    tally: Tally,
) -> Answered
    requires { EmitAsked file.now.bytes file.now.t firsts.now cells.now slots.now «open».old fr row tally.sum }
    ensures { EmitEnds file.now.bytes file.now.t firsts.now cells.now slots.now «open».old fr row tally.sum tally.visits result «open».new }
{
    let f = fr.function;
    let first = file.expression_operand(row, 0);
    let last = file.expression_operand(row, 1);
    let n = (last.0 as usize) + 1 - (first.0 as usize);
    let from = EXPRS + file.expression_number(f, first);
    let at = place(file, firsts, f, fr.statement);
    let any = set_emit(open, at, slots, from, n);
    Ok(Answer {
        tally,
        required: any,
    })
}
