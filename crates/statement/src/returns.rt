// `Return`.
ghost use Rattle.std.specs.Prelude.{◌≡◌};
ghost use Rattle.module.specs.Decode.{statement_of};
ghost use Rattle.access.specs.Access.{operand_at};
ghost use Rattle.statement.specs.Leaf.{Arm, Leaves};

use crate::ask::{answer, then_ask};
use crate::leave::leave;
use access::file::File;
use access::kinded::Kinded;
use memory::layout::ASK;
use part::limits::SPINE;
use part::req::get;
use state::answer::{Answered, Tally};
use state::frame::Frame;

// A return leaves the block; where its value is asked for, that is asked in its turn.
pub fn add_return(
    file: &File,
    cells: &mut [u32],
    slots: &mut [u32],
    fr: Frame,
    row: Kinded,
    tally: Tally,
) -> Answered
    requires arm { Arm file.now.bytes file.now.t cells.old slots.old fr row tally.sum }
    requires kind_value { row.kind ≡ 7 }
    ensures { Leaves file.now.bytes file.now.t cells.old slots.old fr (statement_of row.kind (operand_at file.now.bytes row)) tally.visits result cells.new slots.new }
{
    let needed = get(cells, slots[fr.at + 3], SPINE);
    let (Some(value), Some(p)) = (file.optional_expression(row, 0), needed) else {
        return leave(slots, fr, tally);
    };
    slots[ASK] = p;
    let r = then_ask(file, cells, slots, fr, Ok(tally), value, ASK);
    answer(r, true)
}
