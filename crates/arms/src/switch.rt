// The statement Switch: the block of a case, its join to the cases before it, and the end once all are walked.
ghost use Rattle.std.specs.Prelude.{◌≡◌, ◌+◌, ◌*◌};
ghost use Rattle.std.specs.Option.{is_none};
ghost use Rattle.access.specs.Access.{operand_at};
ghost use Rattle.arms.specs.Switches.{Casing, CaseEnds, EndingSwitch, SwitchEnds};

use access::file::File;
use access::kinded::Kinded;
use block::aside::{put_aside, take_back};
use block::stack::{drop, join};
use expression::add::add_expression;
use expression::visit::Visit;
use memory::layout::ALL;
use memory::memory::tidy;
use memory::want::want_of;
use module::handles::{BlockHandle, ExpressionHandle};
use state::answer::{Answer, Answered, Tally};
use state::frame::Frame;

// The block of the case k.
pub fn case_body(file: &File, row: Kinded, k: u16) -> BlockHandle
    ensures { result.0 ≡ operand_at file.now.bytes row (3 + 2 * k) }
{
    file.block_operand(row, 3 + 2 * (k as u32))
}

// A case was walked: its context, behind the one at k, is joined to that. None where that passes a limit.
pub fn end_case(cells: &mut [u32], slots: &mut [u32], k: usize) -> Option<()>
    requires { Casing cells.old slots.old k }
    ensures { CaseEnds cells.old slots.old k (is_none result) cells.new slots.new }
{
    join(cells, slots, k)?;
    tidy(cells, slots);
    Some(())
}

// All cases were walked, and are joined behind the statement's context. What the selector needs is not kept.
pub fn end_switch(
    file: &File,
    cells: &mut [u32],
    slots: &mut [u32],
    fr: Frame,
    selector: ExpressionHandle,
    required: bool,
    tally: Tally,
) -> Answered
    requires { EndingSwitch file.now.bytes file.now.t cells.old slots.old fr selector.0 tally.sum tally.visits }
    ensures { SwitchEnds file.now.bytes file.now.t cells.old slots.old fr selector.0 required tally.sum tally.visits result cells.new slots.new }
{
    let at = fr.at;
    if !required {
        drop(slots, at);
        return Ok(Answer {
            tally,
            required: false,
        });
    }
    put_aside(cells, slots, at + 4);
    drop(slots, at);
    let v = Visit {
        function: fr.function,
        expression: selector,
        at,
        held: fr.held,
    };
    let w = want_of(ALL);
    let tally = add_expression(file, cells, slots, &v, w, tally)?;
    take_back(cells, slots, at);
    Ok(Answer {
        tally,
        required: true,
    })
}
