// A call whose function was walked and is required.
ghost use Rattle.call.specs.Calls.{Calling, EndsCall};

use crate::arguments::ask_arguments;
use access::file::File;
use access::kinded::Kinded;
use memory::layout::RESULT;
use state::answer::{Answered, Tally};
use state::frame::Frame;
use statement::ask::{answer, then_maybe};

// The arguments, and then the result, where `there` says that it is asked for; the slot RESULT has what for.
pub fn end_call(
    file: &File,
    cells: &mut [u32],
    slots: &mut [u32],
    fr: Frame,
    row: Kinded,
    there: bool,
    tally: Tally,
) -> Answered
    requires { Calling file.now.bytes file.now.t cells.old slots.old fr row tally.sum }
    ensures { EndsCall file.now.bytes file.now.t cells.old slots.old fr row there tally.visits result cells.new slots.new }
{
    let passed = ask_arguments(file, cells, slots, fr, row, tally);
    if there {
        let n = file.operand(row, 1);
        let result = file.optional_expression(row, 2 + n);
        let r = then_maybe(file, cells, slots, fr, passed, result, RESULT);
        return answer(r, true);
    }
    answer(passed, true)
}
