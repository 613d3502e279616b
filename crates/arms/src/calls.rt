// The statement Call, but for the walk of the called function: its beginning, the end of that function, and its own end.
ghost use Rattle.std.specs.Prelude.{◌≡◌, ◌+◌, ◌<◌, length};
ghost use Rattle.memory.specs.Layout.{result as result_slot};
ghost use Rattle.statement.specs.Aside.{aside_slots};
ghost use Rattle.arms.specs.Calls.{was_found, CallBegins, CallBegan, LeavesCall, LeftCall, Returns, Returned, call_marks};

use access::file::File;
use access::kinded::Kinded;
use block::call::enter;
use call::ends::end_call;
use leave::leave::{leave, own_pieces};
use marks::places::place;
use marks::set::set_call;
use memory::layout::RESULT;
use memory::memory::{tidy, weigh};
use module::handles::FunctionHandle;
use request::lists::returned;
use state::answer::{Answer, Answered, Tally};
use state::frame::Frame;
use statement::atomic::record_of;

// What frames hold while the called function is walked, and what of it the caller's records are.
#[derive(Clone, Copy)]
pub struct Begun {
    pub held: usize,
    pub own: usize,
}

// The called function's base is put above the current context.
// Stays: file and starts, since a `World` would ask for rows of the types too, which neither a call's beginning nor its end looks at.
pub fn begin_call(
    file: &File,
    starts: &[u32],
    cells: &mut [u32],
    slots: &mut [u32],
    open: &mut [u8],
    fr: Frame,
    row: Kinded,
    sum: usize,
) -> Begun
    requires { CallBegins file.now.bytes file.now.t starts.now cells.old slots.old «open».old fr row sum }
    ensures { CallBegan file.now.bytes file.now.t starts.now cells.old slots.old «open».old fr row result.held result.own cells.new slots.new «open».new }
{
    let f = fr.function;
    let at = fr.at;
    let g = file.function_operand(row, 0);
    let n = file.operand(row, 1);
    let result = file.optional_expression(row, 2 + n);
    let own = own_pieces(file, cells, slots, f);
    let held = fr.held + weigh(cells, slots, at, 4) + own;
    let found = record_of(file, cells, slots, fr, result);
    let retval = returned(cells, found);
    enter(slots, open, starts, g, at, retval);
    tidy(cells, slots);
    Begun { held, own }
}

// The called function g ends. Gives what records and totals count for without its records.
pub fn leave_call(
    file: &File,
    cells: &[u32],
    slots: &mut [u32],
    g: FunctionHandle,
    at: usize,
    sum: usize,
) -> usize
    requires { LeavesCall file.now.t cells.now slots.old g.0 at sum }
    ensures { LeftCall file.now.t cells.now slots.old g.0 at sum result slots.new }
{
    let less = own_pieces(file, cells, slots, g);
    leave(file, slots, g, at + 4, at + 8);
    sum - less
}

// What was found of the result is what it is to be asked for. Whether anything was.
fn hold_result(slots: &mut [u32], found: Option<u32>) -> bool
    requires { result_slot < length slots.old }
    ensures { (result ≡ was_found found) × (slots.new ≡ aside_slots slots.old result_slot found) }
{
    match found {
        None => false,
        Some(p) => {
            slots[RESULT] = p;
            true
        }
    }
}

// The marks of a call, where it went.
fn mark_call(open: &mut [u8], at: usize, res: bool, r: Answered) -> Answered
    requires { at + 1 < length «open».old }
    ensures { (result ≡ r) × («open».new ≡ call_marks «open».old at res r) }
{
    let a = r?;
    set_call(open, at, a.required, res);
    Ok(a)
}

// The call ends, once its function was walked: whether that is required.
pub fn return_call(
    file: &File,
    firsts: &[u32],
    cells: &mut [u32],
    slots: &mut [u32],
    open: &mut [u8],
    fr: Frame,
    row: Kinded,
    required: bool,
    tally: Tally,
) -> Answered
    requires { Returns file.now.bytes file.now.t firsts.now cells.old slots.old «open».old fr row tally.visits tally.sum }
    ensures { Returned file.now.bytes file.now.t firsts.now cells.old slots.old «open».old fr row required tally.visits tally.sum result cells.new slots.new «open».new }
{
    let at = place(file, firsts, fr.function, fr.statement);
    if !required {
        set_call(open, at, false, false);
        return Ok(Answer {
            tally,
            required: false,
        });
    }
    let n = file.operand(row, 1);
    let result = file.optional_expression(row, 2 + n);
    let found = record_of(file, cells, slots, fr, result);
    let there = hold_result(slots, found);
    let r = end_call(file, cells, slots, fr, row, there, tally);
    mark_call(open, at, there, r)
}
