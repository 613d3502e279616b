// How an if and a switch end, and how a loop begins: what is asked of the condition, the selector and `break_if`.
ghost use Rattle.access.specs.Access.{handle_in};
ghost use Rattle.judge.specs.Given.{scope_at};
ghost use Rattle.standing.specs.Standing.{Closed, Begun};
ghost use Rattle.standing.proofs.Arms.{ending};
ghost use Rattle.standing.proofs.Cases.{switch_ends};
ghost use Rattle.ends.specs.Merged.{EndGiven, BeginGiven};
ghost use Rattle.hold.specs.Fits.{fits};

use crate::merge::merge;
use access::file::File;
use asking::ask::ask_whole;
use hold::hold::{copy, push_sum};
use module::handles::{ExpressionHandle, FunctionHandle};

// The needs of both blocks are joined, and the condition is needed.
// Stays: file, f and e side by side, as in `ask_value` of asking: each of the three functions here is called once, with another expression.
pub fn end_if(
    file: &File,
    f: FunctionHandle,
    cells: &mut [u32],
    slots: &mut [u32],
    n: usize,
    e: ExpressionHandle,
) -> Option<()>
    requires { EndGiven (scope_at file.now.bytes file.now.t f.0) cells.old slots.old n e.0 }
    ensures { Closed (scope_at file.now.bytes file.now.t f.0) (ending (scope_at file.now.bytes file.now.t f.0) e.0) cells.old slots.old n cells.new slots.new (fits result) }
{
    merge(cells, slots, n, n, n - 1)?;
    ask_whole(file, f, cells, slots, n, e)
}

// The cases' union takes the place of the needs after the switch, and the selector is needed.
pub fn end_switch(
    file: &File,
    f: FunctionHandle,
    cells: &mut [u32],
    slots: &mut [u32],
    n: usize,
    e: ExpressionHandle,
) -> Option<()>
    requires { EndGiven (scope_at file.now.bytes file.now.t f.0) cells.old slots.old n e.0 }
    ensures { Closed (scope_at file.now.bytes file.now.t f.0) (switch_ends (scope_at file.now.bytes file.now.t f.0) e.0) cells.old slots.old n cells.new slots.new (fits result) }
{
    copy(slots, n, n - 1);
    ask_whole(file, f, cells, slots, n, e)
}

// After the continuing block of the loop l stand its re-entry needs, and with `break_if` also the needs after the loop and the condition.
pub fn begin_loop(
    file: &File,
    f: FunctionHandle,
    cells: &mut [u32],
    slots: &mut [u32],
    n: usize,
    l: usize,
    break_if: Option<ExpressionHandle>,
) -> Option<()>
    requires { BeginGiven (scope_at file.now.bytes file.now.t f.0) l cells.old slots.old n (handle_in break_if) }
    ensures { Begun (scope_at file.now.bytes file.now.t f.0) l (handle_in break_if) cells.old slots.old n cells.new slots.new (fits result) }
{
    let Some(condition) = break_if else {
        copy(slots, l, n);
        return Some(());
    };
    push_sum(cells, slots, n, n - 1, l)?;
    ask_whole(file, f, cells, slots, n + 1, condition)
}
