// Operators: an operand is asked for the same part that is needed of the result, or whole. The last operand is asked first. The needed part is read again
// from its slot each time, since its number changes where an ask collects.
ghost use Rattle.operands.specs.AsksAll.{ListGiven, AsksAll, wanted_in};
ghost use Rattle.operands.specs.Lists.{same_of, whole_of, present_of, both_same, both_whole, select_of, math_of};
ghost use Rattle.operands.specs.Rows.{scope_under, operands_in};
ghost use Rattle.hold.specs.Fits.{fits};

use crate::row::Operands;
use asking::ask::ask_value;
use part::store::ALL_PIECE;

// Of the operand j the same part.
// Stays: apart from `ask_whole`. One function for both would take the part, whose number is read anew before each ask, or a flag in place of two names.
pub fn ask_same(
    operands: &Operands,
    cells: &mut [u32],
    slots: &mut [u32],
    n: usize,
    j: u16,
) -> Option<()>
    requires { ListGiven (scope_under operands.now) (same_of (operands_in operands.now) j (wanted_in cells.old slots.old n)) cells.old slots.old n }
    ensures { AsksAll (scope_under operands.now) (same_of (operands_in operands.now) j (wanted_in cells.old slots.old n)) cells.old slots.old n cells.new slots.new (fits result) }
{
    let v = operands.file.expression_operand(operands.row, j);
    let a = slots[n - 2];
    ask_value(operands.file, operands.f, cells, slots, n, v, a)
}

// All of the operand j.
pub fn ask_whole(
    operands: &Operands,
    cells: &mut [u32],
    slots: &mut [u32],
    n: usize,
    j: u16,
) -> Option<()>
    requires { ListGiven (scope_under operands.now) (whole_of (operands_in operands.now) j) cells.old slots.old n }
    ensures { AsksAll (scope_under operands.now) (whole_of (operands_in operands.now) j) cells.old slots.old n cells.new slots.new (fits result) }
{
    let v = operands.file.expression_operand(operands.row, j);
    ask_value(operands.file, operands.f, cells, slots, n, v, ALL_PIECE)
}

// All of the operand j, if it is there.
fn ask_present(
    operands: &Operands,
    cells: &mut [u32],
    slots: &mut [u32],
    n: usize,
    j: u16,
) -> Option<()>
    requires { ListGiven (scope_under operands.now) (present_of (operands_in operands.now) j) cells.old slots.old n }
    ensures { AsksAll (scope_under operands.now) (present_of (operands_in operands.now) j) cells.old slots.old n cells.new slots.new (fits result) }
{
    match operands.file.optional_expression(operands.row, j) {
        None => Some(()),
        Some(v) => ask_value(operands.file, operands.f, cells, slots, n, v, ALL_PIECE),
    }
}

// Of both operands the same part.
// Stays: apart from `ask_both_whole`, as `ask_same` is from `ask_whole`.
pub fn ask_both_same(
    operands: &Operands,
    cells: &mut [u32],
    slots: &mut [u32],
    n: usize,
) -> Option<()>
    requires { ListGiven (scope_under operands.now) (both_same (operands_in operands.now) (wanted_in cells.old slots.old n)) cells.old slots.old n }
    ensures { AsksAll (scope_under operands.now) (both_same (operands_in operands.now) (wanted_in cells.old slots.old n)) cells.old slots.old n cells.new slots.new (fits result) }
{
    ask_same(operands, cells, slots, n, 1)?;
    ask_same(operands, cells, slots, n, 0)
}

// Both operands whole.
pub fn ask_both_whole(
    operands: &Operands,
    cells: &mut [u32],
    slots: &mut [u32],
    n: usize,
) -> Option<()>
    requires { ListGiven (scope_under operands.now) (both_whole (operands_in operands.now)) cells.old slots.old n }
    ensures { AsksAll (scope_under operands.now) (both_whole (operands_in operands.now)) cells.old slots.old n cells.new slots.new (fits result) }
{
    ask_whole(operands, cells, slots, n, 1)?;
    ask_whole(operands, cells, slots, n, 0)
}

// Of a value of two the same part of both, and the condition whole.
pub fn ask_select(operands: &Operands, cells: &mut [u32], slots: &mut [u32], n: usize) -> Option<()>
    requires { ListGiven (scope_under operands.now) (select_of (operands_in operands.now) (wanted_in cells.old slots.old n)) cells.old slots.old n }
    ensures { AsksAll (scope_under operands.now) (select_of (operands_in operands.now) (wanted_in cells.old slots.old n)) cells.old slots.old n cells.new slots.new (fits result) }
{
    ask_same(operands, cells, slots, n, 2)?;
    ask_same(operands, cells, slots, n, 1)?;
    ask_whole(operands, cells, slots, n, 0)
}

// One operand to four, whole.
pub fn ask_math(operands: &Operands, cells: &mut [u32], slots: &mut [u32], n: usize) -> Option<()>
    requires { ListGiven (scope_under operands.now) (math_of (operands_in operands.now)) cells.old slots.old n }
    ensures { AsksAll (scope_under operands.now) (math_of (operands_in operands.now)) cells.old slots.old n cells.new slots.new (fits result) }
{
    ask_present(operands, cells, slots, n, 3)?;
    ask_present(operands, cells, slots, n, 2)?;
    ask_present(operands, cells, slots, n, 1)?;
    ask_whole(operands, cells, slots, n, 0)
}
