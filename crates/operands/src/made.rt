// What is made of parts: a vector of letters, or of components. Each part of the result is asked of what it was made of, the last first.
ghost use Rattle.std.specs.Prelude.{◌<◌, ◌≤◌, map};
ghost use Rattle.clearance.specs.Needs.{ask_whole, ask_picked, ask_components};
ghost use Rattle.operands.specs.AsksAll.{ListGiven, AsksAll, wanted_in};
ghost use Rattle.operands.specs.Lists.{letter_of, component_of, letters, components};
ghost use Rattle.operands.specs.Rows.{scope_under, operands_in};
ghost use Rattle.hold.specs.Fits.{fits};

use crate::indexes::ask_member;
use crate::operators::ask_whole;
use crate::row::Operands;
use asking::ask::ask_value;
use part::subpart::subpart;

// The part k of the result, of the component that the letter k names.
fn ask_letter(
    operands: &Operands,
    cells: &mut [u32],
    slots: &mut [u32],
    n: usize,
    k: u16,
) -> Option<()>
    requires list_given { ListGiven (scope_under operands.now) (letter_of (operands_in operands.now) k (wanted_in cells.old slots.old n)) cells.old slots.old n }
    requires k_bound { k < 4 }
    ensures { AsksAll (scope_under operands.now) (letter_of (operands_in operands.now) k (wanted_in cells.old slots.old n)) cells.old slots.old n cells.new slots.new (fits result) }
{
    let vector = operands.file.expression_operand(operands.row, 0);
    let letter = operands.file.operand(operands.row, 2 + k) as u32;
    let c = subpart(cells, slots[n - 2], k as u32);
    ask_member(
        operands.file,
        operands.f,
        cells,
        slots,
        n,
        vector,
        letter,
        c,
    )
}

// The part k of the result, of the component k.
fn ask_component(
    operands: &Operands,
    cells: &mut [u32],
    slots: &mut [u32],
    n: usize,
    k: u16,
) -> Option<()>
    requires list_given { ListGiven (scope_under operands.now) (component_of (operands_in operands.now) k (wanted_in cells.old slots.old n)) cells.old slots.old n }
    requires k_bound { k < 65535 }
    ensures { AsksAll (scope_under operands.now) (component_of (operands_in operands.now) k (wanted_in cells.old slots.old n)) cells.old slots.old n cells.new slots.new (fits result) }
{
    let v = operands.file.expression_operand(operands.row, 1 + k);
    let c = subpart(cells, slots[n - 2], k as u32);
    ask_value(operands.file, operands.f, cells, slots, n, v, c)
}

// Stays: the loops here differ in what they ask of an operand. One loop over them would take that as a closure over the parts, with a longer contract than they have.
// Letters of a vector.
pub fn ask_letters(
    operands: &Operands,
    cells: &mut [u32],
    slots: &mut [u32],
    n: usize,
) -> Option<()>
    requires list_given { ListGiven (scope_under operands.now) (ask_picked (operands_in operands.now 0) (letters (operands_in operands.now)) 0 (wanted_in cells.old slots.old n)) cells.old slots.old n }
    requires row_bound { operands_in operands.now 1 ≤ 4 }
    ensures { AsksAll (scope_under operands.now) (ask_picked (operands_in operands.now 0) (letters (operands_in operands.now)) 0 (wanted_in cells.old slots.old n)) cells.old slots.old n cells.new slots.new (fits result) }
{
    for k in (0..operands.file.operand(operands.row, 1)).rev() {
        ask_letter(operands, cells, slots, n, k)?;
    }
    Some(())
}

// Components, each for its part.
pub fn ask_components(
    operands: &Operands,
    cells: &mut [u32],
    slots: &mut [u32],
    n: usize,
) -> Option<()>
    requires { ListGiven (scope_under operands.now) (ask_components (components (operands_in operands.now)) 0 (wanted_in cells.old slots.old n)) cells.old slots.old n }
    ensures { AsksAll (scope_under operands.now) (ask_components (components (operands_in operands.now)) 0 (wanted_in cells.old slots.old n)) cells.old slots.old n cells.new slots.new (fits result) }
{
    for k in (0..operands.file.operand(operands.row, 0)).rev() {
        ask_component(operands, cells, slots, n, k)?;
    }
    Some(())
}

// Components of a vector that is made of vectors too: each whole.
pub fn ask_joined(operands: &Operands, cells: &mut [u32], slots: &mut [u32], n: usize) -> Option<()>
    requires { ListGiven (scope_under operands.now) (map ask_whole (components (operands_in operands.now))) cells.old slots.old n }
    ensures { AsksAll (scope_under operands.now) (map ask_whole (components (operands_in operands.now))) cells.old slots.old n cells.new slots.new (fits result) }
{
    for k in (0..operands.file.operand(operands.row, 0)).rev() {
        ask_whole(operands, cells, slots, n, 1 + k)?;
    }
    Some(())
}
