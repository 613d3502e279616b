// A part of a value's part. It is asked at a path that is one index longer, so that no cell has to be made first.
ghost use Rattle.std.specs.Prelude.{◌<◌, [], ◌∷◌};
ghost use Rattle.part.specs.PartReq.{more, none};
ghost use Rattle.part.specs.Store.{top, part};
ghost use Rattle.clearance.specs.Needs.{of_value};
ghost use Rattle.judge.specs.Given.{scope_at};
ghost use Rattle.operands.specs.AsksAll.{ListGiven, AsksAll, wanted_in};
ghost use Rattle.operands.specs.Lists.{member_of};
ghost use Rattle.operands.specs.Rows.{scope_under, operands_in};
ghost use Rattle.hold.specs.Fits.{fits};

use crate::row::Operands;
use access::file::File;
use asking::ask::ask_place;
use module::handles::{ExpressionHandle, FunctionHandle};
use place::slots::{argument_path, evaluated_path};
use place::sources::{Source, source_of};

// The part a of the part i of the value v.
pub fn ask_member(
    file: &File,
    f: FunctionHandle,
    cells: &mut [u32],
    slots: &mut [u32],
    n: usize,
    v: ExpressionHandle,
    i: u32,
    a: u32,
) -> Option<()>
    requires list_given { ListGiven (scope_at file.now.bytes file.now.t f.0) (of_value v.0 (more i (part cells.old a) none) ∷ []) cells.old slots.old n }
    requires a_bound { a < top cells.old }
    ensures { AsksAll (scope_at file.now.bytes file.now.t f.0) (of_value v.0 (more i (part cells.old a) none) ∷ []) cells.old slots.old n cells.new slots.new (fits result) }
{
    let mut path = [0, 0, i];
    match source_of(file, f, v) {
        Source::Given => return Some(()),
        Source::Argument(k) => argument_path(&mut path, k),
        Source::Evaluated => evaluated_path(&mut path, v),
    }
    ask_place(cells, slots, n, &path, a)
}

// Of what a constant index names, the part that is needed.
pub fn ask_index(operands: &Operands, cells: &mut [u32], slots: &mut [u32], n: usize) -> Option<()>
    requires { ListGiven (scope_under operands.now) (member_of (operands_in operands.now) (wanted_in cells.old slots.old n)) cells.old slots.old n }
    ensures { AsksAll (scope_under operands.now) (member_of (operands_in operands.now) (wanted_in cells.old slots.old n)) cells.old slots.old n cells.new slots.new (fits result) }
{
    let base = operands.file.expression_operand(operands.row, 0);
    let index = operands.file.operand(operands.row, 1) as u32;
    let a = slots[n - 2];
    ask_member(operands.file, operands.f, cells, slots, n, base, index, a)
}
