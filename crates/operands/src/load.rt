// A load asks for the same part at its place; where an index is dynamic, for all that the path names for sure, and for each such index whole, the last first.
ghost use Rattle.std.specs.Prelude.{◌≡◌, cond, map};
ghost use Rattle.clearance.specs.Needs.{ask_whole};
ghost use Rattle.place.specs.Steps.{scope_in, indexes_in};
ghost use Rattle.operands.specs.Arms.{PathRoom};
ghost use Rattle.operands.specs.AsksAll.{ListGiven, AsksAll, wanted_in};
ghost use Rattle.operands.specs.Lists.{load_of};
ghost use Rattle.hold.specs.Fits.{fits};

use asking::ask::{ask_place, ask_value};
use part::store::ALL_PIECE;
use place::pointer::PointerExpression;
use place::steps::Step;

// The dynamic indexes of a pointer, each whole.
// Stays: a loop by hand. An iterator over these indexes would be this same loop down to the next one as its `next`, a definition of what is left and three
// laws (a step, the end, the length), for this one use.
pub fn ask_indexes(
    pointer: &PointerExpression,
    cells: &mut [u32],
    slots: &mut [u32],
    n: usize,
) -> Option<()>
    requires { ListGiven (scope_in pointer.now) (map ask_whole (indexes_in pointer.now)) cells.old slots.old n }
    ensures { AsksAll (scope_in pointer.now) (map ask_whole (indexes_in pointer.now)) cells.old slots.old n cells.new slots.new (fits result) }
{
    let file = pointer.file;
    let f = pointer.f;
    let mut h = *pointer;
    loop {
        match h.step_down() {
            Step::Global(_) | Step::Local(_) => return Some(()),
            Step::Constant(base, _) => h = base,
            Step::Dynamic(base, index) => {
                ask_value(file, f, cells, slots, n, index, ALL_PIECE)?;
                h = base;
            }
        }
    }
}

// What a load asks at its place: all, if an index is dynamic, else a.
fn loaded(a: u32, dynamic: bool) -> u32
    ensures { result ≡ cond dynamic 0 a }
{
    if dynamic { ALL_PIECE } else { a }
}

// What stands where a pointer leads.
pub fn ask_load(
    pointer: &PointerExpression,
    cells: &mut [u32],
    slots: &mut [u32],
    path: &mut [u32],
    n: usize,
) -> Option<()>
    requires list_given { ListGiven (scope_in pointer.now) (load_of (scope_in pointer.now) pointer.now.e.0 (wanted_in cells.old slots.old n)) cells.old slots.old n }
    requires path_room { PathRoom pointer.now.file.now.bytes pointer.now.file.now.t pointer.now.f.0 path.old }
    ensures { AsksAll (scope_in pointer.now) (load_of (scope_in pointer.now) pointer.now.e.0 (wanted_in cells.old slots.old n)) cells.old slots.old n cells.new slots.new (fits result) }
{
    ask_indexes(pointer, cells, slots, n)?;
    let target = pointer.find_target(path);
    let a = loaded(slots[n - 2], target.dynamic);
    ask_place(cells, slots, n, &path[target.from..target.to], a)
}
