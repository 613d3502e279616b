// What is asked of a value or of a place goes into the slot after the needs at hand, its sum with them into the next, and from there to their slot. So all
// three count, as the definition says.
ghost use Rattle.std.specs.Prelude.{◌≡◌, true, ◌<◌};
ghost use Rattle.std.proofs.Math.Option.{some};
ghost use Rattle.module.specs.Module.{Return};
ghost use Rattle.part.specs.Store.{top, part, Good};
ghost use Rattle.asked.specs.Within.{wanted};
ghost use Rattle.clearance.specs.Needs.{of_value, ask_whole};
ghost use Rattle.clearance.specs.Judged.{fits_statement};
ghost use Rattle.judge.specs.Given.{scope_at};
ghost use Rattle.standing.specs.Standing.{Stepped, Valued};
ghost use Rattle.asking.specs.Asks.{Asks, AskGiven, step_of, AsksAt, ValueGiven, StepGiven};
ghost use Rattle.hold.specs.Fits.{fits};

use access::file::File;
use hold::hold::{copy, push, push_sum};
use module::handles::{ExpressionHandle, FunctionHandle};
use needs::path::under;
use part::store::{ALL_PIECE, EMPTY_PIECE, EXIST_PIECE, look};
use place::slots::{argument_path, evaluated_path};
use place::sources::{Source, source_of};
use standing::passing::ASKED;

// Whether anything is asked.
fn is_wanted(cells: &[u32], a: u32) -> bool
    requires good { Good cells.now }
    requires a_bound { a < top cells.now }
    ensures { result ≡ wanted (part cells.now a) }
{
    if a <= EMPTY_PIECE {
        return a == ALL_PIECE;
    }
    let x = look(cells, a);
    x.child != EXIST_PIECE && x.child != EMPTY_PIECE
}

// The part a is asked at the path. None where the needs pass the bound.
pub fn ask_place(cells: &mut [u32], slots: &mut [u32], n: usize, path: &[u32], a: u32) -> Option<()>
    requires { AskGiven cells.old slots.old n path.now a }
    ensures { AsksAt path.now (part cells.old a) cells.old slots.old n cells.new slots.new (fits result) }
{
    if !is_wanted(cells, a) {
        return Some(());
    }
    let u = under(cells, path, a);
    push(cells, slots, n, u)?;
    push_sum(cells, slots, n + 1, n, n - 1)?;
    copy(slots, n + 1, n - 1);
    Some(())
}

// The part a of the value v is asked where the value stands; of a fixed value nothing is.
// Stays: file, f and v side by side. A `Subject` asks for tables that nothing here reads, and which a pointer's caller has not; a struct of the three
// would be a literal at each of the 13 calls, as each asks of another value.
pub fn ask_value(
    file: &File,
    f: FunctionHandle,
    cells: &mut [u32],
    slots: &mut [u32],
    n: usize,
    v: ExpressionHandle,
    a: u32,
) -> Option<()>
    requires { ValueGiven (scope_at file.now.bytes file.now.t f.0) cells.old slots.old n v.0 a }
    ensures { Asks (scope_at file.now.bytes file.now.t f.0) (step_of (scope_at file.now.bytes file.now.t f.0) (of_value v.0 (part cells.old a))) cells.old slots.old n cells.new slots.new (fits result) }
{
    let source = source_of(file, f, v);
    let mut path: [u32; 2] = [0; 2];
    match source {
        Source::Given => Some(()),
        Source::Argument(i) => {
            argument_path(&mut path, i);
            ask_place(cells, slots, n, &path, a)
        }
        Source::Evaluated => {
            evaluated_path(&mut path, v);
            ask_place(cells, slots, n, &path, a)
        }
    }
}

// All of the value v is asked.
pub fn ask_whole(
    file: &File,
    f: FunctionHandle,
    cells: &mut [u32],
    slots: &mut [u32],
    n: usize,
    v: ExpressionHandle,
) -> Option<()>
    requires { StepGiven (scope_at file.now.bytes file.now.t f.0) cells.old slots.old n v.0 }
    ensures { Stepped (scope_at file.now.bytes file.now.t f.0) (step_of (scope_at file.now.bytes file.now.t f.0) (ask_whole v.0)) cells.old slots.old n cells.new slots.new (fits result) }
{
    ask_value(file, f, cells, slots, n, v, ALL_PIECE)
}

// Of the value v, which is returned, the part is asked that is asked of the function's value.
pub fn ask_returned(
    file: &File,
    f: FunctionHandle,
    cells: &mut [u32],
    slots: &mut [u32],
    n: usize,
    v: ExpressionHandle,
) -> Option<()>
    requires step_given { StepGiven (scope_at file.now.bytes file.now.t f.0) cells.old slots.old n v.0 }
    requires v_value { fits_statement (scope_at file.now.bytes file.now.t f.0) (Return (some v.0)) ≡ true }
    ensures { Valued (scope_at file.now.bytes file.now.t f.0) v.0 cells.old slots.old n cells.new slots.new (fits result) }
{
    let a = slots[ASKED];
    ask_value(file, f, cells, slots, n, v, a)
}
