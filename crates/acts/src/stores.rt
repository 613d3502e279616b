// A store: what is needed of the place that it names for sure is taken out and asked of the value. With a dynamic index nothing is taken out, and value and indexes are asked whole.
ghost use Rattle.std.specs.Prelude.{[], ◌∷◌, map, ◌-◌};
ghost use Rattle.clearance.specs.Shape.{below};
ghost use Rattle.clearance.specs.Tree.{store};
ghost use Rattle.clearance.specs.Needs.{of_value, ask_whole, without};
ghost use Rattle.hold.specs.Hold.{in_slot};
ghost use Rattle.place.specs.Steps.{scope_in, indexes_in};
ghost use Rattle.standing.specs.Standing.{Stepped};
ghost use Rattle.acts.specs.Acts.{ActGivenOf, StoreOf, leaving, Acted, PlaceGivenOf, SomewhereGiven};
ghost use Rattle.acts.specs.Marks.{PassGivenOf, ByMark};
ghost use Rattle.judge.specs.Subject.{scope_of};
ghost use Rattle.standing.specs.Passing.{going, outcome};
ghost use Rattle.hold.specs.Fits.{fits};

use crate::take::take_out;
use asking::ask::ask_value;
use ends::notes::blame;
use forms::types::Types;
use hold::hold::copy;
use judge::subject::Subject;
use module::handles::ExpressionHandle;
use operands::load::ask_indexes;
use part::store::ALL_PIECE;
use place::pointer::PointerExpression;
use quiet::acts::{store_idle, store_overlap};
use quiet::need::Need;
use standing::passing::Passing;

// A store to a place of which the piece a is needed.
fn store_at(
    subject: &Subject,
    cells: &mut [u32],
    slots: &mut [u32],
    n: usize,
    place: &[u32],
    a: u32,
    v: ExpressionHandle,
) -> Option<()>
    requires { PlaceGivenOf subject.now cells.old slots.old n place.now a v.0 }
    ensures { Stepped (scope_of subject.now) (leaving (scope_of subject.now) (without (scope_of subject.now) place.now (in_slot cells.old slots.old (n - 1))) (of_value v.0 (below (in_slot cells.old slots.old (n - 1)) place.now) ∷ [])) cells.old slots.old n cells.new slots.new (fits result) }
{
    let last = n - 1;
    let left = n + 1;
    let types = Types {
        rows: subject.types,
    };
    take_out(subject.file, subject.f, &types, cells, slots, n, place, a)?;
    let part = slots[n];
    ask_value(subject.file, subject.f, cells, slots, n + 2, v, part)?;
    copy(slots, left, last);
    Some(())
}

// A store to a pointer which has a dynamic index.
fn store_somewhere(
    pointer: &PointerExpression,
    cells: &mut [u32],
    slots: &mut [u32],
    n: usize,
    v: ExpressionHandle,
) -> Option<()>
    requires { SomewhereGiven (scope_in pointer.now) cells.old slots.old n v.0 }
    ensures { Stepped (scope_in pointer.now) (leaving (scope_in pointer.now) (in_slot cells.old slots.old (n - 1)) (ask_whole v.0 ∷ map ask_whole (indexes_in pointer.now))) cells.old slots.old n cells.new slots.new (fits result) }
{
    let last = n - 1;
    copy(slots, last, n);
    ask_indexes(pointer, cells, slots, n + 1)?;
    ask_value(pointer.file, pointer.f, cells, slots, n + 1, v, ALL_PIECE)?;
    copy(slots, n, last);
    Some(())
}

// The needs before a store of the value v to the pointer p. None where the needs pass the bound.
pub fn act_store(
    subject: &Subject,
    cells: &mut [u32],
    slots: &mut [u32],
    path: &mut [u32],
    n: usize,
    p: ExpressionHandle,
    v: ExpressionHandle,
) -> Option<()>
    requires act_given { ActGivenOf subject.now cells.old slots.old path.old n }
    requires store_of { StoreOf (scope_of subject.now) p.0 v.0 }
    ensures { Acted (scope_of subject.now) (store p.0 v.0) cells.old slots.old n cells.new slots.new path.old path.new (fits result) }
{
    let need = Need {
        subject: &*subject,
        cells,
        piece: slots[n - 1],
    };
    let pointer = PointerExpression {
        file: subject.file,
        f: subject.f,
        e: p,
    };
    let Some(a) = store_overlap(&need, path, &pointer) else {
        return Some(());
    };
    let target = pointer.find_target(path);
    if target.dynamic {
        return store_somewhere(&pointer, cells, slots, n, v);
    }
    let place = &path[target.from..target.to];
    store_at(subject, cells, slots, n, place, a, v)
}

// The statement l, a store of the value v to the pointer a, in a pass.
// Stays: l, marked, a and v side by side, for the one caller, as in `pass_emits`.
pub fn pass_store(
    subject: &Subject,
    cells: &mut [u32],
    slots: &mut [u32],
    path: &mut [u32],
    n: usize,
    p: Passing,
    l: u32,
    marked: bool,
    a: ExpressionHandle,
    v: ExpressionHandle,
) -> Option<Passing>
    requires pass_given { PassGivenOf subject.now cells.old slots.old path.old n (going p) }
    requires store_of { StoreOf (scope_of subject.now) a.0 v.0 }
    ensures { ByMark (scope_of subject.now) l marked (store a.0 v.0) cells.old slots.old n (going p) cells.new slots.new path.old path.new (outcome result) }
{
    let last = n - 1;
    if marked {
        act_store(subject, cells, slots, path, n, a, v)?;
        return Some(p);
    }
    let need = Need {
        subject: &*subject,
        cells,
        piece: slots[last],
    };
    let pointer = PointerExpression {
        file: subject.file,
        f: subject.f,
        e: a,
    };
    if store_idle(&need, path, &pointer) {
        return Some(p);
    }
    copy(slots, last, n);
    act_store(subject, cells, slots, path, n + 1, a, v)?;
    copy(slots, n, last);
    Some(blame(l, p))
}
