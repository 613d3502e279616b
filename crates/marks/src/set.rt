// A statement's own marks, and all marks of a function, in the buffer of the open functions.
ghost use Rattle.std.specs.Prelude.{◌≡◌, [], ◌∷◌, ◌+◌, ◌<◌, ◌≤◌, length, replicate};
ghost use Rattle.walk.specs.StatementReq.{any, mark, marks_of};
ghost use Rattle.walk.specs.Marks.{write_marks};
ghost use Rattle.marks.specs.Places.{start_in, size_in, Inside, recorded_in};

use crate::lent::clear;
use crate::places::range;
use module::handles::FunctionHandle;
use part::store::EMPTY_PIECE;

pub fn set_mark(marks: &mut [u8], at: usize, b: bool)
    requires { at < length marks.old }
    ensures { marks.new ≡ write_marks marks.old at (mark b ∷ []) }
{
    marks[at] = u8::from(b);
}

// The two of a call.
pub fn set_call(marks: &mut [u8], at: usize, call_required: bool, result_required: bool)
    requires { at + 1 < length marks.old }
    ensures { marks.new ≡ write_marks marks.old at (mark call_required ∷ mark result_required ∷ []) }
{
    set_mark(marks, at, call_required);
    set_mark(marks, at + 1, result_required);
}

// Those of an emit: which of the n expressions have a record, whose slots begin at `from`. The answer says whether any has.
pub fn set_emit(marks: &mut [u8], at: usize, slots: &[u32], from: usize, n: usize) -> bool
    requires { (at + n ≤ length marks.old) × (from + n ≤ length slots.now) }
    ensures { (marks.new ≡ write_marks marks.old at (marks_of (recorded_in slots.now from n))) × (result ≡ any (recorded_in slots.now from n)) }
{
    let mut found = false;
    for (k, slot) in slots[from..from + n].iter().enumerate() {
        let recorded = *slot != EMPTY_PIECE;
        set_mark(marks, at + k, recorded);
        found |= recorded;
    }
    found
}

// No mark of f is set.
pub fn clear_marks(marks: &mut [u8], starts: &[u32], f: FunctionHandle)
    requires { Inside starts.now f.0 (length marks.old) }
    ensures { marks.new ≡ write_marks marks.old (start_in starts.now f.0) (replicate (size_in starts.now f.0) 0) }
{
    clear(&mut marks[range(starts, f)]);
}
