// A call begins.
ghost use Rattle.std.specs.Prelude.{◌≡◌, ◌+◌, ◌≤◌, length, get_or, replicate};
ghost use Rattle.walk.specs.Marks.{write_marks};
ghost use Rattle.memory.specs.Stretches.{four_set};
ghost use Rattle.marks.specs.Places.{start_in, size_in, Inside};

use context::required_context::RequiredContext;
use marks::set::clear_marks;
use memory::stretches::save_context;
use module::handles::FunctionHandle;
use part::store::EMPTY_PIECE;

// The base context of the called function g, above the current one at `at`: what is needed of the globals, and of the result. No mark of g is set.
pub fn enter(
    slots: &mut [u32],
    open: &mut [u8],
    starts: &[u32],
    g: FunctionHandle,
    at: usize,
    retval: u32,
)
    requires at_in_bounds { at + 8 ≤ length slots.old }
    requires inside { Inside starts.now g.0 (length «open».old) }
    ensures slots_after { slots.new ≡ four_set slots.old (at + 4) (get_or slots.old at 0) 2 2 retval }
    ensures open_after { «open».new ≡ write_marks «open».old (start_in starts.now g.0) (replicate (size_in starts.now g.0) 0) }
{
    let c = RequiredContext {
        globals: slots[at],
        locals: EMPTY_PIECE,
        args: EMPTY_PIECE,
        retval,
    };
    save_context(slots, at + 4, c);
    clear_marks(open, starts, g);
}
