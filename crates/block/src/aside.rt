// A context put aside in the slot of the result, as one piece, while the current one is asked with.
ghost use Rattle.std.specs.Prelude.{◌+◌, ◌≤◌, length, get_or};
ghost use Rattle.part.specs.Store.{part};
ghost use Rattle.memory.specs.Layout.{result as result_slot, stack_slot};
ghost use Rattle.memory.specs.Memory.{Memory};
ghost use Rattle.block.specs.Saved.{Saved};
ghost use Rattle.block.specs.Aside.{from_aside, Asiding, Aside};

use context::required_context::RequiredContext;
use memory::layout::RESULT;
use memory::stretches::{load_context, save_context};
use part::limits::SPINE;
use part::store::{EMPTY_PIECE, make};
use part::subpart::subpart;

// The context at k.
pub fn put_aside(cells: &mut [u32], slots: &mut [u32], k: usize)
    requires { Asiding cells.old slots.old k }
    ensures { Aside cells.old slots.old k cells.new slots.new }
{
    let c = load_context(slots, k);
    let retval = make(cells, SPINE + 3, c.retval, EMPTY_PIECE);
    let args = make(cells, SPINE + 2, c.args, retval);
    let locals = make(cells, SPINE + 1, c.locals, args);
    let globals = make(cells, SPINE, c.globals, locals);
    slots[RESULT] = globals;
}

// Back to k.
pub fn take_back(cells: &[u32], slots: &mut [u32], k: usize)
    requires memory { Memory cells.now slots.old }
    requires stack_slot_le_k { (stack_slot ≤ k) × (k + 4 ≤ length slots.old) }
    ensures { Saved cells.now slots.old k (from_aside (part cells.now (get_or slots.old result_slot 0))) cells.now slots.new }
{
    let a = slots[RESULT];
    let globals = subpart(cells, a, SPINE);
    let locals = subpart(cells, a, SPINE + 1);
    let args = subpart(cells, a, SPINE + 2);
    let retval = subpart(cells, a, SPINE + 3);
    let c = RequiredContext {
        globals,
        locals,
        args,
        retval,
    };
    save_context(slots, k, c);
}
