// The end of a called function, once its total is joined: of its context what it needs of its arguments is kept.
ghost use Rattle.std.specs.Prelude.{◌≡◌, ◌+◌, ◌≤◌, length};
ghost use Rattle.part.specs.StoreLimits.{entries_cap};
ghost use Rattle.memory.specs.Memory.{Memory};
ghost use Rattle.leave.specs.Leave.{RecordsAt, Placed, own_in, left_slots};

use access::file::File;
use memory::layout::{EXPRS, RETURNED};
use memory::memory::weigh;
use memory::stretches::{clear_context, forget};
use module::handles::FunctionHandle;

// Slots of records, from the first of a region on.
// Stays: `weigh`, `extend`, `forget` and the records' readers take a begin and a count; a `Range` would be made by a sum and read by a subtraction.
#[derive(Clone, Copy)]
pub struct Stretch {
    pub from: usize,
    pub n: usize,
}

// Those of f.
pub fn records_of(file: &File, f: FunctionHandle) -> Stretch
    ensures { RecordsAt file.now.t f.0 result }
{
    let row = file.row(f);
    Stretch {
        from: row.expressions_from(),
        n: row.expressions as usize,
    }
}

// What the records of the open function f count for.
pub fn own_pieces(file: &File, cells: &[u32], slots: &[u32], f: FunctionHandle) -> usize
    requires memory { Memory cells.now slots.now × Placed file.now.t slots.now f.0 }
    requires f_bound { own_in file.now.t cells.now slots.now f.0 ≤ entries_cap }
    ensures { result ≡ own_in file.now.t cells.now slots.now f.0 }
{
    let own = records_of(file, f);
    weigh(cells, slots, EXPRS + own.from, own.n)
}

// f ends, with its context in the slots from `at` on: what it needs of its arguments is returned, and its records and contexts are forgotten.
pub fn leave(file: &File, slots: &mut [u32], f: FunctionHandle, base: usize, at: usize)
    requires { Placed file.now.t slots.old f.0 × (base + 4 ≤ length slots.old) × (at + 4 ≤ length slots.old) }
    ensures { slots.new ≡ left_slots file.now.t slots.old f.0 base at }
{
    let own = records_of(file, f);
    slots[RETURNED] = slots[at + 2];
    forget(slots, EXPRS + own.from, own.n);
    clear_context(slots, base);
    clear_context(slots, at);
}
