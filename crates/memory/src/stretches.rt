// Stretches of slots: the four of a context, and the records of a function.
ghost use Rattle.std.specs.Prelude.{◌≡◌, ◌+◌, ◌≤◌, length, get_or};
ghost use Rattle.memory.specs.Stretches.{four_set, pieces_at, copied, forgotten};

use context::required_context::RequiredContext;
use part::store::EMPTY_PIECE;

// The context in the four slots from `at` on.
pub fn load_context(slots: &[u32], at: usize) -> RequiredContext
    requires { at + 4 ≤ length slots.now }
    ensures { result ≡ pieces_at slots.now at }
{
    RequiredContext {
        globals: slots[at],
        locals: slots[at + 1],
        args: slots[at + 2],
        retval: slots[at + 3],
    }
}

// A context into the four slots from `at` on.
pub fn save_context(slots: &mut [u32], at: usize, c: RequiredContext)
    requires { at + 4 ≤ length slots.old }
    ensures { slots.new ≡ four_set slots.old at c.globals c.locals c.args c.retval }
{
    slots[at] = c.globals;
    slots[at + 1] = c.locals;
    slots[at + 2] = c.args;
    slots[at + 3] = c.retval;
}

// The context in the slots from `from` on, into those from `to` on.
pub fn copy_context(slots: &mut [u32], from: usize, to: usize)
    requires { (from + 4 ≤ length slots.old) × (to + 4 ≤ length slots.old) }
    ensures { slots.new ≡ four_set slots.old to (get_or slots.old from 0) (get_or slots.old (from + 1) 0) (get_or slots.old (from + 2) 0) (get_or slots.old (from + 3) 0) }
{
    let c = load_context(slots, from);
    save_context(slots, to, c);
}

// The empty context, into the four slots from `at` on.
pub fn clear_context(slots: &mut [u32], at: usize)
    requires { at + 4 ≤ length slots.old }
    ensures { slots.new ≡ four_set slots.old at 2 2 2 2 }
{
    let empty = RequiredContext {
        globals: EMPTY_PIECE,
        locals: EMPTY_PIECE,
        args: EMPTY_PIECE,
        retval: EMPTY_PIECE,
    };
    save_context(slots, at, empty);
}

// `extend`: n records from `from` on, where there are any, over those from `to` on.
pub fn extend(slots: &mut [u32], from: usize, to: usize, n: usize)
    requires { (from + n ≤ to) × (to + n ≤ length slots.old) }
    ensures { slots.new ≡ copied slots.old from to n }
{
    // Stays: by number. Both stretches lie in one array: for a `zip` of them it is first cut by `split_at_mut`, and then each part by its own bounds.
    for k in 0..n {
        let r = slots[from + k];
        if r != EMPTY_PIECE {
            slots[to + k] = r;
        }
    }
}

// Forgets n records from `from` on.
pub fn forget(slots: &mut [u32], from: usize, n: usize)
    requires { from + n ≤ length slots.old }
    ensures { slots.new ≡ forgotten slots.old from n }
{
    slots[from..from + n].fill(EMPTY_PIECE);
}
