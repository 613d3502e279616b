// The marks of a store, in the word that links its chains else: what some roots reach is marked, 2 where it is held as a part, and 1 where
// it is only walked.
ghost use Rattle.std.specs.Prelude.{◌<◌, length};
ghost use Rattle.part.specs.Store.{top, Formed, Below};
ghost use Rattle.part.specs.Collect.{Cleared, Rooted, Marking};
ghost use Rattle.part.specs.Exact.{Raised, Mapped, Walked};

use crate::store::{FIRST_CELL, peek, set_word, word};

// The marks, 0 where there is none.
// Stays: numbers in a word of the store; an enum would be turned into the word and back at each read, and `raise` goes by their order.
pub(crate) const WALKED: u32 = 1;

pub(crate) const HELD: u32 = 2;

// Takes all marks away.
pub(crate) fn clear(cells: &mut [u32])
    requires { Formed cells.old }
    ensures { Cleared cells.old cells.new (top cells.old) }
{
    let end = cells[0];
    for n in 0..end {
        set_word(cells, n, 6, 0);
    }
}

// Marks the piece n, v at least.
fn raise(cells: &mut [u32], n: u32, v: u32)
    requires formed { Formed cells.old }
    requires n_bound { n < top cells.old }
    ensures { Raised cells.old cells.new n v }
{
    if v <= word(cells, n, 6) {
        return;
    }
    set_word(cells, n, 6, v);
}

// Marks the roots, to be walked.
pub(crate) fn mark_roots(cells: &mut [u32], roots: &[u32])
    requires formed { Formed cells.old }
    requires below { Below roots.now (top cells.old) }
    ensures rooted { Rooted roots.now cells.old cells.new (length roots.now) }
    ensures mapped { Mapped cells.old roots.now cells.new (length roots.now) }
{
    for n in roots {
        raise(cells, *n, WALKED);
    }
}

// Walks what is marked, from the last cell down, since what a cell names stands below it: an entry's requirement is held as a part, and what
// follows the entry is walked.
pub(crate) fn mark_down(cells: &mut [u32])
    requires { Formed cells.old }
    ensures marking { Marking cells.old cells.new 3 }
    ensures walked { Walked cells.old cells.new 3 }
{
    let end = cells[0];
    for n in (FIRST_CELL..end).rev() {
        if 0 < word(cells, n, 6) {
            let x = peek(cells, n);
            raise(cells, x.child, HELD);
            raise(cells, x.rest, WALKED);
        }
    }
}
