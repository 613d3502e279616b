// A need is put into the next slot. Whether the needs that are kept then pass the working bound is decided exactly, and mostly at once: each cell that
// a slot reaches is in use, so that only where more are in use than the bound allows the store is collected.
// Stays: n beside the slots. A pass reads the slots below n by number too (n - 1, an exit's), so a stack which keeps n would be opened for each of them.
ghost use Rattle.std.specs.Prelude.{◌≡◌, ◌<◌, length, get_or, set};
ghost use Rattle.part.specs.PartReq.{add};
ghost use Rattle.part.specs.Store.{top, part};
ghost use Rattle.hold.specs.Hold.{in_slot, Loose, Live, Cleaned, Pushed};
ghost use Rattle.hold.specs.Fits.{fits};

use part::collect::collect;
use part::sums::sum;

// The most cells that the needs kept at once may reach.
pub const WORK_BOUND: u32 = 65536;

// Frees the cells that the first n slots do not reach.
pub fn clean(cells: &mut [u32], slots: &mut [u32], n: usize)
    requires { Loose cells.old slots.old n }
    ensures { Cleaned cells.old slots.old n cells.new slots.new }
{
    collect(cells, &mut slots[..n]);
}

// The slot n has the piece p then. None where the needs pass the bound.
pub fn push(cells: &mut [u32], slots: &mut [u32], n: usize, p: u32) -> Option<()>
    requires loose { Loose cells.old slots.old n }
    requires n_in_bounds { n < length slots.old }
    requires p_bound { p < top cells.old }
    ensures { Pushed cells.old slots.old n (part cells.old p) cells.new slots.new (fits result) }
{
    slots[n] = p;
    if cells[0] <= 3 + WORK_BOUND {
        return Some(());
    }
    clean(cells, slots, n + 1);
    (cells[0] <= 3 + WORK_BOUND).then_some(())
}

// The slot n has the sum of the slots i and j then. Where there is no room for it, not even after a collection, it passes the bound.
pub fn push_sum(cells: &mut [u32], slots: &mut [u32], n: usize, i: usize, j: usize) -> Option<()>
    requires live { Live cells.old slots.old n }
    requires n_in_bounds { n < length slots.old }
    requires i_lt_n { (i < n) × (j < n) }
    ensures { Pushed cells.old slots.old n (add (in_slot cells.old slots.old i) (in_slot cells.old slots.old j)) cells.new slots.new (fits result) }
{
    if let Some(first) = sum(cells, slots[i], slots[j]) {
        return push(cells, slots, n, first);
    }
    clean(cells, slots, n);
    if let Some(second) = sum(cells, slots[i], slots[j]) {
        return push(cells, slots, n, second);
    }
    None
}

// The slot j has what the slot i has.
pub fn copy(slots: &mut [u32], i: usize, j: usize)
    requires { (i < length slots.old) × (j < length slots.old) }
    ensures { slots.new ≡ set slots.old j (get_or slots.old i 0) }
{
    slots[j] = slots[i];
}
