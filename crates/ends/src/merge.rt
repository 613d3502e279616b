// Two slots that become one, and the end of a loop.
ghost use Rattle.std.specs.Prelude.{◌+◌, ◌<◌, length};
ghost use Rattle.hold.specs.Hold.{Live};
ghost use Rattle.standing.specs.Slots.{table_size, stack_slot};
ghost use Rattle.ends.specs.Merged.{Merged, LoopEnds};
ghost use Rattle.standing.specs.Passing.{going, outcome};
ghost use Rattle.hold.specs.Fits.{fits};

use hold::hold::{copy, push_sum};
use part::sums::covers;
use standing::passing::{Passing, TABLE};

// Of n + 1 slots the last two become one, which has the sum of the slots i and j. None where the needs pass the bound.
pub fn merge(cells: &mut [u32], slots: &mut [u32], n: usize, i: usize, j: usize) -> Option<()>
    requires live { Live cells.old slots.old (n + 1) }
    requires n_nonzero { (0 < n) × (n + 1 < length slots.old) }
    requires i_bound { (i < n + 1) × (j < n + 1) }
    ensures { Merged cells.old slots.old n i j cells.new slots.new (fits result) }
{
    let above = n + 1;
    push_sum(cells, slots, above, i, j)?;
    let last = n - 1;
    copy(slots, above, last);
    Some(())
}

// The loop l ends: what stands before its body, in the slot n + 1, is joined to the new table and is at hand. Its re-entry needs held if they have it.
pub fn end_loop(
    cells: &mut [u32],
    slots: &mut [u32],
    n: usize,
    l: usize,
    p: Passing,
) -> Option<Passing>
    requires live { Live cells.old slots.old (n + 1 + 1) }
    requires stack_slot_lt_n { (stack_slot < n) × (l < table_size) }
    ensures { LoopEnds l cells.old slots.old n (going p) cells.new slots.new (outcome result) }
{
    let last = n - 1;
    let body = n + 1;
    copy(slots, body, last);
    let new = TABLE + l;
    push_sum(cells, slots, n, last, new)?;
    copy(slots, n, new);
    let holds = covers(cells, slots[l], slots[last]);
    Some(Passing {
        held: holds && p.held,
        ..p
    })
}
