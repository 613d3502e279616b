// Two contexts above the current one, as two blocks leave them: joined in its place, or forgotten.
ghost use Rattle.std.specs.Prelude.{◌+◌, ◌≤◌, length};
ghost use Rattle.std.specs.Option.{is_none};
ghost use Rattle.part.specs.Store.{Room};
ghost use Rattle.context.specs.RequiredContext.{pieces};
ghost use Rattle.memory.specs.Layout.{stack_slot};
ghost use Rattle.memory.specs.Memory.{read, context_at, Memory};
ghost use Rattle.block.specs.Branches.{JoinedUp, BothDropped};

use crate::stack::{drop, join, lower};

// The two contexts behind the one at k are joined in its place. None where that passes a limit.
pub fn join_up(cells: &mut [u32], slots: &mut [u32], k: usize) -> Option<()>
    requires memory { Memory cells.old slots.old }
    requires stack_slot_le_k { (stack_slot ≤ k) × (k + 12 ≤ length slots.old) }
    requires room { Room cells.old (pieces (context_at (read cells.old slots.old) (k + 4)) + pieces (context_at (read cells.old slots.old) (k + 4 + 4))) }
    ensures { JoinedUp cells.old slots.old k (is_none result) cells.new slots.new }
{
    let fits = join(cells, slots, k + 4);
    lower(slots, k);
    fits
}

// They are forgotten.
pub fn drop_both(slots: &mut [u32], k: usize)
    requires { k + 12 ≤ length slots.old }
    ensures { BothDropped slots.old k slots.new }
{
    drop(slots, k + 4);
    drop(slots, k);
}
