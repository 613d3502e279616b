// The stack of contexts, four slots each: the two at its top become one.
ghost use Rattle.std.specs.Prelude.{◌≡◌, ◌+◌, ◌≤◌, length};
ghost use Rattle.std.specs.Option.{is_none};
ghost use Rattle.part.specs.Store.{Room};
ghost use Rattle.context.specs.RequiredContext.{contains_context, pieces};
ghost use Rattle.memory.specs.Layout.{stack_slot};
ghost use Rattle.memory.specs.Memory.{read, context_at, Memory};
ghost use Rattle.block.specs.Saved.{Lowered, Dropped, Joined};

use memory::stretches::{clear_context, copy_context, load_context, save_context};

// The context behind the one at k takes its place.
pub fn lower(slots: &mut [u32], k: usize)
    requires { k + 8 ≤ length slots.old }
    ensures { Lowered slots.old k slots.new }
{
    copy_context(slots, k + 4, k);
    clear_context(slots, k + 4);
}

// The context behind the one at k is forgotten.
pub fn drop(slots: &mut [u32], k: usize)
    requires { k + 8 ≤ length slots.old }
    ensures { Dropped slots.old k slots.new }
{
    clear_context(slots, k + 4);
}

// The contexts at k and behind it are joined, at k. None where that passes a limit.
pub fn join(cells: &mut [u32], slots: &mut [u32], k: usize) -> Option<()>
    requires memory { Memory cells.old slots.old }
    requires stack_slot_le_k { (stack_slot ≤ k) × (k + 8 ≤ length slots.old) }
    requires room { Room cells.old (pieces (context_at (read cells.old slots.old) k) + pieces (context_at (read cells.old slots.old) (k + 4))) }
    ensures { Joined cells.old slots.old k (is_none result) cells.new slots.new }
{
    let lower = load_context(slots, k);
    let upper = load_context(slots, k + 4);
    let joined = lower.merge(cells, upper);
    save_context(slots, k, joined);
    clear_context(slots, k + 4);
    (!joined.over(cells)).then_some(())
}

// Whether the context at k contains the one behind it.
pub fn settled(cells: &[u32], slots: &[u32], k: usize) -> bool
    requires memory { Memory cells.now slots.now }
    requires k_in_bounds { k + 8 ≤ length slots.now }
    ensures { result ≡ contains_context (context_at (read cells.now slots.now) k) (context_at (read cells.now slots.now) (k + 4)) }
{
    let working = load_context(slots, k);
    let turn = load_context(slots, k + 4);
    working.contains(cells, turn)
}
