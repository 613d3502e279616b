// The context and the records of a total, read into the slots of a walk's memory. Pieces are counted on the way: more than 16 allows are refused at once.
ghost use Rattle.std.specs.Prelude.{◌+◌, ◌≤◌, length};
ghost use Rattle.field.specs.Limits.{max_pieces};
ghost use Rattle.request.specs.Context.{read_context_body, known_context};
ghost use Rattle.request.specs.Fields.{fields};
ghost use Rattle.request.specs.Answers.{Limits};
ghost use Rattle.memory.specs.Layout.{exprs_slot, functions_slot};
ghost use Rattle.memory.specs.Memory.{Memory};
ghost use Rattle.pruner.specs.Form.{only};
ghost use Rattle.pruner.specs.Reading.{RoomBeside, RecordsWereRead, ContextWasStored};

use crate::reader::{read_lists, read_single};
use field::limits::MAX_PIECES;
use memory::stretches::save_context;
use part::store::entries;

// n records, into the slots from `base` on. The bytes that are left and how many pieces there are, or nothing, if they are refused.
pub fn read_records<'a>(
    cells: &mut [u32],
    slots: &mut [u32],
    pruner: &'a [u8],
    base: usize,
    n: usize,
    sum: usize,
) -> Option<(&'a [u8], usize)>
    requires memory { Memory cells.old slots.old × (exprs_slot ≤ base) × (base + n ≤ functions_slot) }
    requires room { RoomBeside cells.old pruner.now n × (sum ≤ max_pieces) }
    ensures { RecordsWereRead cells.old slots.old pruner.now base n sum cells.new slots.new result }
{
    let mut left = pruner;
    let mut count = sum;
    // Stays: by number. The invariant says what memory has after each record; while a stretch of the slots is lent, they are what stands before it, the
    // stretch and what stands behind it, put together in five of its nine facts.
    for k in 0..n {
        let (p, rest) = read_single(cells, left, 0)?;
        count += entries(cells, p) as usize;
        if MAX_PIECES < count {
            return None;
        }
        slots[base + k] = p;
        left = rest;
    }
    Some((left, count))
}

// The lists of a context, into the four slots from `slot` on.
pub fn read_context<'a>(
    cells: &mut [u32],
    slots: &mut [u32],
    pruner: &'a [u8],
    slot: usize,
    globals: u32,
    args: u32,
    locals: u32,
    sum: usize,
) -> Option<(&'a [u8], usize)>
    requires memory { Memory cells.old slots.old × (functions_slot ≤ slot) × (slot + 4 ≤ length slots.old) }
    requires room { RoomBeside cells.old pruner.now 1 × (sum ≤ max_pieces) }
    requires limits { Limits globals args locals }
    ensures { ContextWasStored cells.old slots.old pruner.now slot sum (only (known_context globals args locals) (read_context_body (fields pruner.now))) cells.new slots.new result }
{
    let (c, rest) = read_lists(cells, pruner, globals, args, locals)?;
    let g = entries(cells, c.globals) as usize;
    let l = entries(cells, c.locals) as usize;
    let a = entries(cells, c.args) as usize;
    let p = entries(cells, c.retval) as usize;
    let count = sum + (g + l + a + p);
    if MAX_PIECES < count {
        return None;
    }
    save_context(slots, slot, c);
    Some((rest, count))
}
