// A function's total written from a walk's memory, list by list.
ghost use Rattle.std.specs.Prelude.{◌+◌, ◌≤◌, length};
ghost use Rattle.part.specs.Store.{top, Good, Below};
ghost use Rattle.request.specs.Written.{HasRoom, Writes};
ghost use Rattle.std.proofs.Math.Option.{some};
ghost use Rattle.request.specs.Context.{write_context_body};
ghost use Rattle.memory.specs.Memory.{read, records_of, context_at};
ghost use Rattle.pruner.specs.Form.{write_records, write_total};
ghost use Rattle.pruner.specs.Stored.{total_in, Stored};

use memory::stretches::load_context;
use request::write::{write_context_body, write_return};
use request::writer::Writer;

// Stays: the two loops here write marks and records. One loop for both is no plainer: a closure would write by the writer, and its contract would say
// for each call what theirs say once.
// One field for each mark.
pub fn write_marks(marks: &[u8], writer: &mut Writer)
    requires { HasRoom writer.old marks.now }
    ensures { Writes writer.old writer.new marks.now }
{
    for mark in marks {
        writer.field(*mark as u16);
    }
}

// The records of n expressions, whose slots begin at `base`.
pub fn write_records(cells: &[u32], slots: &[u32], base: usize, n: usize, writer: &mut Writer)
    requires good { Good cells.now }
    requires below { Below slots.now (top cells.now) }
    requires n_in_bounds { base + n ≤ length slots.now }
    requires fits { HasRoom writer.old (write_records (records_of (read cells.now slots.now) base n)) }
    ensures { Writes writer.old writer.new (write_records (records_of (read cells.now slots.now) base n)) }
{
    for p in &slots[base..base + n] {
        write_return(cells, *p, writer);
    }
}

// The lists of the context in the four slots from `context` on, in the order of its record.
pub fn write_lists(cells: &[u32], slots: &[u32], context: usize, writer: &mut Writer)
    requires good { Good cells.now }
    requires below { Below slots.now (top cells.now) }
    requires context_in_bounds { context + 4 ≤ length slots.now }
    requires fits { HasRoom writer.old (write_context_body (context_at (read cells.now slots.now) context)) }
    ensures { Writes writer.old writer.new (write_context_body (context_at (read cells.now slots.now) context)) }
{
    let c = load_context(slots, context);
    write_context_body(cells, c, writer);
}

// A function's total, after 1: its marks, the context in the slots from `context` on, and `count` records in those from `base` on.
pub fn write_total(
    cells: &[u32],
    slots: &[u32],
    marks: &[u8],
    context: usize,
    base: usize,
    count: usize,
    writer: &mut Writer,
)
    requires stored { Stored cells.now slots.now context base count }
    requires fits { HasRoom writer.old (write_total (some (total_in cells.now slots.now marks.now context base count))) }
    ensures { Writes writer.old writer.new (write_total (some (total_in cells.now slots.now marks.now context base count))) }
{
    writer.field(1);
    write_marks(marks, writer);
    write_lists(cells, slots, context, writer);
    write_records(cells, slots, base, count, writer);
}
