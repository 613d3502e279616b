// The lines of a function's records.
ghost use Rattle.std.specs.Prelude.{◌+◌, ◌<◌, ◌≤◌, length};
ghost use Rattle.part.specs.Store.{Good, top, part, Below};
ghost use Rattle.memory.specs.Memory.{read, record_of, records_of};
ghost use Rattle.lines.specs.Text.{record_text, records_text};
ghost use Rattle.lines.specs.Wrote.{longest, Fits, Writes};

use crate::contexts::write_line;
use crate::text::Text;
use module::handles::ExpressionHandle;
use part::store::{EMPTY_PIECE, look};

// The line of expression e, whose slot has the piece p: the empty part, or an entry with what is recorded.
fn write_record(text: &mut Text, cells: &[u32], e: ExpressionHandle, p: u32)
    requires good { Good cells.now }
    requires p_bound { (p < top cells.now) × Fits text.old.at (record_text e.0 (record_of (part cells.now p))) }
    ensures { Writes text.old text.new (record_text e.0 (record_of (part cells.now p))) }
{
    if p <= EMPTY_PIECE {
        return;
    }
    let x = look(cells, p);
    write_line(text, cells, b"expr ", e.0, x.child);
}

// A line for each record of n expressions, whose slots begin at `base`.
pub fn write_records(text: &mut Text, cells: &[u32], slots: &[u32], base: usize, n: usize)
    requires good { Good cells.now × Below slots.now (top cells.now) }
    requires n_in_bounds { (base + n ≤ length slots.now) × (n < longest) × Fits text.old.at (records_text 0 (records_of (read cells.now slots.now) base n)) }
    ensures { Writes text.old text.new (records_text 0 (records_of (read cells.now slots.now) base n)) }
{
    for (k, &p) in slots[base..base + n].iter().enumerate() {
        write_record(text, cells, ExpressionHandle(k as u32), p);
    }
}
