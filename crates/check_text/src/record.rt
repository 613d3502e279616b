// The context of a report as bytes.
ghost use Rattle.std.specs.Prelude.{◌+◌, ◌*◌, ◌≤◌, length};
ghost use Rattle.field.specs.Limits.{max_pieces};
ghost use Rattle.context.specs.RequiredContext.{pieces};
ghost use Rattle.memory.specs.Memory.{read, context_at, Memory};
ghost use Rattle.check_text.specs.Checked.{max_record, Recorded};

use field::limits::MAX_PIECES;
use memory::stretches::load_context;
use request::write::write_context;

// The most bytes of the record.
pub const MAX_RECORD: usize = 14 + 12 * MAX_PIECES;

// The record of the context in the four slots from k on; the answer is its length.
pub fn write_record(cells: &[u32], slots: &[u32], k: usize, out: &mut [u8]) -> usize
    requires memory { Memory cells.now slots.now × (k + 4 ≤ length slots.now) }
    requires k_bound { (pieces (context_at (read cells.now slots.now) k) ≤ 2 * max_pieces) × (max_record ≤ length out.old) }
    ensures { Recorded out.new result (context_at (read cells.now slots.now) k) }
{
    let c = load_context(slots, k);
    write_context(cells, c, out)
}
