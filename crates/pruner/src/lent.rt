// A lent buffer of totals, read into a walk's memory.
ghost use Rattle.pruner.specs.Stored.{HasTotals};
ghost use Rattle.pruner.specs.Reading.{Untold, PrunerWasRead};
ghost use Rattle.marks.specs.Report.{totals_of};

use crate::buffer::{clear_flags, read_body};
use crate::frame::{is_fresh, record_length};
use access::file::File;

// None where the buffer means no totals.
pub fn read_pruner(
    file: &File,
    starts: &[u32],
    cells: &mut [u32],
    slots: &mut [u32],
    flags: &mut [bool],
    kept: &mut [u8],
    pruner: &[u8],
) -> Option<()>
    requires { HasTotals file.now.bytes file.now.t starts.now cells.old slots.old (totals_of flags.old kept.old) × Untold cells.old slots.old }
    ensures { PrunerWasRead file.now.bytes file.now.t cells.old slots.old pruner.now cells.new slots.new (totals_of flags.new kept.new) result }
{
    let n = file.functions() as usize;
    clear_flags(flags, n);
    if is_fresh(pruner) {
        return Some(());
    }
    let end = record_length(pruner)?;
    read_body(file, starts, cells, slots, flags, kept, &pruner[..end])
}
