// The total of a function, read into its slots, its flag and its marks.
ghost use Rattle.std.specs.Prelude.{◌≡◌, false, ◌+◌, ◌≤◌, ◌<◌, length};
ghost use Rattle.field.specs.Limits.{max_pieces};
ghost use Rattle.module.specs.Tables.{row_at, module_of};
ghost use Rattle.marks.specs.Report.{has_total, totals_of};
ghost use Rattle.pruner.specs.Stored.{HasTotals};
ghost use Rattle.pruner.specs.Reading.{RoomBeside, KeptWasRead, TotalWasRead};

use crate::kept::{read_context, read_records};
use crate::reader::read_marks;
use access::file::File;
use leave::leave::records_of;
use marks::places::range;
use memory::layout::{FUNCTIONS, TOTALS};
use module::handles::FunctionHandle;
use request::record::field;

// The total of f, behind its flag.
pub fn read_kept<'a>(
    file: &File,
    starts: &[u32],
    cells: &mut [u32],
    slots: &mut [u32],
    flags: &mut [bool],
    kept: &mut [u8],
    pruner: &'a [u8],
    f: FunctionHandle,
    sum: usize,
) -> Option<(&'a [u8], usize)>
    requires has_totals { HasTotals file.now.bytes file.now.t starts.now cells.old slots.old (totals_of flags.old kept.old) × (f.0 < length (module_of file.now.bytes file.now.t).functions) }
    requires room { RoomBeside cells.old pruner.now (1 + (row_at file.now.t f.0).expressions) × (sum ≤ max_pieces) }
    ensures { KeptWasRead file.now.bytes file.now.t cells.old slots.old (totals_of flags.old kept.old) pruner.now f.0 sum cells.new slots.new (totals_of flags.new kept.new) result }
{
    let i = f.0 as usize;
    let own = range(starts, f);
    flags[i] = true;
    let lists = read_marks(pruner, &mut kept[own.start..own.end])?;
    let slot = FUNCTIONS + 4 * i;
    let g = file.globals();
    let a = file.arguments(f);
    let l = file.locals(f);
    let (left, count) = read_context(cells, slots, lists, slot, g, a, l, sum)?;
    let records = records_of(file, f);
    let base = TOTALS + records.from;
    read_records(cells, slots, left, base, records.n, count)
}

// The total of f after 1, or none after 0. It has none yet.
pub fn read_total<'a>(
    file: &File,
    starts: &[u32],
    cells: &mut [u32],
    slots: &mut [u32],
    flags: &mut [bool],
    kept: &mut [u8],
    pruner: &'a [u8],
    f: FunctionHandle,
    sum: usize,
) -> Option<(&'a [u8], usize)>
    requires has_totals { HasTotals file.now.bytes file.now.t starts.now cells.old slots.old (totals_of flags.old kept.old) × (f.0 < length (module_of file.now.bytes file.now.t).functions) × (has_total (totals_of flags.old kept.old) f.0 ≡ false) }
    requires room { RoomBeside cells.old pruner.now (1 + (row_at file.now.t f.0).expressions) × (sum ≤ max_pieces) }
    ensures { TotalWasRead file.now.bytes file.now.t cells.old slots.old (totals_of flags.old kept.old) pruner.now f.0 sum cells.new slots.new (totals_of flags.new kept.new) result }
{
    let (flag, rest) = field(pruner)?;
    if flag == 0 {
        return Some((rest, sum));
    }
    if flag != 1 {
        return None;
    }
    read_kept(file, starts, cells, slots, flags, kept, rest, f, sum)
}
