// The body of a buffer of totals: the total of globals, and those of all functions, one after the other.
ghost use Rattle.std.specs.Prelude.{◌+◌, ◌≤◌, length, drop};
ghost use Rattle.field.specs.Limits.{max_pieces, max_functions};
ghost use Rattle.module.specs.Tables.{max_items};
ghost use Rattle.pruner.specs.Stored.{HasTotals};
ghost use Rattle.pruner.specs.Reading.{RoomBeside, NoTotals, FlagsCleared, FunctionsWereRead, BodyWasRead};
ghost use Rattle.marks.specs.Report.{totals_of};

use crate::reader::read_map;
use crate::total::read_total;
use access::file::File;
use field::limits::MAX_PIECES;
use memory::layout::GLOBALS;
use module::handles::FunctionHandle;
use part::store::entries;
use request::record::ends;

// No function has a total.
pub fn clear_flags(flags: &mut [bool], n: usize)
    requires { n ≤ length flags.old }
    ensures { FlagsCleared flags.old n flags.new }
{
    flags[..n].fill(false);
}

pub fn read_functions<'a>(
    file: &File,
    starts: &[u32],
    cells: &mut [u32],
    slots: &mut [u32],
    flags: &mut [bool],
    kept: &mut [u8],
    pruner: &'a [u8],
    sum: usize,
) -> Option<(&'a [u8], usize)>
    requires has_totals { HasTotals file.now.bytes file.now.t starts.now cells.old slots.old (totals_of flags.old kept.old) × NoTotals file.now.bytes file.now.t cells.old slots.old (totals_of flags.old kept.old) }
    requires room { RoomBeside cells.old pruner.now (max_items + max_functions) × (sum ≤ max_pieces) }
    ensures { FunctionsWereRead file.now.bytes file.now.t cells.old slots.old pruner.now sum cells.new slots.new (totals_of flags.new kept.new) result }
{
    let mut left = pruner;
    let mut count = sum;
    for f in 0..file.functions() {
        let f = FunctionHandle(f);
        let (rest, m) = read_total(file, starts, cells, slots, flags, kept, left, f, count)?;
        left = rest;
        count = m;
    }
    Some((left, count))
}

// The fields of a buffer's record, behind its header. None where they are no totals that 16 allows.
pub fn read_body(
    file: &File,
    starts: &[u32],
    cells: &mut [u32],
    slots: &mut [u32],
    flags: &mut [bool],
    kept: &mut [u8],
    pruner: &[u8],
) -> Option<()>
    requires has_totals { HasTotals file.now.bytes file.now.t starts.now cells.old slots.old (totals_of flags.old kept.old) × NoTotals file.now.bytes file.now.t cells.old slots.old (totals_of flags.old kept.old) }
    requires in_bounds { (6 ≤ length pruner.now) × RoomBeside cells.old (drop 6 pruner.now) (max_items + max_functions) }
    ensures { BodyWasRead file.now.bytes file.now.t cells.old slots.old pruner.now cells.new slots.new (totals_of flags.new kept.new) result }
{
    let n = file.globals();
    let (g, functions) = read_map(cells, &pruner[6..], n)?;
    let count = entries(cells, g) as usize;
    if MAX_PIECES < count {
        return None;
    }
    slots[GLOBALS] = g;
    let (left, _) = read_functions(file, starts, cells, slots, flags, kept, functions, count)?;
    ends(left).then_some(())
}
