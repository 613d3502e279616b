// A function's marks put into the totals: as they are, or joined to those of an earlier total.
ghost use Rattle.std.specs.Prelude.{Bool, List, ◌<◌, ◌≤◌, length};
ghost use Rattle.field.specs.Limits.{min_report};
ghost use Rattle.marks.specs.Places.{Inside};
ghost use Rattle.marks.specs.Report.{totals_of, MarksKept, MarksJoined};

use crate::lent::{add, copy};
use crate::places::range;
use module::handles::FunctionHandle;

// The first total of f: its marks as they are.
pub fn keep_marks(
    flags: &mut [bool],
    kept: &mut [u8],
    marks: &[u8],
    starts: &[u32],
    f: FunctionHandle,
)
    requires { Inside starts.now f.0 min_report × (min_report ≤ length marks.now) × (f.0 < length flags.old) × (min_report ≤ length kept.old) }
    ensures { MarksKept starts.now marks.now (totals_of flags.old kept.old) f.0 (totals_of flags.new kept.new) }
{
    let own = range(starts, f);
    flags[f.0 as usize] = true;
    copy(&mut kept[own.start..own.end], marks, own.start);
}

// A later one: joined to the marks of the total.
pub fn add_marks(kept: &mut [u8], marks: &[u8], starts: &[u32], f: FunctionHandle)
    requires { Inside starts.now f.0 min_report × (min_report ≤ length marks.now) × (min_report ≤ length kept.old) }
    ensures { (flags : List Bool) → MarksJoined starts.now marks.now (totals_of flags kept.old) f.0 (totals_of flags kept.new) }
{
    let own = range(starts, f);
    add(&mut kept[own.start..own.end], marks, own.start);
}
