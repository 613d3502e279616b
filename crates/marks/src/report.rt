// The report: each function's part of it is lent on to the writer of a part.
ghost use Rattle.std.specs.Prelude.{◌≡◌, ◌<◌, ◌≤◌, length};
ghost use Rattle.field.specs.Limits.{max_functions, min_report};
ghost use Rattle.walk.specs.Marks.{write_marks};
ghost use Rattle.marks.specs.Places.{size_in, Inside, AllInside};
ghost use Rattle.marks.specs.Report.{totals_of, part_in, report_in};

use crate::lent::{clear, copy};
use crate::places::{range, start};
use module::handles::FunctionHandle;

fn write_part(
    part: &mut [u8],
    starts: &[u32],
    marks: &[u8],
    flags: &[bool],
    kept: &[u8],
    asked: FunctionHandle,
    f: FunctionHandle,
)
    requires { Inside starts.now f.0 min_report × (min_report ≤ length marks.now) × (length part.old ≡ size_in starts.now f.0) × (f.0 < length flags.now) × (min_report ≤ length kept.now) }
    ensures { part.new ≡ part_in starts.now marks.now (totals_of flags.now kept.now) asked.0 f.0 }
{
    let i = f.0 as usize;
    let from = start(starts, i);
    if f == asked {
        copy(part, marks, from);
        return;
    }
    if !flags[i] {
        clear(part);
        return;
    }
    copy(part, kept, from);
}

// The marks of the first n functions.
pub fn write_report(
    report: &mut [u8],
    starts: &[u32],
    marks: &[u8],
    flags: &[bool],
    kept: &[u8],
    asked: FunctionHandle,
    n: usize,
)
    requires { AllInside starts.now n min_report × (min_report ≤ length marks.now) × (n ≤ max_functions) × (n ≤ length flags.now) × (min_report ≤ length report.old) × (min_report ≤ length kept.now) }
    ensures { report.new ≡ write_marks report.old 0 (report_in starts.now marks.now (totals_of flags.now kept.now) asked.0 n) }
{
    for f in 0..n {
        let i = FunctionHandle(f as u32);
        let part = &mut report[range(starts, i)];
        write_part(part, starts, marks, flags, kept, asked, i);
    }
}
