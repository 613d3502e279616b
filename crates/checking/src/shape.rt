// Where the marks of a function stand in a buffer that has those of all functions, and whether they have its shape.
ghost use Rattle.std.specs.Prelude.{◌≡◌, ltb};
ghost use Rattle.std.specs.List.{list_all};
ghost use Rattle.module.specs.Tables.{module_of};
ghost use Rattle.valid.specs.There.{There};
ghost use Rattle.walk.specs.Marks.{stretch};
ghost use Rattle.marks.specs.Places.{start_of};
ghost use Rattle.checking.specs.Stretch.{MarksFound};

use access::file::File;
use marks::places::mark_count;
use module::handles::FunctionHandle;
use std::ops::Range;

// How many marks the function has.
fn mark_total(file: &File, f: FunctionHandle) -> u32
    requires { There file.now.bytes file.now.t f.0 }
    ensures { result ≡ stretch (module_of file.now.bytes file.now.t) f.0 }
{
    let n = file.statements(f);
    let mut at: u32 = 0;
    for s in 0..n {
        at += mark_count(file, f, s);
    }
    at
}

// How many the functions before it have.
fn marks_start(file: &File, f: FunctionHandle) -> u32
    requires { There file.now.bytes file.now.t f.0 }
    ensures { result ≡ start_of (module_of file.now.bytes file.now.t) f.0 }
{
    let n = f.0;
    let mut at: u32 = 0;
    for g in 0..n {
        at += mark_total(file, FunctionHandle(g));
    }
    at
}

// Whether each mark is 0 or 1.
fn are_bits(marks: &[u8]) -> bool
    ensures { result ≡ list_all (λ b. ltb b 2) marks.now }
{
    marks.iter().all(|mark| *mark < 2)
}

// The place of the function's part in the buffer, as far as it is there: well where the whole of it is and the marks have the function's shape.
pub fn marks_shape(
    file: &File,
    f: FunctionHandle,
    report: &[u8],
) -> Result<Range<usize>, Range<usize>>
    requires { There file.now.bytes file.now.t f.0 }
    ensures { MarksFound file.now.bytes file.now.t f.0 report.now result }
{
    let start = marks_start(file, f) as usize;
    let end = start + mark_total(file, f) as usize;
    let from = start.min(report.len());
    let to = end.min(report.len());
    if report.len() < end {
        return Err(from..to);
    }
    if are_bits(&report[from..to]) {
        Ok(from..to)
    } else {
        Err(from..to)
    }
}
