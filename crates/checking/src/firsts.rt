// The place of each statement's first mark in its function's stretch, by a table.
// Stays: by number, which `mark_count` takes, and a loop beside two others. `mark_total` (shape) has no table to write to. `place_statements` (marks) counts
// from the file's first mark and writes by the number among its items: one for both takes the stretch of a table and where its marks begin, asks that
// their sum fits a u32, and `place_marks` cuts that stretch for each function and shows that it is within, for a loop of two lines.
ghost use Rattle.std.specs.Prelude.{◌≤◌, length};
ghost use Rattle.module.specs.Tables.{function_of};
ghost use Rattle.valid.specs.There.{There};
ghost use Rattle.checking.specs.Stretch.{Firsts};

use access::file::File;
use marks::places::mark_count;
use module::handles::FunctionHandle;

pub fn fill_firsts(file: &File, f: FunctionHandle, firsts: &mut [u32])
    requires { There file.now.bytes file.now.t f.0 × (length (function_of file.now.bytes file.now.t f.0).statements ≤ length firsts.old) }
    ensures { Firsts (function_of file.now.bytes file.now.t f.0).statements firsts.new }
{
    let n = file.statements(f);
    let mut at: u32 = 0;
    for s in 0..n {
        firsts[s as usize] = at;
        at += mark_count(file, f, s);
    }
}
