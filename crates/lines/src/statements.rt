// The lines of a function's statements.
ghost use Rattle.std.specs.Prelude.{◌≤◌, length};
ghost use Rattle.module.specs.Marks.{mark_count};
ghost use Rattle.access.specs.Access.{statement_at};
ghost use Rattle.lines.specs.Text.{statement_text};
ghost use Rattle.lines.specs.Reported.{MarkedIn, statements_in};
ghost use Rattle.lines.specs.Wrote.{Fits, Writes};

use crate::names::write_name;
use crate::own_marks::write_own_marks;
use crate::text::Text;
use access::file::File;
use marks::places::{mark_count, place};
use module::handles::FunctionHandle;

// The line of the statement s of f, whose marks are the first of `marks`.
fn write_statement(text: &mut Text, file: &File, marks: &[u8], f: FunctionHandle, s: u32)
    requires { (mark_count (statement_at file.now.bytes file.now.t f.0 s) ≤ length marks.now) × Fits text.old.at (statement_text s (statement_at file.now.bytes file.now.t f.0 s) marks.now) }
    ensures { Writes text.old text.new (statement_text s (statement_at file.now.bytes file.now.t f.0 s) marks.now) }
{
    let row = file.statement(f, s);
    let n = mark_count(file, f, s) as usize;
    text.word(b"stmt ");
    text.number(s);
    text.byte(b' ');
    write_name(text, row.kind);
    write_own_marks(text, &marks[..n]);
    text.byte(b'\n');
}

// A line for each statement of f.
pub fn write_statements(
    text: &mut Text,
    file: &File,
    firsts: &[u32],
    marks: &[u8],
    f: FunctionHandle,
)
    requires { MarkedIn file.now.bytes file.now.t firsts.now marks.now f.0 × Fits text.old.at (statements_in file.now.bytes file.now.t marks.now f.0) }
    ensures { Writes text.old text.new (statements_in file.now.bytes file.now.t marks.now f.0) }
{
    let n = file.statements(f);
    for s in 0..n {
        let from = place(file, firsts, f, s);
        write_statement(text, file, &marks[from..], f, s);
    }
}
