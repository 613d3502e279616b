// The whole text of a report, and of a refusal.
ghost use Rattle.std.specs.Prelude.{◌≡◌, ◌+◌, ◌≤◌, length};
ghost use Rattle.module.specs.Tables.{row_at, items_to, max_items};
ghost use Rattle.memory.specs.Layout.{exprs_slot};
ghost use Rattle.memory.specs.Memory.{read, context_at, Memory};
ghost use Rattle.state.specs.State.{records_in};
ghost use Rattle.lines.specs.Text.{context_text, records_text, refused_text};
ghost use Rattle.lines.specs.Reported.{max_text, ReportingIn, text_in};
ghost use Rattle.lines.specs.Wrote.{Fits, Writes, Begins};

use crate::contexts::write_context;
use crate::records::write_records;
use crate::required::write_required;
use crate::statements::write_statements;
use crate::text::Text;
use access::file::File;
use field::limits::{MAX_EXPRESSIONS, MAX_PIECES, MAX_STATEMENTS};
use memory::layout::EXPRS;
use memory::stretches::load_context;
use module::handles::FunctionHandle;
use module::tables::row_at;

// The most bytes that a text has.
pub const MAX_TEXT: usize = 13
    + 38 * MAX_PIECES
    + 22 * MAX_STATEMENTS
    + 4 * (2 * MAX_STATEMENTS + MAX_EXPRESSIONS);

// The lines of the context in the four slots from k on.
fn write_context_at(text: &mut Text, cells: &[u32], slots: &[u32], k: usize)
    requires { Memory cells.now slots.now × (k + 4 ≤ length slots.now) × Fits text.old.at (context_text (context_at (read cells.now slots.now) k)) }
    ensures { Writes text.old text.new (context_text (context_at (read cells.now slots.now) k)) }
{
    let c = load_context(slots, k);
    write_context(text, cells, c);
}

// The lines of the records of f, which is open.
fn write_records_of(text: &mut Text, file: &File, cells: &[u32], slots: &[u32], f: FunctionHandle)
    requires { Memory cells.now slots.now × (items_to (row_at file.now.t f.0) ≤ max_items) × Fits text.old.at (records_text 0 (records_in file.now.t exprs_slot f.0 (read cells.now slots.now))) }
    ensures { Writes text.old text.new (records_text 0 (records_in file.now.t exprs_slot f.0 (read cells.now slots.now))) }
{
    let row = file.row(f);
    let first = EXPRS + row.expressions_from();
    write_records(text, cells, slots, first, row.expressions as usize);
}

// The lines of the report on f, whose context stands in the slots from `at` on; they begin at byte 0.
pub fn write_report_text(
    text: &mut Text,
    file: &File,
    firsts: &[u32],
    cells: &[u32],
    slots: &[u32],
    marks: &[u8],
    f: FunctionHandle,
    at: usize,
    required: bool,
)
    requires { ReportingIn file.now.bytes file.now.t firsts.now cells.now slots.now marks.now f.0 at × (text.old.at ≡ 0) × (max_text ≤ length text.old.out.now) }
    ensures { Begins text.old text.new (text_in file.now.bytes file.now.t cells.now slots.now marks.now f.0 at required) }
{
    write_required(text, required);
    write_context_at(text, cells, slots, at);
    write_records_of(text, file, cells, slots, f);
    write_statements(text, file, firsts, marks, f);
}

pub fn write_refused(text: &mut Text, n: u32)
    requires { (text.old.at ≡ 0) × (max_text ≤ length text.old.out.now) }
    ensures { Begins text.old text.new (refused_text n) }
{
    text.word(b"refused ");
    text.number(n);
    text.byte(b'\n');
}
