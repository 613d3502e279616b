// The tables of the marks' places: filled once, in one pass over the statements.
ghost use Rattle.std.specs.Prelude.{◌≡◌, suc, ◌+◌, ◌-◌, ◌<◌, ◌≤◌, length, get_or, replicate};
ghost use Rattle.module.specs.Marks.{mark_count};
ghost use Rattle.module.specs.Tables.{row_at, module_of, max_items};
ghost use Rattle.access.specs.Access.{statement_number, statement_at};
ghost use Rattle.access.specs.Laid.{WasRead};
ghost use Rattle.field.specs.Limits.{max_functions};
ghost use Rattle.marks.specs.Places.{places_of, start_of, placed_in, Places};

use access::file::File;
use field::limits::MAX_FUNCTIONS;
use module::handles::FunctionHandle;
use module::kinds::StatementKind;
use module::tables::{MAX_ITEMS, put, row_at, word};
use std::ops::Range;

// One more than there may be functions, since the last one's marks end there.
pub const STARTS: usize = MAX_FUNCTIONS + 1;

// Where the marks of each function begin, and those of each statement, by its number among the items of the file.
#[derive(Drop)]
pub struct MarkPlaces {
    pub starts: [u32; STARTS],
    pub firsts: [u32; MAX_ITEMS],
}

// The number of a statement among the items of the file.
fn statement_number(file: &File, f: FunctionHandle, s: u32) -> usize
    ensures { result ≡ statement_number file.now.t f.0 s }
{
    file.row(f).statements_from() + (s as usize)
}

// Where the marks of the first f functions end: those of the function f, if there is one, begin there.
pub fn start(starts: &[u32], f: usize) -> usize
    requires { f < length starts.now }
    ensures { result ≡ get_or starts.now f 0 }
{
    starts[f] as usize
}

// The marks of f, by their places.
pub fn range(starts: &[u32], f: FunctionHandle) -> Range<usize>
    requires { f.0 + 1 < length starts.now }
    ensures start { result.start ≡ get_or starts.now f.0 0 }
    ensures end { result.end ≡ get_or starts.now (f.0 + 1) 0 }
{
    let i = f.0 as usize;
    start(starts, i)..start(starts, i + 1)
}

// Where the marks of the statement s of f begin.
pub fn place(file: &File, firsts: &[u32], f: FunctionHandle, s: u32) -> usize
    ensures { result ≡ get_or firsts.now (statement_number file.now.t f.0 s) 0 }
{
    word(firsts, statement_number(file, f, s)) as usize
}

// How many numbers there are from first to last.
fn range_count(first: u16, last: u16) -> u32
    ensures { result ≡ suc last - first }
{
    let end = (last as u32) + 1;
    end.saturating_sub(first as u32)
}

// An emit has a mark for each expression from its first to its last.
pub fn mark_count(file: &File, f: FunctionHandle, s: u32) -> u32
    ensures { result ≡ mark_count (statement_at file.now.bytes file.now.t f.0 s) }
{
    let row = file.statement(f, s);
    match StatementKind::try_from(row.kind) {
        Ok(StatementKind::Emit) => range_count(file.operand(row, 0), file.operand(row, 1)),
        Ok(StatementKind::Call) => 2,
        Ok(
            StatementKind::Block
            | StatementKind::Kill
            | StatementKind::ControlBarrier
            | StatementKind::MemoryBarrier,
        ) => 0,
        _ => 1,
    }
}

// The places of the statements of f, whose marks begin at `first`. The answer is where they end.
fn place_statements(file: &File, firsts: &mut [u32], f: FunctionHandle, first: u32) -> u32
    requires { WasRead file.now.bytes file.now.t × (f.0 < length (module_of file.now.bytes file.now.t).functions) × (first ≡ start_of (module_of file.now.bytes file.now.t) f.0) }
    ensures { (firsts.new ≡ placed_in file.now.bytes file.now.t f.0 firsts.old (row_at file.now.t f.0).statements) × (result ≡ start_of (module_of file.now.bytes file.now.t) (f.0 + 1)) }
{
    let n = file.statements(f);
    let mut at = first;
    for s in 0..n {
        put(firsts, statement_number(file, f, s), at);
        at += mark_count(file, f, s);
    }
    at
}

impl MarkPlaces {
    // None is placed yet.
    pub fn new() -> MarkPlaces
        ensures starts { result.starts ≡ replicate (max_functions + 1) 0 }
        ensures firsts { result.firsts ≡ replicate max_items 0 }
    {
        MarkPlaces {
            starts: [0; STARTS],
            firsts: [0; MAX_ITEMS],
        }
    }
}

// Each function's marks behind those before it, and each statement's among them.
// Stays: `WasRead` in `requires`, here, in place_statements and first_ray, and in the three functions that begin a check (crate verdict). A struct of a
// file with that fact would be held by `TypedFile`, and each of some 100 places in clauses that say `typed.now.file.now` would say one `.now` more.
pub fn place_marks(file: &File, starts: &mut [u32], firsts: &mut [u32])
    requires was_read { WasRead file.now.bytes file.now.t }
    requires long { (max_functions < length starts.old) × (max_items ≤ length firsts.old) }
    ensures { Places file.now.bytes file.now.t (places_of starts.new firsts.new) }
{
    let n = file.functions();
    let mut at: u32 = 0;
    for f in 0..n {
        put(starts, f as usize, at);
        at = place_statements(file, firsts, FunctionHandle(f), at);
    }
    put(starts, n as usize, at);
}
