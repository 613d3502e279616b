// One record more: where it stands goes into the tables, and the counts grow.
ghost use Rattle.std.specs.Prelude.{◌≡◌, ◌+◌, ◌*◌, ◌≤◌};
ghost use Rattle.module.specs.Record.{body_at};
ghost use Rattle.module.specs.Reading.{stage_of};
ghost use Rattle.module.specs.Tables.{items_to};
ghost use Rattle.reading.specs.Progress.{Fits, mark_by, with_item, row_with, counts_with, table_with};

use module::kinds::StatementKind;
use module::record::{Mark, Record};
use module::tables::{
    BLOCKS, Counts, GLOBALS, IN_ARGUMENTS, IN_BLOCKS, IN_EXPRESSIONS, IN_GLOBALS, IN_LOCALS,
    IN_TYPES, ITEMS, MARKS, Row, TYPES, put,
};

// Marks the expressions of an emit.
fn emit(rec: &Record, t: &mut [u32])
    ensures { t.new ≡ mark_by (body_at rec.now.bytes.now rec.now.at) t.old }
{
    if rec.field(0) == StatementKind::Emit as u16 {
        let first = rec.field(1) as usize;
        let last = rec.field(2) as usize;
        for e in first..last + 1 {
            put(t, MARKS + e, 1);
        }
    }
}

fn put_item(t: &mut [u32], at: u32, row: Row)
    ensures { t.new ≡ with_item t.old at row }
{
    put(t, ITEMS + row.items_to(), at);
}

// What is written into the tables.
#[tactic(auto, unfolding(crate::specs::Progress::table_with))]
fn write(rec: &Record, t: &mut [u32], c: Counts)
    ensures { t.new ≡ table_with rec.now.bytes.now t.old rec.now.at rec.now.mark c }
{
    let row = c.row;
    let at = rec.at;
    match rec.mark {
        Mark::TY => put(t, TYPES + (c.types as usize), at),
        Mark::GV => put(t, GLOBALS + (c.globals as usize), at),
        Mark::FN => {}
        Mark::AR => put_item(t, at, row),
        Mark::LV => put_item(t, at, row),
        Mark::EX => {
            put_item(t, at, row);
            put(t, MARKS + (row.expressions as usize), 0);
        }
        Mark::BK => put(
            t,
            BLOCKS + ((row.earlier as usize) + (row.blocks as usize)),
            row.statements,
        ),
        Mark::ST => {
            put_item(t, at, row);
            emit(rec, t);
        }
    }
}

#[tactic(auto, unfolding(module::specs::Reading::stage_of))]
fn stage_of(mark: Mark) -> u32
    ensures { result ≡ stage_of mark }
{
    match mark {
        Mark::TY => IN_TYPES,
        Mark::GV => IN_GLOBALS,
        Mark::FN => IN_ARGUMENTS,
        Mark::AR => IN_ARGUMENTS,
        Mark::LV => IN_LOCALS,
        Mark::EX => IN_EXPRESSIONS,
        Mark::BK => IN_BLOCKS,
        Mark::ST => IN_BLOCKS,
    }
}

// The row with one record more.
#[tactic(auto, unfolding(crate::specs::Progress::row_with))]
fn row_with(at: u32, mark: Mark, row: Row) -> Row
    requires { 4 * (items_to row + (row.earlier + row.blocks)) ≤ at }
    ensures { result ≡ row_with at mark row }
{
    match mark {
        Mark::TY | Mark::GV => row,
        Mark::FN => Row {
            offset: at,
            items: row.items_to() as u32,
            earlier: row.earlier + row.blocks,
            ..Row::default()
        },
        Mark::AR => Row {
            arguments: row.arguments + 1,
            ..row
        },
        Mark::LV => Row {
            locals: row.locals + 1,
            ..row
        },
        Mark::EX => Row {
            expressions: row.expressions + 1,
            ..row
        },
        Mark::BK => Row {
            blocks: row.blocks + 1,
            ..row
        },
        Mark::ST => Row {
            statements: row.statements + 1,
            ..row
        },
    }
}

// Adds a record to the tables and to the counts.
pub fn add(rec: &Record, t: &mut [u32], c: Counts) -> Counts
    requires { Fits c rec.now.at }
    ensures t_after { t.new ≡ table_with rec.now.bytes.now t.old rec.now.at rec.now.mark c }
    ensures value { result ≡ counts_with rec.now.at rec.now.mark c }
{
    let mark = rec.mark;
    write(rec, t, c);
    Counts {
        stage: stage_of(mark),
        types: c.types + (mark == Mark::TY) as u32,
        globals: c.globals + (mark == Mark::GV) as u32,
        row: row_with(rec.at, mark, c.row),
        ..c
    }
}
