// Fields of types, globals and statements, and blocks, for the reading code; crate `access` has what its callers need.
ghost use Rattle.std.specs.Prelude.{◌≡◌, ◌+◌, get_or};
ghost use Rattle.module.specs.Record.{body_at};
ghost use Rattle.module.specs.Access.{RangeIs};
ghost use Rattle.module.specs.Reading.{range_of};
ghost use Rattle.module.specs.Tables.{word, starts_of, type_body, global_body, item_body, statements_from};

use crate::handles::{BlockHandle, GlobalHandle, TypeHandle};
use crate::record::body;
use crate::tables::{BLOCKS, GLOBALS, Row, TYPES, item, word};

// The field j of the record whose offset the word `at` is.
fn field_of(bytes: &[u8], t: &[u32], at: usize, j: u32) -> u16
    ensures { result ≡ get_or (body_at bytes.now (word t.now at)) j 0 }
{
    body(bytes, word(t, at), j)
}

// Of a type: its kind is the field 0, and its operands follow.
pub fn type_field(bytes: &[u8], t: &[u32], h: TypeHandle, j: u32) -> u16
    ensures { result ≡ get_or (type_body bytes.now t.now h.0) j 0 }
{
    field_of(bytes, t, TYPES + (h.0 as usize), j)
}

pub fn global_type(bytes: &[u8], t: &[u32], g: GlobalHandle) -> u16
    ensures { result ≡ get_or (global_body bytes.now t.now g.0) 0 0 }
{
    field_of(bytes, t, GLOBALS + (g.0 as usize), 0)
}

// Of a statement: its kind, and its operands.
pub fn statement_field(bytes: &[u8], t: &[u32], row: Row, s: u32, j: u32) -> u16
    ensures { result ≡ get_or (item_body bytes.now t.now (statements_from row + s)) j 0 }
{
    body(bytes, item(t, row.statements_from() + (s as usize)), j)
}

// The first statement of the block b, and `past` where there is no such block.
fn first_statement(t: &[u32], row: Row, b: usize, past: u32) -> u32
    ensures { result ≡ get_or (starts_of t.now row) b past }
{
    if b < (row.blocks as usize) {
        return word(t, BLOCKS + ((row.earlier as usize) + b));
    }
    past
}

// Stays: first and count, as the definition's record has them, and no `Range`. Tried: a loop over a `Range` counts from its start, and its invariant says
// `s - start` and what both ends are, four facts for one (reading's hold_block); so in each of six loops, to spare each the line that adds first.
// The statements of a block: `count` of them, from `first` on.
#[derive(Clone, Copy, Debug, PartialEq, Eq)]
pub struct BlockRange {
    pub first: u32,
    pub count: u32,
}

pub fn block_range(t: &[u32], row: Row, b: BlockHandle) -> BlockRange
    ensures { RangeIs (range_of (starts_of t.now row) row.statements b.0) result.first result.count }
{
    let first = first_statement(t, row, b.0 as usize, 0);
    let next = first_statement(t, row, (b.0 as usize) + 1, row.statements);
    BlockRange {
        first,
        count: next.saturating_sub(first),
    }
}
