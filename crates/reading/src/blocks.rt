// The block rule, at a function's end.
ghost use Rattle.std.specs.Prelude.{◌≡◌, ◌<◌, ◌≤◌, eqb, length, get_or, set};
ghost use Rattle.std.specs.List.{list_all};
ghost use Rattle.module.specs.Blocks.{all_below, holders_above, held_in_all, block_rule};
ghost use Rattle.module.specs.Reading.{closed};
ghost use Rattle.module.specs.Tables.{open_of};
ghost use Rattle.reading.specs.Holding.{holding_of, more, counted, held_at, held_by, statements_of, blocks_of};

use module::access::{block_range, statement_field};
use module::handles::BlockHandle;
use module::kinds::StatementKind;
use module::tables::{Row, put, word};

// The blocks that a statement holds: `count` of them, the first in the field `first`, the next ones `stride` fields on.
#[derive(Clone, Copy, Debug, PartialEq, Eq)]
pub struct Holding {
    pub count: u16,
    pub first: u32,
    pub stride: u32,
}

// By a statement's kind, and its field 2, which counts the cases of a switch.
#[tactic(auto, unfolding(crate::specs::Holding::holding_of))]
pub fn held_by(kind: u16, cases: u16) -> Holding
    ensures { result ≡ holding_of kind cases }
{
    match StatementKind::try_from(kind) {
        Ok(StatementKind::Block) => Holding {
            count: 1,
            first: 1,
            stride: 1,
        },
        Ok(StatementKind::If) => Holding {
            count: 2,
            first: 2,
            stride: 1,
        },
        Ok(StatementKind::Switch) => Holding {
            count: cases,
            first: 4,
            stride: 2,
        },
        Ok(StatementKind::Loop) => Holding {
            count: 2,
            first: 1,
            stride: 1,
        },
        _ => Holding {
            count: 0,
            first: 0,
            stride: 0,
        },
    }
}

// How often a block is held is counted up to 2: more than once is refused.
fn count(seen: &mut [u32], k: u16)
    ensures { seen.new ≡ set seen.old k (more (get_or seen.old k 0)) }
{
    let times = word(seen, k as usize).min(1) + 1;
    put(seen, k as usize, times);
}

// Counts the blocks that the statement s holds, where there is one; whether all of them are below b.
fn hold_at(bytes: &[u8], t: &[u32], row: Row, s: usize, b: u32, seen: &mut [u32]) -> bool
    ensures { (result ≡ all_below b (held_at bytes.now t.now row s)) × (seen.new ≡ counted seen.old (held_at bytes.now t.now row s)) }
{
    if (row.statements as usize) <= s {
        return true;
    }
    let n = s as u32;
    let kind = statement_field(bytes, t, row, n, 0);
    let h = held_by(kind, statement_field(bytes, t, row, n, 2));
    let mut below = true;
    for i in 0..h.count {
        let k = statement_field(bytes, t, row, n, h.first + h.stride * (i as u32));
        count(seen, k);
        below &= (k as u32) < b;
    }
    below
}

// Counts the blocks that the statements of the block b hold; whether all of them are below b.
fn hold_block(bytes: &[u8], t: &[u32], row: Row, b: u32, seen: &mut [u32]) -> bool
    requires { b < row.blocks }
    ensures { (result ≡ all_below b (held_by bytes.now t.now row b)) × (seen.new ≡ counted seen.old (held_by bytes.now t.now row b)) }
{
    let range = block_range(t, row, BlockHandle(b));
    let mut below = true;
    for i in 0..range.count {
        let s = (range.first as usize) + (i as usize);
        below &= hold_at(bytes, t, row, s, b, seen);
    }
    below
}

// Counts the blocks that all blocks hold; whether all of them are below their holders.
fn hold_all(bytes: &[u8], t: &[u32], row: Row, seen: &mut [u32]) -> bool
    ensures { (result ≡ holders_above (statements_of bytes.now t.now row) 0 (blocks_of t.now row)) × (seen.new ≡ counted seen.old (held_in_all (statements_of bytes.now t.now row) (blocks_of t.now row))) }
{
    let mut below = true;
    for b in 0..row.blocks {
        below &= hold_block(bytes, t, row, b, seen);
    }
    below
}

// Whether each word is 1.
fn each_once(seen: &[u32]) -> bool
    ensures { result ≡ list_all (λ times. eqb times 1) seen.now }
{
    seen.iter().all(|times| *times == 1)
}

// The block rule: whether each block but the last, which is the body, is held once, and by a block above it.
pub fn block_rule(bytes: &[u8], t: &[u32], row: Row, seen: &mut [u32]) -> bool
    requires { row.blocks ≤ length seen.old }
    ensures { result ≡ block_rule (closed (open_of bytes.now t.now row)) }
{
    if row.blocks == 0 {
        return false;
    }
    let n = row.blocks as usize;
    seen[..n].fill(0);
    let below = hold_all(bytes, t, row, seen);
    let once = each_once(&seen[..n - 1]);
    below & once
}
