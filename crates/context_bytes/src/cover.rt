// Whether a context has all that a need asks: one walk along the need's cells and the context's bytes, side by side.
// Stays: a piece is its number, with no type of its own: cells and slots hold it as a word, and laws over them would carry a projection.
ghost use Rattle.std.specs.Prelude.{◌≤◌, ◌<◌};
ghost use Rattle.part.specs.PartReq.{spine};
ghost use Rattle.part.specs.Store.{top, part, Good};
ghost use Rattle.request.specs.Fields.{fields};
ghost use Rattle.request.specs.Part.{read_part, read_entries, read_variables};
ghost use Rattle.context_bytes.specs.Covered.{covers, Covers, AsksPieces};

use field::limits::MAX_DEPTH;
use part::limits::SPINE;
use part::store::{ALL_PIECE, EMPTY_PIECE, EXIST_PIECE, look};
use request::codes::{Code, entry_index, part_code};
use request::record::field;

// What n asks of a list's first entry, which has the index i, and of those after it; or that it asks what such a list lacks.
fn ask(cells: &[u32], n: u32, i: u32) -> Option<(u32, u32)>
    requires good { Good cells.now }
    requires n_bound { n < top cells.now }
    ensures { AsksPieces cells.now n i result }
{
    if n == ALL_PIECE {
        return None;
    }
    if n <= EMPTY_PIECE {
        return Some((EXIST_PIECE, n));
    }
    let x = look(cells, n);
    if i < x.index {
        return Some((EXIST_PIECE, n));
    }
    if x.index < i {
        return None;
    }
    Some((x.child, x.rest))
}

// A part at most `depth` deep, and what n asks of it: the bytes behind it, if that was there.
#[cycle(covers_entries_covers_part)]
fn covers_part<'a>(cells: &[u32], n: u32, bytes: &'a [u8], depth: usize) -> Option<&'a [u8]>
    requires good { Good cells.now }
    requires n_bound { n < top cells.now }
    ensures { Covers bytes.now (covers (part cells.now n) (read_part depth (fields bytes.now))) result }
{
    let (code, rest) = part_code(bytes, depth)?;
    match code {
        Code::All => Some(rest),
        Code::Exist => {
            if n == EXIST_PIECE {
                return Some(rest);
            }
            None
        }
        Code::Entries(k) => covers_entries(cells, n, rest, depth - 1, 0, k),
    }
}

// k entries, whose parts are at most `depth` deep, and what n asks of them. An entry that n does not ask for is asked for nothing.
#[cycle(covers_entries_covers_part)]
fn covers_entries<'a>(
    cells: &[u32],
    n: u32,
    bytes: &'a [u8],
    depth: usize,
    base: u32,
    k: usize,
) -> Option<&'a [u8]>
    requires good { Good cells.now }
    requires n_bound { (n < top cells.now) × (base ≤ spine) }
    ensures { Covers bytes.now (covers (part cells.now n) (read_entries (read_part depth) base 0 k (fields bytes.now))) result }
{
    let mut left = bytes;
    let mut least: u32 = 0;
    let mut m = n;
    for _ in 0..k {
        let (i, rest) = entry_index(left, least)?;
        let (c, r) = ask(cells, m, base + i)?;
        let end = covers_part(cells, c, rest, depth)?;
        m = r;
        left = end;
        least = i + 1;
    }
    if m == ALL_PIECE || EMPTY_PIECE < m {
        return None;
    }
    Some(left)
}

// A list of variables, and what n asks of them.
pub fn covers_variables<'a>(cells: &[u32], n: u32, bytes: &'a [u8]) -> Option<&'a [u8]>
    requires good { Good cells.now }
    requires n_bound { n < top cells.now }
    ensures { Covers bytes.now (covers (part cells.now n) (read_variables (fields bytes.now))) result }
{
    let (count, entries) = field(bytes)?;
    covers_entries(cells, n, entries, MAX_DEPTH, SPINE, count as usize)
}
