// How many pieces a context has, counted in its bytes. An entry has at least four bytes, so the count stays below their number.
ghost use Rattle.std.specs.Prelude.{◌≤◌, length};
ghost use Rattle.std.specs.Option.{unwrap_or};
ghost use Rattle.request.specs.Fields.{fields};
ghost use Rattle.request.specs.Part.{read_part, read_return, read_variables};
ghost use Rattle.context_bytes.specs.Counted.{counted, counted_return, Counts, EntriesCounted, PiecesCounted};

use crate::check::is_context;
use field::limits::MAX_DEPTH;
use request::codes::{Code, NO_RETURN, entry_index, part_code};
use request::record::field;

// The entries of a part at most `depth` deep: how many there are, and the bytes behind them.
#[cycle(count_entries_count_part)]
fn count_part(bytes: &[u8], depth: usize) -> Option<(usize, &[u8])>
    ensures { Counts bytes.now 4 (counted (read_part depth (fields bytes.now))) result }
{
    let (code, rest) = part_code(bytes, depth)?;
    match code {
        Code::All => Some((0, rest)),
        Code::Exist => Some((0, rest)),
        Code::Entries(n) => count_entries(rest, depth - 1, n),
    }
}

// n entries, whose parts are at most `depth` deep, and theirs.
#[cycle(count_entries_count_part)]
fn count_entries(bytes: &[u8], depth: usize, n: usize) -> Option<(usize, &[u8])>
    ensures { EntriesCounted bytes.now depth n result }
{
    let mut left = bytes;
    let mut least: u32 = 0;
    let mut sum: usize = 0;
    for _ in 0..n {
        let (i, rest) = entry_index(left, least)?;
        let (k, end) = count_part(rest, depth)?;
        sum = sum + 1 + k;
        left = end;
        least = i + 1;
    }
    Some((sum, left))
}

// The returned value, where there is one, and its entries.
fn count_return(bytes: &[u8]) -> Option<(usize, &[u8])>
    ensures { Counts bytes.now 0 (counted_return (read_return (fields bytes.now))) result }
{
    let (code, rest) = field(bytes)?;
    if code == NO_RETURN {
        return Some((0, rest));
    }
    let (k, end) = count_part(bytes, MAX_DEPTH)?;
    Some((k + 1, end))
}

// A list of variables, and their entries.
fn count_variables(bytes: &[u8]) -> Option<(usize, &[u8])>
    ensures { Counts bytes.now 2 (counted (read_variables (fields bytes.now))) result }
{
    let (count, entries) = field(bytes)?;
    count_entries(entries, MAX_DEPTH, count as usize)
}

// The pieces of its parts, where it has the header.
fn count_lists(bytes: &[u8]) -> Option<usize>
    requires { 6 ≤ length bytes.now }
    ensures { PiecesCounted bytes.now (unwrap_or result 0) }
{
    let (r, a) = count_return(&bytes[6..])?;
    let (g, b) = count_variables(a)?;
    let (x, c) = count_variables(b)?;
    let (l, d) = count_variables(c)?;
    Some(g + l + x + r)
}

// The pieces of the context that bytes mean.
pub fn count_context(bytes: &[u8]) -> usize
    ensures { PiecesCounted bytes.now result }
{
    if !is_context(bytes) {
        return 0;
    }
    count_lists(bytes).unwrap_or(0)
}
