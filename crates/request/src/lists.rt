// The return part and the lists of variables. Of a list only as many entries are kept as there are variables: its recursion goes no deeper.
// Stays: a piece is its number, with no type of its own: cells and slots hold it as a word, and laws over them would carry a projection.
ghost use Rattle.std.specs.Prelude.{◌≤◌};
ghost use Rattle.field.specs.Limits.{absent, max_depth};
ghost use Rattle.part.specs.PartReq.{spine};
ghost use Rattle.part.specs.Store.{Good, Room, Made};
ghost use Rattle.context.specs.RequiredContext.{return_entry};
ghost use Rattle.request.specs.Fields.{fields};
ghost use Rattle.request.specs.Part.{read_part, read_entries, read_return, read_variables};
ghost use Rattle.request.specs.Answers.{optional, sorted, skimmed, Held, RoomFor, OptionWasRead};

use crate::codes::{NO_RETURN, entry_index};
use crate::parts::read_part;
use crate::record::field;
use field::limits::MAX_DEPTH;
use part::limits::SPINE;
use part::store::{EMPTY_PIECE, make};

// The return part: its piece, where there is one, and the bytes behind it.
pub fn read_return<'a>(cells: &mut [u32], bytes: &'a [u8]) -> Option<(Option<u32>, &'a [u8])>
    requires good { Good cells.old }
    requires room { RoomFor cells.old bytes.now }
    ensures { OptionWasRead cells.old cells.new bytes.now (read_return (fields bytes.now)) result }
{
    let (code, rest) = field(bytes)?;
    if code == NO_RETURN {
        return Some((None, rest));
    }
    let (p, rest) = read_part(cells, bytes, MAX_DEPTH)?;
    Some((Some(p), rest))
}

// n entries with variables from `low` on, one of which is not there: the bytes behind them, if they are well formed.
fn skim<'a>(
    cells: &mut [u32],
    bytes: &'a [u8],
    low: u32,
    n: usize,
) -> Option<(Option<u32>, &'a [u8])>
    requires good { Good cells.old }
    requires room { RoomFor cells.old bytes.now }
    ensures { OptionWasRead cells.old cells.new bytes.now (skimmed (read_entries (read_part max_depth) spine low n (fields bytes.now))) result }
{
    let mut left = bytes;
    let mut least = low;
    for _ in 0..n {
        let (i, rest) = entry_index(left, least)?;
        let (p, others) = read_part(cells, rest, MAX_DEPTH)?;
        left = others;
        least = i + 1;
    }
    Some((None, left))
}

// n entries with variables from `low` on, of which those below `limit` are there.
fn read_known<'a>(
    cells: &mut [u32],
    bytes: &'a [u8],
    limit: u32,
    low: u32,
    n: usize,
) -> Option<(Option<u32>, &'a [u8])>
    requires good { Good cells.old }
    requires room { RoomFor cells.old bytes.now }
    requires limit_le_absent { limit ≤ absent }
    ensures { OptionWasRead cells.old cells.new bytes.now (sorted limit (read_entries (read_part max_depth) spine low n (fields bytes.now))) result }
{
    if n == 0 {
        return Some((Some(EMPTY_PIECE), bytes));
    }
    let (i, rest) = entry_index(bytes, low)?;
    if limit <= i {
        return skim(cells, bytes, low, n);
    }
    let (p, others) = read_part(cells, rest, MAX_DEPTH)?;
    let (o, end) = read_known(cells, others, limit, i + 1, n - 1)?;
    let Some(r) = o else {
        return Some((None, end));
    };
    Some((Some(make(cells, SPINE + i, p, r)), end))
}

// A list of variables, of which those below `limit` are there: nothing where one of the list is not.
pub fn read_variables<'a>(
    cells: &mut [u32],
    bytes: &'a [u8],
    limit: u32,
) -> Option<(Option<u32>, &'a [u8])>
    requires good { Good cells.old }
    requires room { RoomFor cells.old bytes.now }
    requires limit_le_absent { limit ≤ absent }
    ensures { OptionWasRead cells.old cells.new bytes.now (sorted limit (read_variables (fields bytes.now))) result }
{
    let (count, entries) = field(bytes)?;
    read_known(cells, entries, limit, 0, count as usize)
}

// The piece of the returned value's entry.
pub fn returned(cells: &mut [u32], retval: Option<u32>) -> u32
    requires good { Good cells.old }
    requires room { Room cells.old 1 × Held cells.old retval }
    ensures { Made cells.old cells.new (return_entry (optional cells.old retval)) 1 result }
{
    match retval {
        None => EMPTY_PIECE,
        Some(p) => make(cells, SPINE, p, EMPTY_PIECE),
    }
}
