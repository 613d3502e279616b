// Requirements read into the store. Its recursion goes as deep as a part does, and along the entries of each level: both have limits.
// Stays: a piece is its number, with no type of its own: cells and slots hold it as a word, and laws over them would carry a projection.
ghost use Rattle.part.specs.Store.{Good};
ghost use Rattle.request.specs.Fields.{fields};
ghost use Rattle.request.specs.Part.{read_part, read_entries};
ghost use Rattle.request.specs.Answers.{RoomFor, PartWasRead};

use crate::codes::{Code, entry_index, part_code};
use part::store::{ALL_PIECE, EMPTY_PIECE, EXIST_PIECE, make};

// A part at most `depth` deep: its piece, and the bytes behind it.
#[cycle(read_entries_read_part)]
pub fn read_part<'a>(cells: &mut [u32], bytes: &'a [u8], depth: usize) -> Option<(u32, &'a [u8])>
    requires good { Good cells.old }
    requires room { RoomFor cells.old bytes.now }
    ensures { PartWasRead cells.old cells.new bytes.now 2 (read_part depth (fields bytes.now)) result }
{
    let (code, rest) = part_code(bytes, depth)?;
    match code {
        Code::All => Some((ALL_PIECE, rest)),
        Code::Exist => Some((EXIST_PIECE, rest)),
        Code::Entries(n) => read_entries(cells, rest, depth - 1, 0, n),
    }
}

// n entries with indexes from `low` on.
#[cycle(read_entries_read_part)]
fn read_entries<'a>(
    cells: &mut [u32],
    bytes: &'a [u8],
    depth: usize,
    low: u32,
    n: usize,
) -> Option<(u32, &'a [u8])>
    requires good { Good cells.old }
    requires room { RoomFor cells.old bytes.now }
    ensures { PartWasRead cells.old cells.new bytes.now 0 (read_entries (read_part depth) 0 low n (fields bytes.now)) result }
{
    if n == 0 {
        return Some((EMPTY_PIECE, bytes));
    }
    let (i, rest) = entry_index(bytes, low)?;
    let (p, others) = read_part(cells, rest, depth)?;
    let (r, end) = read_entries(cells, others, depth, i + 1, n - 1)?;
    Some((make(cells, i, p, r), end))
}
