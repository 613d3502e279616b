// The code of a part, and the index of an entry.
ghost use Rattle.request.specs.Codes.{CodeWasRead, IndexWasRead};

use crate::record::field;
use field::limits::{ABSENT, MAX_ENTRIES};

// What stands where a part's code does.
pub const ALL_CODE: u16 = 0;

pub const EXIST_CODE: u16 = 1;

pub const ENTRIES_CODE: u16 = 2;

// Of a return part alone: nothing is returned.
pub const NO_RETURN: u16 = 3;

// What a part's code says: of `ENTRIES_CODE`, how many entries follow it.
#[derive(Clone, Copy, PartialEq, Eq)]
pub enum Code {
    All,
    Exist,
    Entries(usize),
}

// The code of a part at most `depth` deep, with the count of its entries, and the bytes behind it.
pub fn part_code(bytes: &[u8], depth: usize) -> Option<(Code, &[u8])>
    ensures { CodeWasRead bytes.now depth result }
{
    let (code, rest) = field(bytes)?;
    if code == ALL_CODE {
        return Some((Code::All, rest));
    }
    if code == EXIST_CODE {
        return Some((Code::Exist, rest));
    }
    if code != ENTRIES_CODE || depth == 0 {
        return None;
    }
    let (count, entries) = field(rest)?;
    if MAX_ENTRIES < count as usize {
        return None;
    }
    Some((Code::Entries(count as usize), entries))
}

// The index of an entry, and the bytes behind it: none is below `low`, and none is absent.
pub fn entry_index(bytes: &[u8], low: u32) -> Option<(u32, &[u8])>
    ensures { IndexWasRead bytes.now low result }
{
    let (i, rest) = field(bytes)?;
    let i = i as u32;
    if i < low || i >= ABSENT as u32 {
        return None;
    }
    Some((i, rest))
}
