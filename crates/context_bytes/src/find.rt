// The entry of an index, found in the bytes of a part or of a list: those before it are passed over.
ghost use Rattle.std.specs.Prelude.{◌≤◌, length};
ghost use Rattle.context_bytes.specs.Found.{EntryFound, VariableFound, ArgsAfter, ArgsIn};

use crate::check::{check_variables, is_context, skip_part, skip_return};
use field::limits::MAX_DEPTH;
use request::codes::entry_index;
use request::record::field;

// Among n entries, whose parts are at most `depth` deep, the bytes of the part of the index i, and of what is behind it.
pub(crate) fn find_entry(bytes: &[u8], depth: usize, n: usize, i: u32) -> Option<&[u8]>
    ensures { EntryFound bytes.now depth n i result }
{
    let mut left = bytes;
    let mut least: u32 = 0;
    for _ in 0..n {
        let (j, rest) = entry_index(left, least)?;
        if i < j {
            return None;
        }
        if i == j {
            return Some(rest);
        }
        let end = skip_part(rest, depth)?;
        left = end;
        least = j + 1;
    }
    None
}

// In a list of variables, the bytes of the part of the variable i, and of what is behind it.
pub fn find_variable(bytes: &[u8], i: u32) -> Option<&[u8]>
    ensures { VariableFound bytes.now i result }
{
    let (count, entries) = field(bytes)?;
    find_entry(entries, MAX_DEPTH, count as usize, i)
}

// The bytes from the list of arguments on, where the context has the header.
fn after_globals(bytes: &[u8]) -> Option<&[u8]>
    requires { 6 ≤ length bytes.now }
    ensures { ArgsAfter bytes.now result }
{
    let lists = skip_return(&bytes[6..])?;
    let (known, args) = check_variables(lists, 0)?;
    Some(args)
}

// The bytes from the list of arguments on, in the context that bytes mean.
pub fn args_bytes(bytes: &[u8]) -> &[u8]
    ensures { ArgsIn bytes.now result.now }
{
    if !is_context(bytes) {
        return bytes;
    }
    after_globals(bytes).unwrap_or(bytes)
}
