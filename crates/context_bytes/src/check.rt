// A context checked in its bytes: 12 of the whole record, then 11. The recursion goes as deep as a part does; lists go by a loop.
// Stays: four loops walk entries (here, in count, cover and find). Where an entry ends is told by what each does with its part: no iterator steps it.
ghost use Rattle.std.specs.Prelude.{◌≡◌};
ghost use Rattle.field.specs.Refusal.{number};
ghost use Rattle.context.specs.RequiredContext.{variable};
ghost use Rattle.request.specs.Fields.{fields};
ghost use Rattle.request.specs.Part.{read_part, read_return, read_variables};
ghost use Rattle.request.specs.Context.{is_context, judge_context, context_of};
ghost use Rattle.context_bytes.specs.Checked.{Skips, Checks, EntriesChecked, ListsChecked, checked, status, status_of, without_function};

use field::field::read_word;
use field::limits::MAX_DEPTH;
use field::refusal::Refusal;
use request::codes::{Code, NO_RETURN, entry_index, part_code};
use request::record::{ends, field, is_record};

// A part at most `depth` deep: the bytes behind it.
#[cycle(check_entries_skip_part)]
pub fn skip_part(bytes: &[u8], depth: usize) -> Option<&[u8]>
    ensures { Skips bytes.now (read_part depth (fields bytes.now)) result }
{
    let (code, rest) = part_code(bytes, depth)?;
    match code {
        Code::All => Some(rest),
        Code::Exist => Some(rest),
        Code::Entries(n) => {
            let (known, end) = check_entries(rest, depth - 1, 0, n)?;
            Some(end)
        }
    }
}

// n entries, whose parts are at most `depth` deep: whether each index is below `limit`, and the bytes behind them.
#[cycle(check_entries_skip_part)]
fn check_entries(bytes: &[u8], depth: usize, limit: u32, n: usize) -> Option<(bool, &[u8])>
    ensures { EntriesChecked bytes.now depth limit n result }
{
    let mut left = bytes;
    let mut least: u32 = 0;
    let mut known = true;
    for _ in 0..n {
        let (i, rest) = entry_index(left, least)?;
        let end = skip_part(rest, depth)?;
        known = known && i < limit;
        left = end;
        least = i + 1;
    }
    Some((known, left))
}

// The return part: the bytes behind it.
pub fn skip_return(bytes: &[u8]) -> Option<&[u8]>
    ensures { Skips bytes.now (read_return (fields bytes.now)) result }
{
    let (code, rest) = field(bytes)?;
    if code == NO_RETURN {
        return Some(rest);
    }
    skip_part(bytes, MAX_DEPTH)
}

// A list of variables: whether each is below `limit`, and the bytes behind it.
pub fn check_variables(bytes: &[u8], limit: u32) -> Option<(bool, &[u8])>
    ensures { Checks bytes.now (checked (variable limit) (read_variables (fields bytes.now))) result }
{
    let (count, entries) = field(bytes)?;
    check_entries(entries, MAX_DEPTH, limit, count as usize)
}

pub fn is_context(bytes: &[u8]) -> bool
    ensures { result ≡ is_context bytes.now }
{
    bytes.len() >= 6 && is_record(bytes, b'C', b'X', 6, read_word(bytes, 2) as usize)
}

// The three lists, whatever the return part was.
fn check_lists(bytes: &[u8], globals: u32, args: u32, locals: u32) -> Result<(), Refusal>
    ensures { ListsChecked globals args locals (fields bytes.now) result }
{
    let (g, a) = check_variables(bytes, globals).ok_or(Refusal::Malformed)?;
    let (x, b) = check_variables(a, args).ok_or(Refusal::Malformed)?;
    let (l, c) = check_variables(b, locals).ok_or(Refusal::Malformed)?;
    if !ends(c) {
        return Err(Refusal::Malformed);
    }
    if g && x && l {
        Ok(())
    } else {
        Err(Refusal::NoSuch)
    }
}

// What reading the context answers, of a module with so many globals and a function with so many arguments and locals: 12, then 11.
pub fn check_context(bytes: &[u8], globals: u32, args: u32, locals: u32) -> Result<(), Refusal>
    ensures { status result ≡ status_of (judge_context globals args locals (context_of bytes.now)) }
{
    if !is_context(bytes) {
        return Err(Refusal::Malformed);
    }
    let lists = skip_return(&bytes[6..]).ok_or(Refusal::Malformed)?;
    check_lists(lists, globals, args, locals)
}

// What refuses a context of a function that is not there: 12, or else 11.
pub fn without_function(context: &[u8]) -> Refusal
    ensures { number result ≡ without_function (context_of context.now) }
{
    match check_context(context, 0, 0, 0) {
        Ok(_) => Refusal::NoSuch,
        Err(e) => e,
    }
}
