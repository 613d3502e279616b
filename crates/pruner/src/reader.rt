// Parts, lists and marks of totals, read from the bytes of a buffer into a walk's memory.
ghost use Rattle.std.specs.Prelude.{◌≤◌};
ghost use Rattle.field.specs.Limits.{absent};
ghost use Rattle.part.specs.Store.{Good};
ghost use Rattle.context.specs.RequiredContext.{variable};
ghost use Rattle.request.specs.Part.{read_return, read_variables};
ghost use Rattle.request.specs.Request.{all_below};
ghost use Rattle.request.specs.Context.{read_context_body, known_context};
ghost use Rattle.request.specs.Fields.{fields};
ghost use Rattle.request.specs.Answers.{RoomFor, Limits};
ghost use Rattle.pruner.specs.Form.{only};
ghost use Rattle.pruner.specs.Reading.{single, mapped, RoomBeside, PieceWasRead, ListsWereRead, MarksWereRead};

use context::required_context::RequiredContext;
use part::limits::SPINE;
use part::store::{EMPTY_PIECE, make};
use request::lists::{read_return, read_variables};
use request::record::field;

// A return part or a record as {index: part}, or the empty part for none.
pub fn read_single<'a>(cells: &mut [u32], pruner: &'a [u8], index: u32) -> Option<(u32, &'a [u8])>
    requires good { Good cells.old }
    requires room { RoomBeside cells.old pruner.now 1 }
    ensures { PieceWasRead cells.old cells.new pruner.now 1 (mapped (single index) (read_return (fields pruner.now))) result }
{
    let (o, rest) = read_return(cells, pruner)?;
    let Some(p) = o else {
        return Some((EMPTY_PIECE, rest));
    };
    Some((make(cells, index, p, EMPTY_PIECE), rest))
}

// A list of variables, each of which is below `limit`.
pub fn read_map<'a>(cells: &mut [u32], pruner: &'a [u8], limit: u32) -> Option<(u32, &'a [u8])>
    requires good { Good cells.old }
    requires room { RoomFor cells.old pruner.now }
    requires limit_le_absent { limit ≤ absent }
    ensures { PieceWasRead cells.old cells.new pruner.now 0 (only (all_below (variable limit)) (read_variables (fields pruner.now))) result }
{
    let (o, rest) = read_variables(cells, pruner, limit)?;
    let p = o?;
    Some((p, rest))
}

// The lists of a context whose variables are there, and the bytes that are left.
pub fn read_lists<'a>(
    cells: &mut [u32],
    pruner: &'a [u8],
    globals: u32,
    args: u32,
    locals: u32,
) -> Option<(RequiredContext, &'a [u8])>
    requires good { Good cells.old }
    requires room { RoomBeside cells.old pruner.now 1 }
    requires limits { Limits globals args locals }
    ensures { ListsWereRead cells.old cells.new pruner.now (only (known_context globals args locals) (read_context_body (fields pruner.now))) result }
{
    let (p, a) = read_single(cells, pruner, SPINE)?;
    let (g, b) = read_map(cells, a, globals)?;
    let (x, c) = read_map(cells, b, args)?;
    let (l, d) = read_map(cells, c, locals)?;
    let context = RequiredContext {
        globals: g,
        locals: l,
        args: x,
        retval: p,
    };
    Some((context, d))
}

// The marks of a total, one field each, and the bytes that are left. None where they are no marks.
pub fn read_marks<'a>(pruner: &'a [u8], marks: &mut [u8]) -> Option<&'a [u8]>
    ensures { MarksWereRead pruner.now marks.new result }
{
    let mut left = pruner;
    for mark in marks.iter_mut() {
        let (b, rest) = field(left)?;
        if 1 < b {
            return None;
        }
        *mark = b as u8;
        left = rest;
    }
    Some(left)
}
