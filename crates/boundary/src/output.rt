// `output_from_bindings` on a module file and a list of bindings.
ghost use Rattle.std.specs.Prelude.{◌+◌, ◌*◌, ◌≤◌, length};
ghost use Rattle.field.specs.Limits.{max_members, max_pieces, max_types};
ghost use Rattle.part.specs.StoreLimits.{cell_words, store_words, table_words};
ghost use Rattle.bindings_request.specs.Boundary.{Gave};
ghost use Rattle.boundary.specs.Rows.{Roomy};
ghost use Rattle.boundary.specs.Answers.{output_answer};

use crate::room::FileRoom;
use crate::rows::read_rows;
use bindings_request::answer::Refused;
use bindings_request::output::output_from_bindings_bytes;
use field::limits::{MAX_MEMBERS, MAX_PIECES, MAX_TYPES};
use module::handles::FunctionHandle;
use part::limits::{CELL_WORDS, TABLE_WORDS};

// The words of a store for the pieces of types and for what is asked.
pub const OUTPUT_WORDS: usize = CELL_WORDS * (5 + MAX_MEMBERS * MAX_TYPES + MAX_PIECES)
    + TABLE_WORDS;

// Of any bytes, with room for whatever they say.
pub fn output_in<'a>(
    bytes: &'a [u8],
    room: FileRoom<'a>,
    cells: &mut [u32],
    parts: &mut [u32],
    f: FunctionHandle,
    list: &[u8],
    out: &mut [u8],
) -> Result<usize, Refused>
    requires roomy { Roomy room }
    requires max_types_in_bounds { max_types ≤ length parts.old }
    requires cells_len_bound { (length cells.old ≤ store_words) × (cell_words * (5 + max_members * max_types + max_pieces) + table_words ≤ length cells.old) }
    ensures { Gave out.old out.new (output_answer bytes.now (length out.old) f.0 list.now) result }
{
    let (file, rows) = read_rows(bytes, room)?;
    let n = file.types() as usize;
    output_from_bindings_bytes(&file, rows, cells, &mut parts[0..n], f, list, out)
}
