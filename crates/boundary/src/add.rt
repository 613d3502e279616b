// `add_binding` on a module file and a request.
ghost use Rattle.std.specs.Prelude.{◌+◌, ◌*◌, ◌≤◌, length};
ghost use Rattle.field.specs.Limits.{max_members, max_pieces, max_types};
ghost use Rattle.part.specs.StoreLimits.{cell_words, store_words, table_words};
ghost use Rattle.bindings_request.specs.Boundary.{Gave};
ghost use Rattle.boundary.specs.Rows.{Roomy};
ghost use Rattle.boundary.specs.Answers.{add_answer};

use crate::output::OUTPUT_WORDS;
use crate::room::FileRoom;
use crate::rows::read_rows;
use bindings_request::add::add_binding_bytes;
use bindings_request::answer::Refused;
use requests::begin::check_length;

// The words of a store that has room for a request too, whose length has 16 bits.
pub const ADD_WORDS: usize = OUTPUT_WORDS + 2 * (4 + 65535);

// Of any bytes, with room for whatever they say.
pub fn add_in<'a>(
    bytes: &'a [u8],
    room: FileRoom<'a>,
    cells: &mut [u32],
    parts: &mut [u32],
    request: &[u8],
    b: u32,
    out: &mut [u8],
) -> Result<usize, Refused>
    requires roomy { Roomy room }
    requires max_types_in_bounds { max_types ≤ length parts.old }
    requires cells_len_bound { (length cells.old ≤ store_words) × (cell_words * (5 + max_members * max_types + max_pieces) + table_words + 2 * (4 + 65535) ≤ length cells.old) }
    ensures { Gave out.old out.new (add_answer bytes.now (length out.old) b request.now) result }
{
    let (file, rows) = read_rows(bytes, room)?;
    check_length(request)?;
    let n = file.types() as usize;
    add_binding_bytes(&file, rows, cells, &mut parts[0..n], request, b, out)
}
