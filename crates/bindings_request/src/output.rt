// `output_from_bindings`, written as a request's bytes: 12, 11, 20, 15, 16.
ghost use Rattle.std.specs.Prelude.{◌≡◌, [], length};
ghost use Rattle.module.specs.Tables.{module_of};
ghost use Rattle.context.specs.Types.{type_count};
ghost use Rattle.bindings_request.specs.Boundary.{Tables, Lent, output_bytes, Gave};

use crate::answer::{Refused, write_asking};
use crate::listed::set_of;
use access::file::File;
use bindings::outputs::output_from_bindings;
use bindings::types::FileTypes;
use field::limits::MIN_REPORT;
use field::refusal::Refusal;
use module::handles::FunctionHandle;
use part::store::{EMPTY_PIECE, init};

// The request that asks for these bindings of the function f, written from the slice's first byte on.
pub fn output_from_bindings_bytes(
    file: &File,
    types: &[u32],
    cells: &mut [u32],
    parts: &mut [u32],
    f: FunctionHandle,
    list: &[u8],
    out: &mut [u8],
) -> Result<usize, Refused>
    requires tables { Tables file.now.bytes file.now.t types.now }
    requires parts_len { (length parts.old ≡ type_count types.now) × Lent cells.old parts.old [] }
    ensures { Gave out.old out.new (output_bytes (module_of file.now.bytes file.now.t) (length out.old) f.0 list.now) result }
{
    let s = set_of(list).ok_or(Refusal::Malformed)?;
    if file.functions() <= f.0 {
        return Err(Refusal::NoSuch.into());
    }
    if out.len() < MIN_REPORT {
        return Err(Refusal::AnswerTooShort.into());
    }
    init(cells);
    let declared = file.result(f);
    let types = FileTypes { rows: types };
    let a = output_from_bindings(cells, &types, s, declared, parts);
    write_asking(cells, f, EMPTY_PIECE, a, out)
}
