// `add_binding` on a request's bytes: 12, 11, 20, 15, 16.
ghost use Rattle.std.specs.Prelude.{◌≡◌, ◌+◌, ◌≤◌, ◌<◌, length};
ghost use Rattle.field.specs.Limits.{min_report, max_pieces};
ghost use Rattle.field.specs.Refusal.{number};
ghost use Rattle.part.specs.Store.{top, part, Good, Room};
ghost use Rattle.module.specs.Operands.{bindings};
ghost use Rattle.module.specs.Tables.{module_of};
ghost use Rattle.context.specs.Types.{type_count};
ghost use Rattle.context.specs.RequiredContext.{return_entry};
ghost use Rattle.request.specs.Answers.{optional, Held};
ghost use Rattle.bindings.specs.ContextBindings.{add_request};
ghost use Rattle.bindings.specs.Outputs.{output_cells, request_context};
ghost use Rattle.bindings_request.specs.Boundary.{Tables, Lent, own_number, written, add_bytes, Gave};

use crate::answer::{Refused, write_asking};
use access::file::File;
use bindings::outputs::add_binding;
use bindings::types::FileTypes;
use field::refusal::Refusal;
use module::handles::FunctionHandle;
use module::operands::BINDINGS;
use part::store::init;
use request::lists::returned;
use request::requests::read_request;

// One binding more, in a request of the function f for these pieces.
fn add_to(
    file: &File,
    types: &[u32],
    cells: &mut [u32],
    parts: &mut [u32],
    f: FunctionHandle,
    retval: Option<u32>,
    globals: u32,
    b: u32,
    out: &mut [u8],
) -> Result<usize, Refused>
    requires tables { Tables file.now.bytes file.now.t types.now }
    requires good { Good cells.old }
    requires parts_len { (length parts.old ≡ type_count types.now) × Room cells.old (1 + (output_cells parts.old + max_pieces)) }
    requires f_in_bounds { (f.0 < length (module_of file.now.bytes file.now.t).functions) × (Held cells.old retval × (globals < top cells.old)) }
    requires b_lt_bindings { (b < bindings) × (min_report ≤ length out.old) }
    ensures { Gave out.old out.new (written f.0 (add_request (module_of file.now.bytes file.now.t) f.0 b (request_context (part cells.old globals) (return_entry (optional cells.old retval))))) result }
{
    let entry = returned(cells, retval);
    let declared = file.result(f);
    let types = FileTypes { rows: types };
    let a = add_binding(cells, &types, b, declared, parts, globals, entry);
    write_asking(cells, f, globals, a, out)
}

// What refuses the request: its report buffer is the answer's slice.
fn own_refusal(e: Refusal) -> Refusal
    ensures { number result ≡ own_number (number e) }
{
    match e {
        Refusal::ReportTooShort => Refusal::AnswerTooShort,
        _ => e,
    }
}

// The request's bytes with one binding more, written from the slice's first byte on.
pub fn add_binding_bytes(
    file: &File,
    types: &[u32],
    cells: &mut [u32],
    parts: &mut [u32],
    request: &[u8],
    b: u32,
    out: &mut [u8],
) -> Result<usize, Refused>
    requires tables { Tables file.now.bytes file.now.t types.now }
    requires parts_len { (length parts.old ≡ type_count types.now) × Lent cells.old parts.old request.now }
    ensures { Gave out.old out.new (add_bytes (module_of file.now.bytes file.now.t) (length out.old) b request.now) result }
{
    if BINDINGS <= b {
        return Err(Refusal::Malformed.into());
    }
    init(cells);
    let read = read_request(cells, request, file.functions(), file.globals(), out.len());
    let q = read.map_err(own_refusal)?;
    add_to(
        file, types, cells, parts, q.function, q.retval, q.globals, b, out,
    )
}
