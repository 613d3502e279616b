// `input_to_bindings` on a context's bytes: 12, 11, 20, 13, 16. The bindings list is written, a byte for each.
ghost use Rattle.std.specs.Prelude.{◌≡◌, ◌≤◌, length};
ghost use Rattle.field.specs.Limits.{max_arguments};
ghost use Rattle.module.specs.Operands.{bindings};
ghost use Rattle.module.specs.Tables.{function_of, module_of};
ghost use Rattle.context.specs.Types.{type_count};
ghost use Rattle.bindings.specs.Rows.{args_of};
ghost use Rattle.bindings_request.specs.Boundary.{Tables, Gave};
ghost use Rattle.bindings_request.specs.Inputs.{ListGiven, input_bytes};

use crate::answer::Refused;
use crate::needed::{TypeSets, all_table, input_to_bindings};
use access::file::File;
use access::whole::Bound;
use bindings::set::list;
use bindings::types::BoundTypes;
use context_bytes::check::{check_context, without_function};
use context_bytes::count::count_context;
use context_bytes::find::args_bytes;
use context_bytes::variables_bytes::VariablesBytes;
use field::limits::MAX_PIECES;
use field::refusal::Refusal;
use module::handles::FunctionHandle;
use module::operands::BINDINGS;

// The arguments of the function f, each in its place.
fn fill(file: &File, f: FunctionHandle, args: &mut [Bound])
    requires args_len { length args.old ≡ length (function_of file.now.bytes file.now.t f.0).arguments }
    requires args_len_bound { length args.old ≤ max_arguments }
    ensures { args_of args.new ≡ (function_of file.now.bytes file.now.t f.0).arguments }
{
    for (i, x) in args.iter_mut().enumerate() {
        *x = file.argument(f, i as u32);
    }
}

// The list of the bindings s, which a context needs: 16, where it has too many pieces.
fn write_list(s: u64, context: &[u8], out: &mut [u8]) -> Result<usize, Refused>
    requires { bindings ≤ length out.old }
    ensures { ListGiven context.now s out.old out.new result }
{
    if MAX_PIECES < count_context(context) {
        return Err(Refusal::PiecesLimit.into());
    }
    Ok(list(s, out))
}

// The bindings list of a context's bytes, written from the slice's first byte on.
pub fn input_to_bindings_bytes(
    file: &File,
    types: &[u32],
    sets: &mut [u64],
    args: &mut [Bound],
    f: FunctionHandle,
    context: &[u8],
    out: &mut [u8],
) -> Result<usize, Refused>
    requires tables { Tables file.now.bytes file.now.t types.now }
    requires sets_len { (length sets.old ≡ type_count types.now) × (max_arguments ≤ length args.old) }
    ensures { Gave out.old out.new (input_bytes (module_of file.now.bytes file.now.t) (length out.old) f.0 context.now) result }
{
    if file.functions() <= f.0 {
        return Err(without_function(context).into());
    }
    let n = file.arguments(f);
    let l = file.locals(f);
    check_context(context, file.globals(), n, l)?;
    if out.len() < BINDINGS as usize {
        return Err(Refusal::AnswerTooShort.into());
    }
    let own = &mut args[0..n as usize];
    fill(file, f, own);
    let types = BoundTypes { rows: types };
    all_table(&types, sets);
    let known = TypeSets {
        types: &types,
        sets: &*sets,
    };
    let variables = VariablesBytes {
        bytes: args_bytes(context),
    };
    let s = input_to_bindings(&variables, &known, own)?;
    write_list(s, context, out)
}
