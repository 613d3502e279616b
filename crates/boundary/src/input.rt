// `input_to_bindings` on a module file and a context.
ghost use Rattle.std.specs.Prelude.{◌≤◌, length};
ghost use Rattle.field.specs.Limits.{max_arguments, max_types};
ghost use Rattle.bindings_request.specs.Boundary.{Gave};
ghost use Rattle.boundary.specs.Rows.{Roomy};
ghost use Rattle.boundary.specs.Answers.{input_answer};

use crate::room::FileRoom;
use crate::rows::read_rows;
use access::whole::Bound;
use bindings_request::answer::Refused;
use bindings_request::input::input_to_bindings_bytes;
use module::handles::FunctionHandle;

// Of any bytes, with room for whatever they say.
pub fn input_in<'a>(
    bytes: &'a [u8],
    room: FileRoom<'a>,
    sets: &mut [u64],
    args: &mut [Bound],
    f: FunctionHandle,
    context: &[u8],
    out: &mut [u8],
) -> Result<usize, Refused>
    requires roomy { Roomy room }
    requires max_types_in_bounds { (max_types ≤ length sets.old) × (max_arguments ≤ length args.old) }
    ensures { Gave out.old out.new (input_answer bytes.now (length out.old) f.0 context.now) result }
{
    let (file, rows) = read_rows(bytes, room)?;
    let n = file.types() as usize;
    input_to_bindings_bytes(&file, rows, &mut sets[0..n], args, f, context, out)
}
