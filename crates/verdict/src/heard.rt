// What a request and a context ask together: 12 of either comes before 11 of either.
ghost use Rattle.std.specs.Prelude.{◌≡◌, ◌≤◌};
ghost use Rattle.field.specs.Limits.{absent};
ghost use Rattle.field.specs.Refusal.{number};
ghost use Rattle.module.specs.Tables.{module_of};
ghost use Rattle.request.specs.Context.{read_context, context_of};
ghost use Rattle.walk.specs.Resolve.{function_at};
ghost use Rattle.context_bytes.specs.Checked.{status, status_of};
ghost use Rattle.valid.specs.There.{There};
ghost use Rattle.access.specs.Laid.{WasRead};
ghost use Rattle.verdict.specs.Heard.{Store, Loaded, ValuePiece, refused_first, Hears};

use access::file::File;
use context_bytes::check::{check_context, without_function};
use field::limits::MIN_REPORT;
use field::refusal::Refusal;
use module::handles::FunctionHandle;
use part::store::{EMPTY_PIECE, init};
use request::requests::{Request, read_request};
use requests::begin::check_length;
use rounds::pieces::AskedPieces;

// The asked function, and what is asked of it.
#[derive(Clone, Copy)]
pub struct Heard {
    pub function: FunctionHandle,
    pub asked: AskedPieces,
}

// What the bytes of a request ask, in a store that has nothing else. A check has no report buffer that could be too short.
fn load_request(
    cells: &mut [u32],
    request: &[u8],
    functions: u32,
    globals: u32,
) -> Result<Request, Refusal>
    requires { Store cells.old × (globals ≤ absent) }
    ensures { Loaded functions globals request.now cells.new result }
{
    init(cells);
    check_length(request)?;
    read_request(cells, request, functions, globals, MIN_REPORT)
}

// The piece that is asked of the value, the empty one where nothing is.
fn value_piece(retval: Option<u32>) -> u32
    ensures { ValuePiece retval result }
{
    retval.unwrap_or(EMPTY_PIECE)
}

// What refuses a request and a context, where e refuses the request: of what is not there, 12 of the context comes first.
fn refused_first(e: Refusal, context: &[u8]) -> Refusal
    ensures { number result ≡ refused_first (number e) (context_of context.now) }
{
    match e {
        Refusal::NoSuch => without_function(context),
        _ => e,
    }
}

// Whether a context is one for the function f.
fn context_status(file: &File, f: FunctionHandle, context: &[u8]) -> Result<(), Refusal>
    requires { There file.now.bytes file.now.t f.0 }
    ensures { status result ≡ status_of (read_context (module_of file.now.bytes file.now.t) (function_at (module_of file.now.bytes file.now.t) f.0) context.now) }
{
    let all = file.globals();
    let given = file.arguments(f);
    let own = file.locals(f);
    check_context(context, all, given, own)
}

pub fn hear(
    file: &File,
    cells: &mut [u32],
    request: &[u8],
    context: &[u8],
) -> Result<Heard, Refusal>
    requires { WasRead file.now.bytes file.now.t × Store cells.old }
    ensures { Hears (module_of file.now.bytes file.now.t) request.now context.now cells.new result }
{
    let n = file.functions();
    let q = match load_request(cells, request, n, file.globals()) {
        Ok(q) => q,
        Err(e) => return Err(refused_first(e, context)),
    };
    context_status(file, q.function, context)?;
    let value = value_piece(q.retval);
    Ok(Heard {
        function: q.function,
        asked: AskedPieces {
            globals: q.globals,
            value,
        },
    })
}
