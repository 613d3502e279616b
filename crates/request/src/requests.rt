// Requests: 12 of the whole, then 11, then 18.
ghost use Rattle.std.specs.Prelude.{◌≡◌, ◌≤◌, length};
ghost use Rattle.field.specs.Limits.{absent};
ghost use Rattle.part.specs.Store.{Good};
ghost use Rattle.request.specs.Fields.{fields};
ghost use Rattle.request.specs.Request.{is_request, judge, request_of, finish};
ghost use Rattle.request.specs.Answers.{optional, Held, RoomFor, RequestWasRead};

use crate::lists::{read_return, read_variables};
use crate::record::{ends, field, is_record};
use field::field::read;
use field::limits::{ABSENT, MIN_REPORT};
use field::refusal::Refusal;
use module::handles::FunctionHandle;

// What is asked: pieces of the store.
#[derive(Clone, Copy)]
pub struct Request {
    pub function: FunctionHandle,
    pub retval: Option<u32>,
    pub globals: u32,
}

fn is_request(bytes: &[u8]) -> bool
    ensures { result ≡ is_request bytes.now }
{
    bytes.len() >= 4 && is_record(bytes, b'R', b'Q', 4, read(bytes, 2) as usize)
}

// The globals of a request for `function` and `retval`, with which it ends, and what they answer.
fn read_globals(
    cells: &mut [u32],
    bytes: &[u8],
    function: FunctionHandle,
    retval: Option<u32>,
    functions: u32,
    globals: u32,
    report: usize,
) -> Result<Request, Refusal>
    requires good { Good cells.old }
    requires room { RoomFor cells.old bytes.now }
    requires globals_le_absent { (globals ≤ absent) × Held cells.old retval }
    ensures { RequestWasRead cells.old cells.new (length bytes.now) (finish functions globals report function.0 (optional cells.old retval) (fields bytes.now)) result }
{
    let (o, end) = read_variables(cells, bytes, globals).ok_or(Refusal::Malformed)?;
    if !ends(end) {
        return Err(Refusal::Malformed);
    }
    let g = o.ok_or(Refusal::NoSuch)?;
    if functions <= function.0 {
        return Err(Refusal::NoSuch);
    }
    if report < MIN_REPORT {
        return Err(Refusal::ReportTooShort);
    }
    Ok(Request {
        function,
        retval,
        globals: g,
    })
}

// The request that the bytes mean, of a module with so many functions and globals, for a report buffer of `report` bytes.
pub fn read_request(
    cells: &mut [u32],
    bytes: &[u8],
    functions: u32,
    globals: u32,
    report: usize,
) -> Result<Request, Refusal>
    requires good { Good cells.old }
    requires globals_le_absent { (globals ≤ absent) × RoomFor cells.old bytes.now }
    ensures { RequestWasRead cells.old cells.new (length bytes.now) (judge functions globals report (request_of bytes.now)) result }
{
    if !is_request(bytes) {
        return Err(Refusal::Malformed);
    }
    let (f, rest) = field(&bytes[4..]).ok_or(Refusal::Malformed)?;
    if f >= ABSENT {
        return Err(Refusal::Malformed);
    }
    let (p, list) = read_return(cells, rest).ok_or(Refusal::Malformed)?;
    let function = FunctionHandle(f as u32);
    read_globals(cells, list, function, p, functions, globals, report)
}
