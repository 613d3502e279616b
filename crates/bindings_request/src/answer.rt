// What is written of an answer. A refusal leaves the slice as it was.
ghost use Rattle.std.specs.Prelude.{◌≡◌, ◌≤◌, ◌<◌, length};
ghost use Rattle.field.specs.Limits.{min_report};
ghost use Rattle.part.specs.Store.{top, part, Good};
ghost use Rattle.bindings.specs.Outputs.{asking_of, AskingHeld};
ghost use Rattle.bindings_request.specs.Boundary.{written, refused_by, Gave};

use field::refusal::Refusal;
use module::handles::FunctionHandle;
use request::write::write_request;

// Why nothing was written, and the argument that it is about, which 13 alone tells.
#[derive(Clone, Copy, Debug, PartialEq, Eq)]
pub struct Refused {
    pub by: Refusal,
    pub argument: Option<u32>,
}

impl From<Refusal> for Refused {
    ghost from_gives = { λ r e. e ≡ refused_by r };

    fn from(by: Refusal) -> Refused {
        Refused { by, argument: None }
    }
}

// The request for the function f that asks for these pieces. It is never longer than the slice, which has as many bytes as a report buffer.
pub fn write_asking(
    cells: &[u32],
    f: FunctionHandle,
    globals: u32,
    a: Result<u32, Refusal>,
    out: &mut [u8],
) -> Result<usize, Refused>
    requires good { Good cells.now }
    requires globals_bound { (globals < top cells.now) × AskingHeld cells.now (part cells.now globals) a }
    requires min_report_in_bounds { min_report ≤ length out.old }
    ensures { Gave out.old out.new (written f.0 (asking_of cells.now (part cells.now globals) a)) result }
{
    let p = a?;
    Ok(write_request(cells, f, p, globals, out))
}
