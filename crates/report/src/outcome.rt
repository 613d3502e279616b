// From the bytes of an input to the end of the walk of its request.
ghost use Rattle.std.specs.Prelude.{◌≡◌};
ghost use Rattle.field.specs.Limits.{min_report};
ghost use Rattle.module.specs.Tables.{module_of};
ghost use Rattle.request.specs.Request.{read_request};
ghost use Rattle.access.specs.Laid.{WasRead};
ghost use Rattle.report_text.specs.Split.{module_in, request_in};
ghost use Rattle.report_text.specs.Input.{request_text};
ghost use Rattle.marks.specs.Places.{Places};
ghost use Rattle.report.specs.Outcome.{TextIs, AskedOf, WalkedOf};

use access::file::File;
use block::workspace::Workspace;
use block::world::World;
use context::remove::TYPE_WORDS;
use field::limits::{MAX_TYPES, MIN_REPORT};
use field::refusal::Refusal;
use function::add::add_function;
use marks::places::{MarkPlaces, place_marks};
use memory::layout::STACK;
use module::handles::FunctionHandle;
use report_text::split::split;
use requests::begin::begin_request;
use requests::finish::check_totals;
use state::answer::{Place, Tally};
use type_table::fill;
use type_table::typed::TypedFile;

// The asked function, of which memory has a report, and whether it is required.
#[derive(Clone, Copy)]
pub struct Reported {
    pub function: FunctionHandle,
    pub required: bool,
}

pub type Outcome = Result<Reported, Refusal>;

// The walk of f, and 16 at its end.
// Stays: `walk_request` of requests begins with the same call, and `finish_request` with the same test. One `walk_asked` of both would need a contract
// that hands on what each proves of the ended walk: that memory has a report (`Reporting`, here), and what `FinishingOf` asks (there).
fn walk_function(world: &World, space: &mut Workspace, f: FunctionHandle, sum: usize) -> Outcome
    requires { AskedOf world.now space.old f.0 sum }
    ensures { WalkedOf world.now space.old f.0 space.new.parts.cells space.new.parts.slots space.new.open result }
{
    match add_function(
        world,
        space,
        f,
        STACK,
        Place::Nowhere,
        0,
        Tally { visits: 0, sum },
    ) {
        Err(h) => Err(h.refusal),
        Ok(a) => {
            let parts = &space.parts;
            check_totals(world.typed.file, &parts.cells, &parts.slots, f, a.tally.sum)?;
            Ok(Reported {
                function: f,
                required: a.required,
            })
        }
    }
}

// The request of a module that was read, with a row for each type.
// Stays: boundary's `request_of` makes its world so too. One maker would lend `places` on, which are read after the walk: it takes a clause over that borrow.
fn walk_request(
    typed: &TypedFile,
    places: &mut MarkPlaces,
    space: &mut Workspace,
    request: &[u8],
) -> Outcome
    ensures placed { Places typed.now.file.now.bytes typed.now.file.now.t places.new }
    ensures text { TextIs (request_text (module_of typed.now.file.now.bytes typed.now.file.now.t) (read_request (module_of typed.now.file.now.bytes typed.now.file.now.t) min_report request.now)) typed.now.file.now.bytes typed.now.file.now.t request.now places.new space.new.parts.cells space.new.parts.slots space.new.open result }
{
    place_marks(typed.file, &mut places.starts, &mut places.firsts);
    let world = World {
        typed: &*typed,
        places,
    };
    // a fresh pruner
    let pruner = b"\0\0";
    let begun = begin_request(
        typed.file,
        &world.places.starts,
        &mut space.parts.cells,
        &mut space.parts.slots,
        &mut space.open,
        &mut space.totals.flags,
        &mut space.totals.marks,
        request,
        pruner,
        MIN_REPORT,
    )?;
    walk_function(&world, space, begun.function, begun.sum)
}

// The request of a module that was read, asked of a fresh pruner.
pub fn walk_read(
    file: &File,
    places: &mut MarkPlaces,
    space: &mut Workspace,
    request: &[u8],
) -> Outcome
    requires { WasRead file.now.bytes file.now.t }
    ensures placed { Places file.now.bytes file.now.t places.new }
    ensures text { TextIs (request_text (module_of file.now.bytes file.now.t) (read_request (module_of file.now.bytes file.now.t) min_report request.now)) file.now.bytes file.now.t request.now places.new space.new.parts.cells space.new.parts.slots space.new.open result }
{
    let mut table: [u32; TYPE_WORDS * MAX_TYPES] = [0; TYPE_WORDS * MAX_TYPES];
    let e = TYPE_WORDS * (file.types() as usize);
    let rows = &mut table[0..e];
    fill(file, rows);
    let typed = TypedFile { file, types: rows };
    walk_request(&typed, places, space, request)
}

// The module of an input, in front of the request.
pub fn front(input: &[u8]) -> &[u8]
    ensures { result.now ≡ module_in input.now }
{
    let at = split(input);
    &input[0..at]
}

// The request, behind the module.
pub fn behind(input: &[u8]) -> &[u8]
    ensures { result.now ≡ request_in input.now }
{
    let n = input.len();
    let at = split(input);
    &input[at..n]
}
