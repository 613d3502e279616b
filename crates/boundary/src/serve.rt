// A request on a module file. What it leaves goes into three lent slices: the pruner's totals, the marks of every function, and the answer.
ghost use Rattle.std.specs.Prelude.{◌≡◌, ◌*◌, ◌≤◌};
ghost use Rattle.state.specs.State.{place_of};
ghost use Rattle.access.specs.Laid.{WasRead};
ghost use Rattle.requests.specs.Serve.{place_word, reply_word};
ghost use Rattle.requests.specs.Finish.{reply_of};
ghost use Rattle.boundary.specs.Requests.{RequestsRead, Requests};

use crate::answer::refused_word;
use access::file::File;
use block::world::World;
use context::remove::TYPE_WORDS;
use field::limits::MAX_TYPES;
use marks::places::{MarkPlaces, place_marks};
use module::tables::WORDS;
use reading::read::read_module;
use requests::finish::Reply;
use requests::serve::serve_read;
use state::answer::Place;
use type_table::fill;
use type_table::typed::TypedFile;

// From these on a place is an expression or a statement, its function's number above its own, which has 15 bits.
const EXPRESSION: u64 = 1073741824;

const STATEMENT: u64 = 2147483648;

const FUNCTION: u64 = 32768;

fn place_word(place: Place) -> u64
    ensures { (result ≡ place_word (place_of place)) × (result ≤ 4294967295) }
{
    match place {
        Place::Expression(f, e) => {
            EXPRESSION
                + FUNCTION * ((f.0 % FUNCTION as u32) as u64)
                + ((e.0 % FUNCTION as u32) as u64)
        }
        Place::Statement(f, s) => {
            STATEMENT + FUNCTION * ((f.0 % FUNCTION as u32) as u64) + ((s % FUNCTION as u32) as u64)
        }
        Place::Nowhere => 0,
    }
}

fn reply_word(r: Reply) -> u64
    ensures { result ≡ reply_word (reply_of r) }
{
    match r {
        Ok(n) => n as u64,
        Err(h) => refused_word(u32::from(h.refusal) % 65536) + place_word(h.place),
    }
}

// Of a module that was read, with a row for each type.
fn request_of(
    typed: &TypedFile,
    places: &mut MarkPlaces,
    request: &[u8],
    pruner: &mut [u8],
    report: &mut [u8],
    answer: &mut [u8],
) -> u64
    ensures { RequestsRead typed.now.file.now.bytes typed.now.file.now.t request.now pruner.old report.old answer.old result pruner.new report.new answer.new }
{
    place_marks(typed.file, &mut places.starts, &mut places.firsts);
    let world = World {
        typed: &*typed,
        places,
    };
    let r = serve_read(&world, request, pruner, report, answer);
    reply_word(r)
}

// The same with tables of its own.
fn request_in(
    file: &File,
    request: &[u8],
    pruner: &mut [u8],
    report: &mut [u8],
    answer: &mut [u8],
) -> u64
    requires { WasRead file.now.bytes file.now.t }
    ensures { RequestsRead file.now.bytes file.now.t request.now pruner.old report.old answer.old result pruner.new report.new answer.new }
{
    let mut table: [u32; TYPE_WORDS * MAX_TYPES] = [0; TYPE_WORDS * MAX_TYPES];
    let mut places = MarkPlaces::new();
    let e = TYPE_WORDS * (file.types() as usize);
    let rows = &mut table[0..e];
    fill(file, rows);
    let typed = TypedFile { file, types: rows };
    request_of(&typed, &mut places, request, pruner, report, answer)
}

// Of any bytes.
pub fn request_any(
    bytes: &[u8],
    t: &mut [u32; WORDS],
    request: &[u8],
    pruner: &mut [u8],
    report: &mut [u8],
    answer: &mut [u8],
) -> u64
    ensures { Requests bytes.now request.now pruner.old report.old answer.old result pruner.new report.new answer.new }
{
    if let Err(refusal) = read_module(bytes, t) {
        return reply_word(Err(refusal.into()));
    }
    request_in(&File::new(bytes, t), request, pruner, report, answer)
}
