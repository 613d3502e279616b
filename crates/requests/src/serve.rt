// A request of a module that was read, from bytes to bytes.
ghost use Rattle.requests.specs.Served.{WalkingOf, WalkedOf, ServedOf};

use crate::answer::MIN_ANSWER;
use crate::begin::begin_request;
use crate::finish::{Reply, finish_request};
use block::workspace::Workspace;
use block::world::World;
use field::refusal::Refusal;
use function::add::add_function;
use memory::layout::STACK;
use module::handles::FunctionHandle;
use pruner::frame::MIN_PRUNER;
use state::answer::{Place, Tally};

// The walk of f, and how it ends.
fn walk_request(
    world: &World,
    space: &mut Workspace,
    f: FunctionHandle,
    sum: usize,
    pruner: &mut [u8],
    report: &mut [u8],
    answer: &mut [u8],
) -> Reply
    requires { WalkingOf world.now space.old f.0 sum pruner.old report.old answer.old }
    ensures { WalkedOf world.now space.old f.0 sum pruner.old report.old answer.old result pruner.new report.new answer.new }
{
    let walked = add_function(
        world,
        space,
        f,
        STACK,
        Place::Nowhere,
        0,
        Tally { visits: 0, sum },
    )?;
    let parts = &space.parts;
    finish_request(
        world.typed.file,
        &world.places.starts,
        &parts.cells,
        &parts.slots,
        &space.open,
        &space.totals.flags,
        &space.totals.marks,
        f,
        STACK,
        walked,
        pruner,
        report,
        answer,
    )
}

// The request in a walk's memory. A refusal leaves the three buffers.
fn serve_in(
    world: &World,
    space: &mut Workspace,
    request: &[u8],
    pruner: &mut [u8],
    report: &mut [u8],
    answer: &mut [u8],
) -> Reply
    ensures { ServedOf world.now request.now pruner.old report.old answer.old result pruner.new report.new answer.new }
{
    let begun = begin_request(
        world.typed.file,
        &world.places.starts,
        &mut space.parts.cells,
        &mut space.parts.slots,
        &mut space.open,
        &mut space.totals.flags,
        &mut space.totals.marks,
        request,
        pruner,
        report.len(),
    )?;
    if pruner.len() < MIN_PRUNER {
        return Err(Refusal::PrunerUnfit.into());
    }
    if answer.len() < MIN_ANSWER {
        return Err(Refusal::AnswerTooShort.into());
    }
    walk_request(
        world,
        space,
        begun.function,
        begun.sum,
        pruner,
        report,
        answer,
    )
}

// The same with a memory of its own.
pub fn serve_read(
    world: &World,
    request: &[u8],
    pruner: &mut [u8],
    report: &mut [u8],
    answer: &mut [u8],
) -> Reply
    ensures { ServedOf world.now request.now pruner.old report.old answer.old result pruner.new report.new answer.new }
{
    let mut space = Workspace::new();
    serve_in(world, &mut space, request, pruner, report, answer)
}
