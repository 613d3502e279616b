// How a request begins: what it asks, and the totals that are lent, go into a walk's memory.
ghost use Rattle.std.specs.Prelude.{◌≡◌, ◌+◌, ◌≤◌, length, get_or};
ghost use Rattle.field.specs.Limits.{absent};
ghost use Rattle.part.specs.PartReq.{none, entries};
ghost use Rattle.part.specs.StoreLimits.{store_words};
ghost use Rattle.memory.specs.Layout.{globals_slot, slot_count, store_size};
ghost use Rattle.memory.specs.Memory.{read};
ghost use Rattle.marks.specs.Report.{totals_of};
ghost use Rattle.state.specs.State.{totals_sum};
ghost use Rattle.requests.specs.Begin.{Basing, Based, Weighing, LengthChecked, RequestLoaded, Beginning, Begins};

use access::file::File;
use context::required_context::RequiredContext;
use field::field::get;
use field::refusal::Refusal;
use marks::set::clear_marks;
use memory::layout::{GLOBALS, STACK, TOTALS};
use memory::memory::{init_memory, tidy, weigh};
use memory::stretches::save_context;
use module::handles::FunctionHandle;
use part::store::EMPTY_PIECE;
use pruner::lent::read_pruner;
use request::lists::returned;
use request::requests::{Request, read_request};

// The asked function, and what the totals count for.
#[derive(Clone, Copy)]
pub struct Begun {
    pub function: FunctionHandle,
    pub sum: usize,
}

// The base context of the asked function, at the bottom of the stack.
fn load_base(cells: &mut [u32], slots: &mut [u32], q: Request)
    requires { Basing cells.old slots.old q }
    ensures { Based cells.old slots.old q cells.new slots.new }
{
    let retval = q.retval;
    let entry = returned(cells, retval);
    let base = RequiredContext {
        globals: q.globals,
        locals: EMPTY_PIECE,
        args: EMPTY_PIECE,
        retval: entry,
    };
    save_context(slots, STACK, base);
}

// A request that is longer than it says is none.
pub fn check_length(request: &[u8]) -> Result<(), Refusal>
    ensures { LengthChecked request.now result }
{
    if 4 + (get(request, 2) as usize) < request.len() {
        return Err(Refusal::Malformed);
    }
    Ok(())
}

// What the bytes of a request ask of a module with so many functions and globals, in a memory that has nothing else.
fn load_request(
    cells: &mut [u32],
    slots: &mut [u32],
    request: &[u8],
    functions: u32,
    globals: u32,
    report: usize,
) -> Result<FunctionHandle, Refusal>
    requires store_size_in_bounds { (store_size ≤ length cells.old) × (length cells.old ≤ store_words) }
    requires slot_count_in_bounds { (slot_count ≤ length slots.old) × (globals ≤ absent) }
    ensures { RequestLoaded functions globals report request.now cells.new slots.new result }
{
    init_memory(cells, slots);
    check_length(request)?;
    let q = read_request(cells, request, functions, globals, report)?;
    load_base(cells, slots, q);
    Ok(q.function)
}

// What the totals count for.
fn weigh_totals(cells: &[u32], slots: &[u32]) -> usize
    requires { Weighing cells.now slots.now }
    ensures { result ≡ entries (get_or (read cells.now slots.now) globals_slot none) + totals_sum (read cells.now slots.now) }
{
    weigh(cells, slots, GLOBALS, 1) + weigh(cells, slots, TOTALS, STACK - TOTALS)
}

// From here `add_function` walks the asked function, its base at STACK. The rows of the types are no part of this.
pub fn begin_request(
    file: &File,
    starts: &[u32],
    cells: &mut [u32],
    slots: &mut [u32],
    open: &mut [u8],
    flags: &mut [bool],
    kept: &mut [u8],
    request: &[u8],
    pruner: &[u8],
    report: usize,
) -> Result<Begun, Refusal>
    requires { Beginning file.now.bytes file.now.t starts.now cells.old slots.old «open».old (totals_of flags.old kept.old) }
    ensures { Begins file.now.bytes file.now.t starts.now report request.now pruner.now cells.new slots.new «open».new (totals_of flags.new kept.new) result }
{
    let function = load_request(
        cells,
        slots,
        request,
        file.functions(),
        file.globals(),
        report,
    )?;
    read_pruner(file, starts, cells, slots, flags, kept, pruner).ok_or(Refusal::PrunerUnfit)?;
    clear_marks(open, starts, function);
    tidy(cells, slots);
    let sum = weigh_totals(cells, slots);
    Ok(Begun { function, sum })
}
