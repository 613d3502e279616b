// The total of a function in its slots: the context, and the records.
ghost use Rattle.std.specs.Prelude.{◌≡◌, ◌+◌, ◌*◌};
ghost use Rattle.std.specs.Option.{is_none};
ghost use Rattle.part.specs.Store.{Room};
ghost use Rattle.context.specs.RequiredContext.{pieces};
ghost use Rattle.memory.specs.Layout.{functions_slot};
ghost use Rattle.memory.specs.Memory.{read, context_at, Memory};
ghost use Rattle.block.specs.Total.{total_count, Totalling, TotalKept, TotalJoined, Weighing};

use access::file::File;
use leave::leave::records_of;
use memory::layout::{EXPRS, FUNCTIONS, TOTALS};
use memory::memory::weigh;
use memory::stretches::{copy_context, extend, load_context, save_context};
use module::handles::FunctionHandle;

// The first total of f: the context at `at`, and the records of the open function.
pub fn keep_total(file: &File, slots: &mut [u32], f: FunctionHandle, at: usize)
    requires { Totalling file.now.t slots.old f.0 at }
    ensures { TotalKept file.now.t f.0 at slots.old slots.new }
{
    let r = records_of(file, f);
    let from = r.from;
    copy_context(slots, at, FUNCTIONS + 4 * (f.0 as usize));
    extend(slots, EXPRS + from, TOTALS + from, r.n);
}

// A later one: the contexts are joined. None where that passes a limit.
pub fn join_total(
    file: &File,
    cells: &mut [u32],
    slots: &mut [u32],
    f: FunctionHandle,
    at: usize,
) -> Option<()>
    requires totalling { Totalling file.now.t slots.old f.0 at }
    requires memory { Memory cells.old slots.old }
    requires room { Room cells.old (pieces (context_at (read cells.old slots.old) (functions_slot + 4 * f.0)) + pieces (context_at (read cells.old slots.old) at)) }
    ensures { TotalJoined file.now.t f.0 at cells.old slots.old (is_none result) cells.new slots.new }
{
    let to = FUNCTIONS + 4 * (f.0 as usize);
    let total = load_context(slots, to);
    let walked = load_context(slots, at);
    let joined = total.merge(cells, walked);
    save_context(slots, to, joined);
    let r = records_of(file, f);
    let from = r.from;
    extend(slots, EXPRS + from, TOTALS + from, r.n);
    (!joined.over(cells)).then_some(())
}

// What the slots of the total of f count for.
pub fn weigh_total(file: &File, cells: &[u32], slots: &[u32], f: FunctionHandle) -> usize
    requires { Weighing file.now.t cells.now slots.now f.0 }
    ensures { result ≡ total_count file.now.t f.0 (read cells.now slots.now) }
{
    let r = records_of(file, f);
    let from = r.from;
    let records = weigh(cells, slots, TOTALS + from, r.n);
    let context = weigh(cells, slots, FUNCTIONS + 4 * (f.0 as usize), 4);
    records + context
}
