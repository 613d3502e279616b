// What an arm asks of a variable, and the end of its visit: an arm that asks one asks nothing else.
ghost use Rattle.std.specs.Prelude.{List, ℕ, ◌+◌, ◌<◌, get_or};
ghost use Rattle.std.specs.Option.{is_none};
ghost use Rattle.part.specs.PartReq.{spine};
ghost use Rattle.part.specs.Store.{part};
ghost use Rattle.walk.specs.Expression.{joined};
ghost use Rattle.memory.specs.Want.{asked};
ghost use Rattle.state.specs.Ready.{Ready};
ghost use Rattle.expression.specs.Walks.{Walks, EntryWalks, ending_global};
ghost use Rattle.expression.specs.Visits.{Visiting, Mapping, Meets};

use crate::visit::{Visit, close};
use access::file::File;
use field::refusal::Refusal;
use memory::layout::GLOBALS;
use memory::memory::{ask_global, join_asked};
use memory::want::Want;
use module::handles::GlobalHandle;
use part::limits::SPINE;
use part::req::get;
use part::store::over;
use state::answer::{Tally, Walked};

// Joins what w asks to the entry of the variable i in a map of the context in the slots from `at` on, where that passes no limit; none where it does.
fn join(cells: &mut [u32], slots: &mut [u32], at: usize, map: usize, i: u32, w: Want) -> Option<()>
    requires { Mapping cells.old slots.old (at + map) i w }
    ensures { Meets cells.old slots.old (at + map) (joined (part cells.old (get_or slots.old (at + map) 0)) i (asked cells.old slots.old w)) (is_none result) cells.new slots.new }
{
    let n = slots[at + map];
    let r = join_asked(cells, slots, n, i, w);
    if over(cells, r) {
        return None;
    }
    slots[at + map] = r;
    Some(())
}

// The entry i of a map of the current context is asked w, and the visit ends: an argument's or a local's, by the map's place in the context.
pub fn entry(
    file: &File,
    cells: &mut [u32],
    slots: &mut [u32],
    v: &Visit,
    map: usize,
    i: u32,
    w: Want,
    tally: Tally,
) -> Walked
    requires visiting { Visiting file.now.t v.now.function.0 v.now.expression.0 v.now.at v.now.held cells.old slots.old w tally.sum }
    requires in_bounds { (map < 4) × (i < spine) }
    ensures { (bytes : List ℕ) → Ready bytes file.now.t cells.old slots.old v.now.function.0 v.now.at v.now.held tally.sum → EntryWalks bytes file.now.t v.now.function.0 v.now.at v.now.held cells.old slots.old map v.now.expression.0 i (asked cells.old slots.old w) tally.visits result cells.new slots.new }
{
    join(cells, slots, v.at, map, i, w).ok_or(v.halt(Refusal::PartLimit))?;
    close(file, cells, slots, v, w, tally)
}

// The global g is asked w, and the visit ends. 15 is asked of the total, where it was joined.
pub fn global(
    file: &File,
    cells: &mut [u32],
    slots: &mut [u32],
    v: &Visit,
    g: GlobalHandle,
    w: Want,
    tally: Tally,
) -> Walked
    requires visiting { Visiting file.now.t v.now.function.0 v.now.expression.0 v.now.at v.now.held cells.old slots.old w tally.sum }
    requires g_lt_spine { g.0 < spine }
    ensures { (bytes : List ℕ) → Ready bytes file.now.t cells.old slots.old v.now.function.0 v.now.at v.now.held tally.sum → Walks bytes file.now.t v.now.function.0 v.now.at v.now.held cells.old slots.old (ending_global v.now.function.0 v.now.held v.now.expression.0 g.0 (asked cells.old slots.old w)) tally.visits result cells.new slots.new }
{
    let seen = get(cells, slots[GLOBALS], SPINE + g.0);
    let n = slots[v.at];
    let r = ask_global(cells, slots, n, g, w, tally.sum);
    let counted = Tally {
        sum: r.sum,
        ..tally
    };
    match seen {
        None => {
            slots[v.at] = r.globals;
            close(file, cells, slots, v, w, counted)
        }
        Some(_) => {
            if over(cells, slots[GLOBALS]) {
                return Err(v.halt(Refusal::PartLimit));
            }
            close(file, cells, slots, v, w, counted)
        }
    }
}
