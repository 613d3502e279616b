// The memory of a walk: a store of pieces, and slots that are its roots.
ghost use Rattle.std.specs.Prelude.{◌≡◌, ◌+◌, ◌*◌, ◌≤◌, ◌<◌, length};
ghost use Rattle.field.specs.Limits.{max_depth};
ghost use Rattle.part.specs.PartReq.{none, more, entries, spine};
ghost use Rattle.part.specs.Count.{same};
ghost use Rattle.walk.specs.Expression.{joined};
ghost use Rattle.part.specs.Store.{top, part, Good, Room, Made};
ghost use Rattle.part.specs.StoreLimits.{store_words, entries_cap};
ghost use Rattle.memory.specs.Layout.{flat_count, stack_slot, store_size, most};
ghost use Rattle.memory.specs.Flat.{flat_from};
ghost use Rattle.memory.specs.Want.{asked};
ghost use Rattle.memory.specs.Memory.{read, sum_from, counted, Recorded, Memory, Tidied, Flats, Empty, Putting, Noting, Noted, join_room, Joining, Totalling, Totalled};

use crate::layout::{ALL, EXIST, FLAT, FLATS, GLOBALS, LIVE, UNASKED, WHOLE};
use crate::want::{Want, piece};
use module::handles::GlobalHandle;
use part::collect::collect;
use part::entry::add_entry;
use part::limits::SPINE;
use part::req::{get, insert};
use part::store::{ALL_PIECE, EMPTY_PIECE, EXIST_PIECE, entries, init, look, make};

// The flat part of n digits of the code c, from the component k on.
fn flat(cells: &mut [u32], k: u32, n: u32, c: usize) -> u32
    requires good { Good cells.old }
    requires room { Room cells.old n × (k + n < 256) }
    ensures { Made cells.old cells.new (flat_from k n c) n result }
{
    if n == 0 {
        return EMPTY_PIECE;
    }
    let r = flat(cells, k + 1, n - 1, c / 3);
    match c % 3 {
        UNASKED => r,
        WHOLE => make(cells, k, ALL_PIECE, r),
        _ => make(cells, k, EXIST_PIECE, r),
    }
}

// All flat parts, in their slots.
fn flats(cells: &mut [u32], slots: &mut [u32])
    requires good { Good cells.old × Room cells.old (4 * flat_count) }
    requires stack_slot_in_bounds { stack_slot ≤ length slots.old }
    ensures { Flats cells.old slots.old cells.new slots.new flat_count }
{
    // Stays: by number. Over the slots themselves it takes two `let`s, of all slots and of these, and `iter_mut().enumerate()` for the code that c is.
    for c in 0..FLATS {
        let r = flat(cells, 0, 4, c);
        slots[FLAT + c] = r;
    }
}

// A memory in which nothing is asked, recorded or held.
pub fn init_memory(cells: &mut [u32], slots: &mut [u32])
    requires store_size_in_bounds { (store_size ≤ length cells.old) × (length cells.old ≤ store_words) }
    requires stack_slot_in_bounds { stack_slot ≤ length slots.old }
    ensures { Empty cells.new slots.new }
{
    init(cells);
    slots.fill(EMPTY_PIECE);
    slots[ALL] = ALL_PIECE;
    slots[EXIST] = EXIST_PIECE;
    flats(cells, slots);
}

// Room for one visit: where there is too little, what no slot needs is freed.
pub fn tidy(cells: &mut [u32], slots: &mut [u32])
    requires memory { Memory cells.old slots.old }
    requires slots_bound { counted (read cells.old slots.old) ≤ most }
    ensures { Tidied cells.old slots.old cells.new slots.new }
{
    let used = cells[0] as usize;
    if used <= 3 + LIVE {
        return;
    }
    collect(cells, slots);
}

// The entries of n slots from the slot a on, in sum.
pub fn weigh(cells: &[u32], slots: &[u32], a: usize, n: usize) -> usize
    requires memory { Memory cells.now slots.now }
    requires n_in_bounds { (a + n ≤ length slots.now) × (sum_from (read cells.now slots.now) a n ≤ entries_cap) }
    ensures { result ≡ sum_from (read cells.now slots.now) a n }
{
    let mut sum = 0;
    for r in &slots[a..a + n] {
        sum += entries(cells, *r) as usize;
    }
    sum
}

// The slot `at` has the piece r then. Gives what records and totals count for.
pub fn put(cells: &[u32], slots: &mut [u32], at: usize, r: u32, sum: usize) -> usize
    requires { Putting cells.now slots.old at r sum }
    ensures { Noted cells.now slots.old at (part cells.now r) sum 0 cells.now slots.new result }
{
    let less = entries(cells, slots[at]) as usize;
    let more = entries(cells, r) as usize;
    slots[at] = r;
    sum - less + more
}

// Whether the record n is {0: p}.
fn is_record(cells: &[u32], n: u32, p: u32) -> bool
    requires good { Good cells.now }
    requires n_bound { ((n < top cells.now) × (p < top cells.now)) × Recorded (part cells.now n) }
    ensures { result ≡ same (part cells.now n) (more 0 (part cells.now p) none) }
{
    if n <= EMPTY_PIECE {
        return false;
    }
    let x = look(cells, n);
    x.child == p
}

// The record in the slot `at` is what w asks. Gives what records and totals count for.
pub fn note(cells: &mut [u32], slots: &mut [u32], at: usize, w: Want, sum: usize) -> usize
    requires { Noting cells.old slots.old at w sum }
    ensures { Noted cells.old slots.old at (more 0 (asked cells.old slots.old w) none) sum (max_depth + 1) cells.new slots.new result }
{
    let slot = w.slot;
    let p = piece(cells, w, slots[slot]);
    if is_record(cells, slots[at], p) {
        return sum;
    }
    let r = make(cells, 0, p, EMPTY_PIECE);
    put(cells, slots, at, r, sum)
}

// {variable i: p} joined to the map n.
fn join_entry(cells: &mut [u32], n: u32, i: u32, p: u32) -> u32
    requires good { Good cells.old }
    requires n_bound { ((n < top cells.old) × (p < top cells.old)) × (i < spine) }
    requires room { Room cells.old (entries (part cells.old n) + entries (part cells.old p) + 1) }
    ensures { Made cells.old cells.new (joined (part cells.old n) i (part cells.old p)) (entries (part cells.old n) + entries (part cells.old p) + 1) result }
{
    add_entry(cells, n, SPINE + i, p)
}

// What w asks, joined to the entry of the variable i in the map n: of arguments, or of locals.
pub fn join_asked(cells: &mut [u32], slots: &[u32], n: u32, i: u32, w: Want) -> u32
    requires { Joining cells.old slots.now n i w }
    ensures { Made cells.old cells.new (joined (part cells.old n) i (asked cells.old slots.now w)) join_room result }
{
    let slot = w.slot;
    let p = piece(cells, w, slots[slot]);
    join_entry(cells, n, i, p)
}

// The globals' map of a context, and what records and totals count for.
#[derive(Clone, Copy)]
pub struct Totals {
    pub globals: u32,
    pub sum: usize,
}

// What w asks is asked of the global g. The first time, of all that the pruner has seen, the entry of the context's map n is replaced; later only the
// total is joined.
pub fn ask_global(
    cells: &mut [u32],
    slots: &mut [u32],
    n: u32,
    g: GlobalHandle,
    w: Want,
    sum: usize,
) -> Totals
    requires { Totalling cells.old slots.old n g.0 w sum }
    ensures { Totalled cells.old slots.old n g.0 (asked cells.old slots.old w) sum cells.new slots.new result.globals result.sum }
{
    let slot = w.slot;
    let p = piece(cells, w, slots[slot]);
    let old = slots[GLOBALS];
    let f = get(cells, old, SPINE + g.0);
    match f {
        None => {
            let d = insert(cells, n, SPINE + g.0, p);
            let t = insert(cells, old, SPINE + g.0, p);
            let m = put(cells, slots, GLOBALS, t, sum);
            Totals { globals: d, sum: m }
        }
        Some(_) => {
            let t = join_entry(cells, old, g.0, p);
            let m = put(cells, slots, GLOBALS, t, sum);
            Totals { globals: n, sum: m }
        }
    }
}
