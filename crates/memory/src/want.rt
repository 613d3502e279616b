// A part by value, on its way down to the operands: no cell is made until a piece is needed.
ghost use Rattle.std.specs.Prelude.{◌≡◌, ◌+◌, ◌*◌, ◌≤◌, ◌<◌, get_or, IsSomeAnd};
ghost use Rattle.field.specs.Limits.{max_depth};
ghost use Rattle.part.specs.PartReq.{none, more, over, spine, is_all, is_exist};
ghost use Rattle.part.specs.Store.{top, part, Good, Room, Made};
ghost use Rattle.memory.specs.Want.{kid, tail, core, asks, want_of, wrapped, inside, popped, is_plain, asked, Wants, first, Child};
ghost use Rattle.memory.specs.Memory.{Memory};
ghost use Rattle.memory.specs.Layout.{flat_slot};
ghost use Rattle.memory.specs.Picks.{digit_of, some_digit, Letters, FourDigits, Picks};
ghost use Rattle.context.specs.Swizzle.{swizzled};

use crate::layout::{ALL, EXIST, FLAT, PATH, THERE, UNASKED, WHOLE};
use field::limits::{MAX_DEPTH, MAX_ENTRIES};
use part::store::{ALL_PIECE, EMPTY_PIECE, EXIST_PIECE, depth, look, make};

// The part of a slot, `down` positions of entries on the way into it, and `up` indexes wrapped around, from path[MAX_DEPTH] on.
// Stays: one array with two lengths, which is copied with each part by value: an `ArrayVec` is not Copy, and two arrays would be four fields for these three.
#[derive(Clone, Copy)]
pub struct Want {
    pub slot: usize,
    pub path: [u32; PATH],
    pub down: usize,
    pub up: usize,
}

// The part of the slot k.
pub fn want_of(k: usize) -> Want
    ensures { result ≡ want_of k }
{
    Want {
        slot: k,
        path: [0; PATH],
        down: 0,
        up: 0,
    }
}

impl Want {
    // The part {i: self}.
    pub fn wrap(self, i: u32) -> Want
        requires { self.up < max_depth }
        ensures { result ≡ wrapped self i }
    {
        let mut path = self.path;
        let up = self.up;
        path[MAX_DEPTH + up] = i;
        Want {
            path,
            up: up + 1,
            ..self
        }
    }

    // The part of the entry k of self, which has nothing wrapped around.
    pub fn into(self, k: u32) -> Want
        requires { self.down < max_depth }
        ensures { result ≡ inside self k }
    {
        let mut path = self.path;
        let down = self.down;
        path[down] = k;
        Want {
            path,
            down: down + 1,
            ..self
        }
    }

    // What the last index was wrapped around.
    pub fn pop(self) -> Want
        requires { 0 < self.up }
        ensures { result ≡ popped self }
    {
        Want {
            up: self.up - 1,
            ..self
        }
    }
}

// The requirement of the first entry of n.
pub fn kid(cells: &[u32], n: u32) -> u32
    requires good { Good cells.now }
    requires n_bound { n < top cells.now }
    ensures { (result < top cells.now) × (part cells.now result ≡ kid (part cells.now n)) }
{
    if EMPTY_PIECE < n {
        look(cells, n).child
    } else {
        EMPTY_PIECE
    }
}

// The entries of n after the first k.
pub fn tail(cells: &[u32], n: u32, k: u32) -> u32
    requires good { Good cells.now }
    requires n_bound { n < top cells.now }
    ensures { (result < top cells.now) × (part cells.now result ≡ tail (part cells.now n) k) }
{
    let mut m = n;
    for _ in 0..k {
        m = if EMPTY_PIECE < m {
            look(cells, m).rest
        } else {
            EMPTY_PIECE
        };
    }
    m
}

// The piece that w's way down leads to, from the piece n.
pub fn reach(cells: &[u32], w: Want, n: u32) -> u32
    requires good { Good cells.now }
    requires n_bound { (n < top cells.now) × (w.down ≤ max_depth) }
    ensures { (result < top cells.now) × (part cells.now result ≡ core w (part cells.now n)) }
{
    let mut m = n;
    for k in &w.path[..w.down] {
        let t = tail(cells, m, *k);
        m = kid(cells, t);
    }
    m
}

// The piece of the part that w asks, where its slot has the piece n.
pub fn piece(cells: &mut [u32], w: Want, n: u32) -> u32
    requires good { Good cells.old }
    requires n_bound { (n < top cells.old) × ((w.down ≤ max_depth) × (w.up ≤ max_depth)) }
    requires room { Room cells.old max_depth }
    ensures { Made cells.old cells.new (asks w (part cells.old n)) max_depth result }
{
    let mut m = reach(cells, w, n);
    for i in &w.path[MAX_DEPTH..MAX_DEPTH + w.up] {
        m = make(cells, *i, m, EMPTY_PIECE);
    }
    m
}

// Stays: cells, slots and w side by side, here and in crate asks. `Memory` says what each cell means, which is data: no ghost field holds it, so a value of
// them would leave the clause at each function, and the walk writes the cells between two of them.
// Whether {i: what w asks} passes a limit.
pub fn wrap_over(cells: &[u32], slots: &[u32], w: Want, i: u32) -> bool
    requires memory { Memory cells.now slots.now × Wants cells.now slots.now w }
    requires i_lt_spine { i < spine }
    ensures { result ≡ over (more i (asked cells.now slots.now w) none) }
{
    let slot = w.slot;
    let n = reach(cells, w, slots[slot]);
    let d = depth(cells, n) as usize;
    MAX_DEPTH <= d + w.up || MAX_ENTRIES < 1
}

// Whether w asks the piece p alone, which is no cell: all, or exist.
#[inline]
fn is_plain(cells: &[u32], slots: &[u32], w: Want, p: u32) -> bool
    requires memory { Memory cells.now slots.now × Wants cells.now slots.now w }
    requires p_lt2 { p < 2 }
    ensures { result ≡ is_plain p (asked cells.now slots.now w) }
{
    if 0 < w.up {
        return false;
    }
    let slot = w.slot;
    let n = reach(cells, w, slots[slot]);
    n == p
}

// Whether w asks all.
pub fn is_all(cells: &[u32], slots: &[u32], w: Want) -> bool
    requires { Memory cells.now slots.now × Wants cells.now slots.now w }
    ensures { result ≡ is_all (asked cells.now slots.now w) }
{
    is_plain(cells, slots, w, ALL_PIECE)
}

// Whether w asks only that it is there.
pub fn is_exist(cells: &[u32], slots: &[u32], w: Want) -> bool
    requires { Memory cells.now slots.now × Wants cells.now slots.now w }
    ensures { result ≡ is_exist (asked cells.now slots.now w) }
{
    is_plain(cells, slots, w, EXIST_PIECE)
}

// The index of the entry k of what w asks, if there is one.
pub fn entry(cells: &[u32], slots: &[u32], w: Want, k: u32) -> Option<u32>
    requires { Memory cells.now slots.now × Wants cells.now slots.now w }
    ensures { result ≡ first (tail (asked cells.now slots.now w) k) }
{
    let up = w.up;
    if 0 < up {
        if k == 0 {
            let path = w.path;
            return Some(path[MAX_DEPTH + (up - 1)]);
        }
        return None;
    }
    let slot = w.slot;
    let m = reach(cells, w, slots[slot]);
    let t = tail(cells, m, k);
    if t <= EMPTY_PIECE {
        return None;
    }
    let x = look(cells, t);
    Some(x.index)
}

// What that entry has, where there is one with a file's index.
pub fn child(cells: &[u32], slots: &[u32], w: Want, k: u32) -> Want
    requires memory { Memory cells.now slots.now × Wants cells.now slots.now w }
    requires k_value { IsSomeAnd (first (tail (asked cells.now slots.now w) k)) (λ i. i < spine) }
    ensures { Child cells.now slots.now w k result }
{
    if 0 < w.up {
        return w.pop();
    }
    w.into(k)
}

// How a component is asked, as a digit of a flat part's code: whole, or to be there. None where it is neither.
fn digit(cells: &[u32], slots: &[u32], w: Want) -> Option<usize>
    requires { Memory cells.now slots.now × Wants cells.now slots.now w }
    ensures { result ≡ some_digit (digit_of (asked cells.now slots.now w)) }
{
    if is_all(cells, slots, w) {
        return Some(WHOLE);
    }
    if is_exist(cells, slots, w) {
        return Some(THERE);
    }
    None
}

// The letter i of a pattern.
fn letter_at(pattern: [u32; 4], i: u32) -> usize
    requires { i < 4 }
    ensures { result ≡ get_or pattern i 0 }
{
    let k = i as usize;
    pattern[k] as usize
}

// The slot of the flat part with these digits.
#[tactic(auto, using(crate::proofs::FlatParts::digit_small))]
fn flat_slot(digits: [usize; 4]) -> usize
    requires { FourDigits digits }
    ensures { result ≡ flat_slot + (get_or digits 0 0 + 3 * (get_or digits 1 0 + 3 * (get_or digits 2 0 + 3 * get_or digits 3 0))) }
{
    let high = digits[2] + 3 * digits[3];
    let low = digits[0] + 3 * digits[1];
    FLAT + (low + 9 * high)
}

// The slot of what a swizzle with these letters asks of its vector, where w is asked of it; none where that panics.
pub fn swizzle(cells: &[u32], slots: &[u32], w: Want, pattern: [u32; 4]) -> Option<usize>
    requires memory { Memory cells.now slots.now × Wants cells.now slots.now w }
    requires letters { Letters pattern }
    ensures { Picks cells.now slots.now (swizzled pattern (asked cells.now slots.now w)) result }
{
    if is_all(cells, slots, w) {
        return Some(ALL);
    }
    if is_exist(cells, slots, w) {
        return Some(EXIST);
    }
    let mut digits: [usize; 4] = [UNASKED; 4];
    let mut k = 0;
    // Stays: `entry` ends it, and no count. `for k in 0..` saves the two lines that count, and takes a `let Some(i) = .. else { break; };` of three.
    while let Some(i) = entry(cells, slots, w, k) {
        if 4 <= i {
            return None;
        }
        let u = child(cells, slots, w, k);
        let d = digit(cells, slots, u)?;
        let letter = letter_at(pattern, i);
        digits[letter] = d;
        k += 1;
    }
    Some(flat_slot(digits))
}
