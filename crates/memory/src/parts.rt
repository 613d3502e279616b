// The parts that a walk, or a check, holds, as their owner has them: what works in them takes the two arrays as slices.
ghost use Rattle.std.specs.Prelude.{◌≡◌, length, replicate};
ghost use Rattle.memory.specs.Layout.{slot_count, store_size};

use crate::layout::{CELLS, SLOTS};

// The cells of their pieces, and the slots that name them. How many there are is a fact of the value, for those who lend them.
// Stays: arrays, made by one memset: a `Vec` allocates, and there is no heap here. Slots hold `u32`, as cells' words do, since `collect` renumbers words.
#[derive(Drop)]
pub struct Parts {
    pub cells: [u32; CELLS],
    pub slots: [u32; SLOTS],
    pub ghost cells_long: { length cells ≡ store_size },
    pub ghost slots_long: { length slots ≡ slot_count },
}

impl Parts {
    // Zeros: no memory yet.
    pub fn new() -> Parts
        ensures cells { result.cells ≡ replicate store_size 0 }
        ensures slots { result.slots ≡ replicate slot_count 0 }
    {
        Parts {
            cells: [0; CELLS],
            slots: [0; SLOTS],
        }
    }
}
