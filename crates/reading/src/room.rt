// The room that the records are read in.
ghost use Rattle.std.specs.Prelude.{◌≤◌, length};
ghost use Rattle.module.specs.Scan.{values};
ghost use Rattle.module.specs.Tables.{max_items};

// A mark for each value that a field may have, and a count for each block.
// Stays: the tables go beside it. As a field, what they hold afterwards is known only by a clause in each function that the field keeps its reference.
#[derive(Drop)]
pub struct Room<'a> {
    pub seen: &'a mut [u32],
    pub held: &'a mut [u32],
    pub ghost values_seen: { values ≤ length seen.now },
    pub ghost items_held: { max_items ≤ length held.now },
}
