// What a pass carries along, beside the new table, and where the needs stand at which a statement can be left.

// The lowest statement so far that breaks its rule; whether each loop's needs held; whether the needs were past 15, and past 16, at some point.
// A stretch of a pass gives none where the bound was passed.
#[derive(Clone, Copy)]
pub struct Passing {
    pub fault: Option<u32>,
    pub held: bool,
    pub deep: bool,
    pub wide: bool,
}

// The slots of the needs after a break, a continue and a return. Those at the end of a statement stand in the last slot.
pub type Exits = strays::exits::Exits<usize>;

pub const TABLE: usize = 1024;

pub const ASKED: usize = 2 * TABLE;

pub const END: usize = ASKED + 1;

pub const STACK: usize = ASKED + 2;
