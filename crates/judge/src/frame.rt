// The maps of a frame, by number: each kind of variable has one, the result is one, and the evaluated expressions have so many to a map.

pub const GLOBALS: u32 = 0;

pub const LOCALS: u32 = 1;

pub const ARGUMENTS: u32 = 2;

// The first of the maps of evaluated expressions; the result's is before it.
pub const EVALUATED: u32 = 4;

pub const MAP_EXPRESSIONS: u32 = 32;
