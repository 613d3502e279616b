// What a check works in beside its parts, of whatever contents.
use context::remove::TYPE_WORDS;
use field::limits::{MAX_EXPRESSIONS, MAX_STATEMENTS, MAX_TYPES};

// A path has an index for each expression, and two more.
pub const PATH: usize = MAX_EXPRESSIONS + 2;

// The tables of the function and of its types, where the marks of each statement begin, and a path.
#[derive(Drop)]
pub struct Scratch {
    pub rows: [u32; TYPE_WORDS * MAX_TYPES],
    pub alike: [u32; MAX_TYPES],
    pub held: [bool; MAX_TYPES],
    pub paths: [bool; MAX_EXPRESSIONS],
    pub firsts: [u32; MAX_STATEMENTS],
    pub path: [u32; PATH],
}
