// The marks of the totals.
use field::limits::{MAX_FUNCTIONS, MIN_REPORT};

// Which functions have a total, and its marks, which stand where those of the open functions do.
#[derive(Drop)]
pub struct MarkTotals {
    pub flags: [bool; MAX_FUNCTIONS],
    pub marks: [u8; MIN_REPORT],
}
