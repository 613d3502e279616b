// What a walk works in.
ghost use Rattle.std.specs.Prelude.{◌≡◌, false, replicate};
ghost use Rattle.field.specs.Limits.{max_functions, min_report};
ghost use Rattle.memory.specs.Layout.{slot_count, store_size};

use field::limits::{MAX_FUNCTIONS, MIN_REPORT};
use marks::totals::MarkTotals;
use memory::parts::Parts;

// Its parts, the marks of the open functions, and the flags and marks of the totals.
#[derive(Drop)]
pub struct Workspace {
    pub parts: Parts,
    pub open: [u8; MIN_REPORT],
    pub totals: MarkTotals,
}

impl Workspace {
    // Zeros: no memory yet, and no mark or total. It is inlined: the arrays are made where they stay.
    #[inline]
    pub fn new() -> Workspace
        ensures cells { result.parts.cells ≡ replicate store_size 0 }
        ensures slots { result.parts.slots ≡ replicate slot_count 0 }
        ensures marks { result.open ≡ replicate min_report 0 }
        ensures total_flags { result.totals.flags ≡ replicate max_functions false }
        ensures total_marks { result.totals.marks ≡ replicate min_report 0 }
    {
        Workspace {
            parts: Parts::new(),
            open: [0; MIN_REPORT],
            totals: MarkTotals {
                flags: [false; MAX_FUNCTIONS],
                marks: [0; MIN_REPORT],
            },
        }
    }
}
