// The walk just done put into the totals, as `add_function_ref` ends: the slots, the marks, and what records and totals count for.
ghost use Rattle.std.specs.Prelude.{List, ℕ, ◌≤◌, length};
ghost use Rattle.field.specs.Limits.{max_functions, min_report};
ghost use Rattle.marks.specs.Report.{totals_of};
ghost use Rattle.block.specs.AddTotal.{TotalAsked, TotalEnds};
ghost use Rattle.marks.specs.Places.{places_of};

use crate::total::{join_total, keep_total, weigh_total};
use access::file::File;
use field::refusal::Refusal;
use marks::joined::{add_marks, keep_marks};
use marks::ray::first_ray;
use module::handles::FunctionHandle;
use state::answer::{Halt, Place, Tally, Walked};

// A first total is kept, a later one joined to that of f. `here` is where f was called.
// Stays: file and starts, since a `World` would ask for rows of the types too, and that the places of all statements are filled.
pub fn add_total(
    file: &File,
    starts: &[u32],
    cells: &mut [u32],
    slots: &mut [u32],
    open: &[u8],
    flags: &mut [bool],
    kept: &mut [u8],
    f: FunctionHandle,
    at: usize,
    here: Place,
    tally: Tally,
) -> Walked
    requires asked { TotalAsked file.now.bytes file.now.t starts.now cells.old slots.old «open».now f.0 at tally.sum }
    requires totals_long { (max_functions ≤ length flags.old) × (min_report ≤ length kept.old) }
    ensures { (firsts : List ℕ) → TotalEnds file.now.bytes file.now.t (places_of starts.now firsts) cells.old slots.old «open».now (totals_of flags.old kept.old) f.0 at tally.sum tally.visits here result cells.new slots.new (totals_of flags.new kept.new) }
{
    let less = weigh_total(file, cells, slots, f);
    if !flags[f.0 as usize] {
        keep_total(file, slots, f, at);
        keep_marks(flags, kept, open, starts, f);
        let now = weigh_total(file, cells, slots, f);
        let sum = tally.sum - less + now;
        return Ok(Tally { sum, ..tally });
    }
    if let Some(s) = first_ray(file, f) {
        return Err(Halt {
            refusal: Refusal::Panic,
            place: Place::Statement(f, s),
        });
    }
    join_total(file, cells, slots, f, at).ok_or(Halt {
        refusal: Refusal::PartLimit,
        place: here,
    })?;
    add_marks(kept, open, starts, f);
    let joined = weigh_total(file, cells, slots, f);
    let sum = tally.sum - less + joined;
    Ok(Tally { sum, ..tally })
}
