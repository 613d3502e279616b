// The way out of a block.
ghost use Rattle.std.specs.Prelude.{◌≡◌, ◌+◌, ◌≤◌, length, get_or, Ok};
ghost use Rattle.memory.specs.Stretches.{four_set};

use memory::stretches::copy_context;
use state::answer::{Answer, Answered, Tally};
use state::frame::Frame;

// The base of the block is its context then, and what leaves it is required where what stands behind is.
pub fn leave(slots: &mut [u32], fr: Frame, tally: Tally) -> Answered
    requires { (fr.base + 4 ≤ length slots.old) × (fr.at + 4 ≤ length slots.old) }
    ensures { (result ≡ Ok (record { tally = tally; required = fr.break_required })) × (slots.new ≡ four_set slots.old fr.at (get_or slots.old fr.base 0) (get_or slots.old (fr.base + 1) 0) (get_or slots.old (fr.base + 2) 0) (get_or slots.old (fr.base + 3) 0)) }
{
    copy_context(slots, fr.base, fr.at);
    Ok(Answer {
        tally,
        required: fr.break_required,
    })
}
