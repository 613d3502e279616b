// The end of a function, where the next one begins or the file ends.
ghost use Rattle.std.specs.Prelude.{◌≡◌, ◌≤◌, length};
ghost use Rattle.reading.specs.Ends.{step_ended, table_ended, step_at, table_at};

use crate::blocks::block_rule;
use field::refusal::Refusal;
use module::handles::FunctionHandle;
use module::record::{Mark, Record};
use module::tables::{Counts, IN_ARGUMENTS, set_row};

// The one place for what is checked there.
pub fn ended(bytes: &[u8], t: &mut [u32], held: &mut [u32], c: Counts) -> Result<Counts, Refusal>
    requires blocks_in_bounds { c.row.blocks ≤ length held.old }
    requires functions_bound { c.functions ≤ 4294967294 }
    ensures value { result ≡ step_ended bytes.now t.old c }
    ensures t_after { t.new ≡ table_ended bytes.now t.old c }
{
    if c.stage < IN_ARGUMENTS {
        return Ok(c);
    }
    if block_rule(bytes, t, c.row, held) {
        set_row(t, FunctionHandle(c.functions), c.row);
        return Ok(Counts {
            functions: c.functions + 1,
            ..c
        });
    }
    Err(Refusal::ValueNotAllowed)
}

// A function ends where the next one begins.
#[tactic(auto, unfolding(crate::specs::Ends::step_at, crate::specs::Ends::table_at))]
pub fn ended_at(rec: &Record, t: &mut [u32], held: &mut [u32], c: Counts) -> Result<Counts, Refusal>
    requires blocks_in_bounds { c.row.blocks ≤ length held.old }
    requires functions_bound { c.functions ≤ 4294967294 }
    ensures value { result ≡ step_at rec.now.bytes.now t.old rec.now.mark c }
    ensures t_after { t.new ≡ table_at rec.now.bytes.now t.old rec.now.mark c }
{
    match rec.mark {
        Mark::FN => ended(rec.bytes, t, held, c),
        _ => Ok(c),
    }
}
