// What stands in memory before the first round, and before another.
ghost use Rattle.std.specs.Prelude.{◌≡◌, ◌<◌, ◌≤◌, length};
ghost use Rattle.module.specs.Tables.{module_of};
ghost use Rattle.context.specs.Types.{types_of};
ghost use Rattle.judge.specs.Given.{scope_at};
ghost use Rattle.standing.specs.Slots.{asked_slot, stack_slot};
ghost use Rattle.rounds.specs.Settling.{asked_by};
ghost use Rattle.rounds.specs.Rounds.{Cleared, Asked, Begins, Renewed};

use crate::pieces::AskedPieces;
use access::file::File;
use forms::trim::{trim_globals, trim_value};
use forms::types::Types;
use hold::hold::copy;
use module::handles::FunctionHandle;
use part::store::EMPTY_PIECE;
use standing::passing::{ASKED, END, STACK, TABLE};

// Neither table has needs.
fn clear_tables(slots: &mut [u32])
    requires { asked_slot ≤ length slots.old }
    ensures { Cleared slots.old slots.new }
{
    slots[..ASKED].fill(EMPTY_PIECE);
}

// What is asked, within its types: of the value, and of the globals at the function's end.
pub fn begin(
    file: &File,
    f: FunctionHandle,
    types: &Types,
    cells: &mut [u32],
    slots: &mut [u32],
    asked: AskedPieces,
)
    requires same { (module_of file.now.bytes file.now.t).types ≡ types_of types.now.rows.now }
    requires pieces { Asked cells.old slots.old asked.globals asked.value }
    ensures { Begins (scope_at file.now.bytes file.now.t f.0) (asked_by cells.old asked.globals asked.value) cells.old slots.old cells.new slots.new }
{
    let v = trim_value(cells, file, f, types, asked.value);
    let e = trim_globals(cells, file, types, asked.globals);
    clear_tables(slots);
    slots[ASKED] = v;
    slots[END] = e;
    slots[STACK] = e;
}

// The new table is the old one too, and the needs at the function's end are at hand.
pub fn renew(slots: &mut [u32])
    requires { stack_slot < length slots.old }
    ensures { Renewed slots.old slots.new }
{
    slots.copy_within(TABLE..ASKED, 0);
    copy(slots, END, STACK);
}
