// A place is taken out of the needs at hand. What they ask of it is kept in a slot: the store may be collected.
ghost use Rattle.std.specs.Prelude.{◌≡◌};
ghost use Rattle.module.specs.Tables.{module_of};
ghost use Rattle.valid.specs.There.{There};
ghost use Rattle.context.specs.Types.{types_of};
ghost use Rattle.judge.specs.Given.{scope_at};
ghost use Rattle.acts.specs.Acts.{TakeGiven, TakenOut};
ghost use Rattle.hold.specs.Fits.{fits};

use access::file::File;
use forms::place::take_place;
use forms::types::Types;
use hold::hold::push;
use module::handles::FunctionHandle;

// The slot n has the piece a, and the next one the needs at hand without the place. None where the needs pass the bound.
// Stays: file, f and types side by side. A `Subject` asks for tables that nothing here reads.
pub fn take_out(
    file: &File,
    f: FunctionHandle,
    types: &Types,
    cells: &mut [u32],
    slots: &mut [u32],
    n: usize,
    place: &[u32],
    a: u32,
) -> Option<()>
    requires there { There file.now.bytes file.now.t f.0 }
    requires same { (module_of file.now.bytes file.now.t).types ≡ types_of types.now.rows.now }
    requires take_given { TakeGiven file.now.bytes file.now.t f.0 cells.old slots.old n place.now a }
    ensures { TakenOut (scope_at file.now.bytes file.now.t f.0) place.now cells.old slots.old n cells.new slots.new (fits result) }
{
    let hand = slots[n - 1];
    slots[n] = a;
    let left = take_place(cells, file, f, types, hand, place);
    push(cells, slots, n + 1, left)
}
