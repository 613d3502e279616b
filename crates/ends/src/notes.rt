// What is carried along at a point, and of a statement that breaks its rule.
ghost use Rattle.std.specs.Prelude.{◌<◌, ◌-◌};
ghost use Rattle.hold.specs.Hold.{in_slot, Live};
ghost use Rattle.standing.specs.Standing.{Noted, Blames};
ghost use Rattle.standing.specs.Passing.{going};

use field::limits::MAX_PIECES;
use part::store::measure;
use standing::passing::Passing;
use strays::lower::lower_at;

// At a point, with the needs at hand: whether they pass 15, and 16.
pub fn note(cells: &[u32], slots: &[u32], n: usize, p: Passing) -> Passing
    requires live { Live cells.now slots.now n }
    requires n_nonzero { 0 < n }
    ensures { Noted (in_slot cells.now slots.now (n - 1)) (going p) (going result) }
{
    let sizes = measure(cells, slots[n - 1]);
    let many = (MAX_PIECES as u32) < sizes.entries - sizes.width;
    Passing {
        deep: sizes.over || p.deep,
        wide: many || p.wide,
        ..p
    }
}

// The statement l breaks its rule.
pub fn blame(l: u32, p: Passing) -> Passing
    ensures { Blames l (going p) (going result) }
{
    Passing {
        fault: lower_at(l, p.fault),
        ..p
    }
}
