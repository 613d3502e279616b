// A pointer's variable and the constant indexes from it, as a path with the outermost index first.
ghost use Rattle.std.specs.Prelude.{◌≡◌, ◌+◌, ◌-◌, ◌≤◌, length, set};
ghost use Rattle.clearance.specs.Scope.{variable};
ghost use Rattle.place.specs.Steps.{scope_in, function_from};
ghost use Rattle.place.specs.Target.{TargetFound};

use crate::pointer::PointerExpression;
use crate::steps::Step;
use judge::frame::{GLOBALS, LOCALS};
use part::limits::SPINE;

// What counts of a lent path, path[from..to], and whether an index on the way is dynamic.
// Stays: two ends. A `Range` is no `Copy`, so that each use would clone it; a slice would hold the lent path, whose length its lender goes on with.
#[derive(Clone, Copy)]
pub struct Target {
    pub from: usize,
    pub to: usize,
    pub dynamic: bool,
}

// The two words of the variable v of a map, in front of what counts.
fn put_variable(path: &mut [u32], passed: Target, map: u32, v: u16) -> Target
    requires { (2 ≤ passed.from) × (passed.from ≤ length path.old) }
    ensures path { path.new ≡ set (set path.old (passed.from - 2 + 1) (variable v)) (passed.from - 2) map }
    ensures target { result ≡ record { from = passed.from - 2; to = passed.to; dynamic = passed.dynamic } }
{
    let from = passed.from - 2;
    let number = from + 1;
    path[number] = SPINE + (v as u32);
    path[from] = map;
    Target { from, ..passed }
}

impl<'a> PointerExpression<'a> {
    // The part of its variable that the pointer names for sure: its indexes are passed down to the variable, each one word lower.
    // Stays: a loop by hand. Of an iterator over the steps the last one is wanted too, the variable, by which this loop ends.
    pub fn find_target(&self, path: &mut [u32]) -> Target
        requires { length (function_from self.now).expressions + 2 ≤ length path.old }
        ensures { TargetFound (scope_in self.now) self.now.e.0 path.old path.new result }
    {
        let mut from = path.len();
        let mut to = path.len();
        let mut dynamic = false;
        let mut h = *self;
        loop {
            match h.step_down() {
                Step::Global(v) => {
                    let passed = Target { from, to, dynamic };
                    return put_variable(path, passed, SPINE + GLOBALS, v);
                }
                Step::Local(v) => {
                    let passed = Target { from, to, dynamic };
                    return put_variable(path, passed, SPINE + LOCALS, v);
                }
                Step::Constant(base, index) => {
                    from -= 1;
                    path[from] = index as u32;
                    h = base;
                }
                Step::Dynamic(base, _) => {
                    // nothing counts from a dynamic index on
                    to = from;
                    dynamic = true;
                    h = base;
                }
            }
        }
    }
}
