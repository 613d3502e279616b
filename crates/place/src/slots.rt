// The paths of what an emit leaves and of an argument, each two words.
ghost use Rattle.std.specs.Prelude.{◌≤◌, length};
ghost use Rattle.clearance.specs.Scope.{slot, argument, evaluated};
ghost use Rattle.place.specs.Slots.{Written};

use judge::frame::{ARGUMENTS, EVALUATED, MAP_EXPRESSIONS};
use module::handles::ExpressionHandle;
use part::limits::SPINE;

pub fn evaluated_path(path: &mut [u32], e: ExpressionHandle)
    requires { 2 ≤ length path.old }
    ensures { Written (slot (evaluated e.0)) path.old path.new }
{
    path[0] = SPINE + (EVALUATED + e.0 / MAP_EXPRESSIONS);
    path[1] = SPINE + e.0 % MAP_EXPRESSIONS;
}

pub fn argument_path(path: &mut [u32], a: u16)
    requires { 2 ≤ length path.old }
    ensures { Written (slot (argument a)) path.old path.new }
{
    path[0] = SPINE + ARGUMENTS;
    path[1] = SPINE + (a as u32);
}
