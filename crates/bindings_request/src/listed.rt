// A list of bindings as the set of them: each is below the one after it, and the last below 64.
ghost use Rattle.bindings_request.specs.Listed.{SetIs};

use bindings::set::own_binding;
use module::operands::BINDINGS;

// None, where the list does not ascend or has a binding above 63.
pub fn set_of(list: &[u8]) -> Option<u64>
    ensures { SetIs list.now result }
{
    let mut s: u64 = 0;
    let mut after = BINDINGS;
    for x in list.iter().rev() {
        let b = u32::from(*x);
        if after <= b {
            return None;
        }
        let own = own_binding(Some(b));
        s = own | s;
        after = b;
    }
    Some(s)
}
