// Sets of bindings: a number, whose bit b says whether the binding b is in it.
ghost use Rattle.std.specs.Prelude.{◌≡◌, ◌≤◌, ◌<◌, ◌++◌, length, drop};
ghost use Rattle.module.specs.Operands.{bindings};
ghost use Rattle.access.specs.Access.{number_in};
ghost use Rattle.bindings.specs.Bindings.{contains, own_binding, list_of};
ghost use Rattle.bindings.specs.Rows.{BindingFits};

use module::operands::BINDINGS;

// The set of one binding, and of none where there is none.
pub fn own_binding(binding: Option<u32>) -> u64
    requires { BindingFits (number_in binding) }
    ensures { result ≡ own_binding (number_in binding) }
{
    match binding {
        None => 0,
        Some(b) => 1u64 << b,
    }
}

// Whether the binding is in the set.
pub fn contains(s: u64, b: u32) -> bool
    requires { b < bindings }
    ensures { result ≡ contains s b }
{
    (s >> b) % 2 == 1
}

// The bindings list: what is in the set, ascending. It gives their count.
pub fn list(s: u64, out: &mut [u8]) -> usize
    requires { bindings ≤ length out.old }
    ensures { (result ≡ length (list_of s)) × (out.new ≡ list_of s ++ drop (length (list_of s)) out.old) }
{
    let mut k: usize = 0;
    for b in 0..BINDINGS {
        if contains(s, b) {
            out[k] = b as u8;
            k += 1;
        }
    }
    k
}
