// Two slots exchanged.
ghost use Rattle.std.specs.Prelude.{◌≡◌, ◌<◌, length};
ghost use Rattle.standing.proofs.Arms.{exchanged};

// The last two of n + 1 slots.
pub fn exchange(slots: &mut [u32], n: usize)
    requires { (0 < n) × (n < length slots.old) }
    ensures { slots.new ≡ exchanged slots.old n }
{
    slots.swap(n, n - 1);
}
