// The lower of two.
ghost use Rattle.std.specs.Prelude.{◌≡◌};
ghost use Rattle.clearance.specs.Judged.{unless, lower, lowest};
ghost use Rattle.judge.specs.Blamed.{blamed};
ghost use Rattle.strays.specs.Lower.{lower_of};

// What `low` comes to by n.
pub fn lower_at(n: u32, low: Option<u32>) -> Option<u32>
    ensures { blamed result ≡ lower n (blamed low) }
{
    match low {
        None => Some(n),
        Some(m) => Some(m.min(n)),
    }
}

pub fn lower_of(a: Option<u32>, b: Option<u32>) -> Option<u32>
    ensures { blamed result ≡ lower_of (blamed a) (blamed b) }
{
    match a {
        None => b,
        Some(n) => lower_at(n, b),
    }
}

// What `low` comes to by the statement n, which leaves, where that is allowed or not.
pub fn lower_unless(allowed: bool, n: u32, low: Option<u32>) -> Option<u32>
    ensures { blamed result ≡ lower_of (lowest (unless allowed n)) (blamed low) }
{
    if allowed {
        return low;
    }
    lower_at(n, low)
}
