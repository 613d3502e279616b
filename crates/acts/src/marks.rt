// Whether a mark is set.
ghost use Rattle.std.specs.Prelude.{◌≡◌};
ghost use Rattle.clearance.specs.Tree.{mark_at};

// The mark i; one that is not there is not set.
pub fn mark_at(marks: &[u8], i: usize) -> bool
    ensures { result ≡ mark_at marks.now i }
{
    marks.get(i).copied().unwrap_or(0) == 1
}
