// Writers of a lent part of a buffer, each of the whole part.
ghost use Rattle.std.specs.Prelude.{◌≡◌, ◌+◌, ◌≤◌, length, replicate};
ghost use Rattle.walk.specs.Marks.{add_mark, add_marks};
ghost use Rattle.marks.specs.Places.{slice};

pub fn clear(part: &mut [u8])
    ensures { part.new ≡ replicate (length part.old) 0 }
{
    part.fill(0);
}

// The bytes of `marks` from `at` on.
pub fn copy(part: &mut [u8], marks: &[u8], at: usize)
    requires { at + length part.old ≤ length marks.now }
    ensures { part.new ≡ slice marks.now at (length part.old) }
{
    // Stays: by index. `copy_from_slice` moves the bytes by `memmove`, which the archive would need from outside.
    for (k, mark) in part.iter_mut().enumerate() {
        *mark = marks[at + k];
    }
}

fn add_mark(a: u8, b: u8) -> u8
    ensures { result ≡ add_mark a b }
{
    if a == 0 {
        return b;
    }
    1
}

// Joins the bytes of `marks` from `at` on, as `BlockReq::add` joins marks.
pub fn add(part: &mut [u8], marks: &[u8], at: usize)
    requires { at + length part.old ≤ length marks.now }
    ensures { part.new ≡ add_marks part.old (slice marks.now at (length part.old)) }
{
    for (k, mark) in part.iter_mut().enumerate() {
        *mark = add_mark(*mark, marks[at + k]);
    }
}
