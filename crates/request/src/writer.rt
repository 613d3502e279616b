// Fields written into a lent slice, one behind the other. What lies before and after stays.
ghost use Rattle.std.specs.Prelude.{[], ◌∷◌, ◌/◌, ◌%◌, ◌^◌, ◌<◌, ◌≤◌, length};
ghost use Rattle.request.specs.Written.{HasRoom, Writes, Heads};

use field::field::{write, write_word};

// The next field goes to the byte `at`.
#[derive(Drop)]
pub struct Writer<'a> {
    pub out: &'a mut [u8],
    pub at: usize,
}

impl<'a> Writer<'a> {
    pub fn field(&mut self, value: u16)
        requires { HasRoom self.old (value ∷ []) }
        ensures { Writes self.old self.new (value ∷ []) }
    {
        write(self.out, self.at, value);
        self.at += 2;
    }

    // Two fields, the low one first.
    pub fn word(&mut self, value: u32)
        requires { HasRoom self.old (value % 65536 ∷ (value / 65536 ∷ [])) }
        ensures { Writes self.old self.new (value % 65536 ∷ (value / 65536 ∷ [])) }
    {
        write_word(self.out, self.at, value);
        self.at += 4;
    }

    // The header of a record whose body begins at byte 6 and is written: two letters, and the body's length.
    pub fn head(&mut self, first: u8, second: u8)
        requires { (6 ≤ self.old.at) × (self.old.at ≤ length self.old.out.now) × (self.old.at < 2 ^ 32) }
        ensures { Heads self.old self.new first second }
    {
        self.out[0] = first;
        self.out[1] = second;
        write_word(self.out, 2, (self.at - 6) as u32);
    }
}
