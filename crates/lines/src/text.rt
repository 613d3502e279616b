// Bytes, words and numbers, written one behind the other.
// Stays: a word and a number are written byte by byte, since a buffer that is too short takes what fits, and the position goes on: `copy_from_slice` would
// need both cut first, and a `Display` refuses such a buffer.
ghost use Rattle.std.specs.Prelude.{◌≡◌, [], ◌∷◌, ◌+◌, ◌<◌};
ghost use Rattle.lines.specs.Text.{number};
ghost use Rattle.lines.specs.Wrote.{Fits, Writes};

// A text in a lent buffer, and where it ends: behind the buffer's end too.
#[derive(Drop)]
pub struct Text<'a> {
    pub out: &'a mut [u8],
    pub at: usize,
}

fn digit(n: u32) -> u8
    requires { n < 10 }
    ensures { result ≡ 48 + n }
{
    48 + n as u8
}

impl<'a> Text<'a> {
    pub fn byte(&mut self, b: u8)
        requires { Fits self.old.at (b ∷ []) }
        ensures { Writes self.old self.new (b ∷ []) }
    {
        if self.at < self.out.len() {
            self.out[self.at] = b;
        }
        self.at += 1;
    }

    pub fn word(&mut self, word: &[u8])
        requires { Fits self.old.at word.now }
        ensures { Writes self.old self.new word.now }
    {
        for b in word {
            self.byte(*b);
        }
    }

    // In decimal.
    pub fn number(&mut self, n: u32)
        requires { Fits self.old.at (number n) }
        ensures { Writes self.old self.new (number n) }
    {
        if n < 10 {
            return self.byte(digit(n));
        }
        self.number(n / 10);
        self.byte(digit(n % 10));
    }
}
