// An answer as one number.
ghost use Rattle.std.specs.Prelude.{◌≡◌, ◌*◌};
ghost use Rattle.boundary.specs.Answers.{numbered, word_of};

use bindings_request::answer::Refused;
use field::refusal::REFUSAL_UNIT;

// A refusal by its number.
pub fn refused_word(n: u32) -> u64
    ensures { result ≡ 4294967296 * n }
{
    REFUSAL_UNIT * (n as u64)
}

// A refusal by any number, and the argument that it is about, where it tells one.
#[derive(Clone, Copy)]
pub struct Numbered {
    pub number: u32,
    pub argument: Option<u32>,
}

impl From<Refused> for Numbered {
    ghost from_gives = { λ e n. n ≡ numbered e };

    fn from(e: Refused) -> Numbered {
        Numbered {
            number: u32::from(e.by),
            argument: e.argument,
        }
    }
}

#[tactic(auto, unfolding(crate::specs::Answers::word_of))]
pub fn word_of(a: Result<usize, Numbered>) -> u64
    ensures { result ≡ word_of a }
{
    match a {
        Ok(n) => n as u64,
        Err(e) => refused_word(e.number) + (e.argument.unwrap_or(0) as u64),
    }
}
