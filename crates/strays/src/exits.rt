// Something for each exit of a stretch: whether it has a target, or the slot of its target's needs.
ghost use Rattle.std.specs.Prelude.{◌≡◌};
ghost use Rattle.clearance.specs.Needs.{only_next};
ghost use Rattle.clearance.specs.Judged.{at_top};
ghost use Rattle.strays.specs.Exits.{exits_of, case_to, body_to};

#[derive(Clone, Copy)]
pub struct Exits<T> {
    pub broke: T,
    pub continued: T,
    pub returned: T,
}

impl<T: Copy> Exits<T> {
    // In a switch's case, and in a loop's continuing block, a break leads to `after`.
    pub fn in_case(self, after: T) -> Exits<T>
        ensures { result ≡ case_to after self }
    {
        Exits {
            broke: after,
            ..self
        }
    }

    // In a loop's body a continue leads to `again` too.
    pub fn in_body(self, after: T, again: T) -> Exits<T>
        ensures { result ≡ body_to after again self }
    {
        Exits {
            continued: again,
            ..self.in_case(after)
        }
    }
}

pub fn at_top() -> Exits<bool>
    ensures { exits_of result ≡ at_top }
{
    Exits {
        broke: false,
        continued: false,
        returned: true,
    }
}

// Nothing leaves a continuing block.
pub fn none() -> Exits<bool>
    ensures { exits_of result ≡ only_next }
{
    Exits {
        broke: false,
        continued: false,
        returned: false,
    }
}
