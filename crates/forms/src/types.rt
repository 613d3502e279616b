// The types of a module, by their rows.
ghost use Rattle.context.specs.Types.{types_of};
ghost use Rattle.judge.specs.Alike.{Lower};

// Each is made of lower ones.
#[derive(Clone, Copy, Drop)]
pub struct Types<'a> {
    pub rows: &'a [u32],
    pub ghost lower: { Lower (types_of rows.now) },
}
