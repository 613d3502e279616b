// The entries of a piece's list, the first first, as a `for` takes them.
ghost use Rattle.std.specs.Prelude.{◌≡◌};

use crate::store::{Cell, EMPTY_PIECE, look};

// The entries from the piece `rest` on. After the last it is the piece that the list ends at: all, exist, or the empty part.
#[derive(Drop)]
pub struct Entries<'a> {
    cells: &'a [u32],
    pub rest: u32,
}

impl<'a> Entries<'a> {
    #[inline]
    pub fn new(cells: &'a [u32], n: u32) -> Entries<'a>
        ensures cells { result.cells.now ≡ cells.now }
        ensures rest { result.rest ≡ n }
    {
        Entries { cells, rest: n }
    }
}

impl<'a> Iterator for Entries<'a> {
    ghost use Rattle.std.specs.Iterator.{at_most};
    ghost use Rattle.part.specs.Listed.{Inside, GivesEntry};

    type Item = Cell;

    ghost can_next = { Inside };

    ghost next_gives = { GivesEntry };

    ghost remaining = { λ s. at_most s.rest };

    #[inline]
    fn next(&mut self) -> Option<Cell> {
        if self.rest <= EMPTY_PIECE {
            return None;
        }
        let x = look(self.cells, self.rest);
        self.rest = x.rest;
        Some(x)
    }
}
