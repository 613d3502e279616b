// What is needed after a statement.
use judge::subject::Subject;

// A need of a function, as a piece of a store.
#[derive(Clone, Copy, Drop)]
pub struct Need<'a> {
    pub subject: &'a Subject<'a>,
    pub cells: &'a [u32],
    pub piece: u32,
}
