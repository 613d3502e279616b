// What a pass reads and never writes.
use judge::subject::Subject;

// A function, the marks that it is judged by, and where those of each statement begin.
#[derive(Clone, Copy, Drop)]
pub struct MarkedSubject<'a> {
    pub subject: &'a Subject<'a>,
    pub marks: &'a [u8],
    pub firsts: &'a [u32],
}
