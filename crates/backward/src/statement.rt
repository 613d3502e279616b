// A statement that a pass comes to.
ghost use Rattle.backward.specs.Course.{RowInOf};

use crate::marked::MarkedSubject;
use access::kinded::Kinded;
use module::handles::BlockHandle;

// The statement s of the block b, with its row.
#[derive(Clone, Copy, Drop)]
pub struct MarkedStatement<'a> {
    pub marked: &'a MarkedSubject<'a>,
    pub b: BlockHandle,
    pub s: u32,
    pub row: Kinded,
    pub ghost row_in: { RowInOf marked.now.subject.now b.0 s row },
}
