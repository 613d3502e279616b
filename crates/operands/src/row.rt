// A row whose operands are asked, in a function of a file. It may be any row: nothing is said of where it stands.
use access::file::File;
use access::kinded::Kinded;
use module::handles::FunctionHandle;

#[derive(Clone, Copy, Drop)]
pub struct Operands<'a> {
    pub file: &'a File<'a>,
    pub f: FunctionHandle,
    pub row: Kinded,
}
