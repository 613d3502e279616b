// Expressions that are paths, by a table.
ghost use Rattle.std.specs.Prelude.{◌≡◌, ◌<◌, length};
ghost use Rattle.module.specs.File.{accepted, read_module};
ghost use Rattle.module.specs.Tables.{function_of, module_of};
ghost use Rattle.access.specs.Access.{typed_at};
ghost use Rattle.judge.specs.Marked.{marked};
ghost use Rattle.judge.specs.Paths.{path_by, PathTable};

use crate::tables::is_marked;
use access::file::File;
use module::handles::{ExpressionHandle, FunctionHandle};
use module::kinds::ExpressionKind;

// The expression e's entry: a variable is a path, and of an index it is its base's.
fn path_entry(file: &File, f: FunctionHandle, table: &[bool], e: ExpressionHandle) -> bool
    ensures { result ≡ path_by (marked table.now) (typed_at file.now.bytes file.now.t f.0 e.0).expression }
{
    let row = file.expression(f, e);
    match ExpressionKind::try_from(row.kind) {
        Ok(ExpressionKind::GlobalVariable | ExpressionKind::LocalVariable) => true,
        Ok(ExpressionKind::AccessIndex | ExpressionKind::Access) => {
            let base = file.expression_operand(row, 0);
            is_marked(table, base.0)
        }
        _ => false,
    }
}

// The table: lowest first, since an expression's operands are lower.
// Stays: by number. `path_entry` reads the entries below e, and `table.iter_mut()` would hold the table lent for writing to the last entry.
pub fn fill_paths(file: &File, f: FunctionHandle, table: &mut [bool])
    requires bytes_value { read_module file.now.bytes ≡ accepted (module_of file.now.bytes file.now.t) }
    requires f_in_bounds { f.0 < length (module_of file.now.bytes file.now.t).functions }
    requires table_len { length table.old ≡ length (function_of file.now.bytes file.now.t f.0).expressions }
    ensures { PathTable (function_of file.now.bytes file.now.t f.0).expressions table.new }
{
    for e in 0..table.len() {
        let r = path_entry(file, f, table, ExpressionHandle(e as u32));
        table[e] = r;
    }
}
