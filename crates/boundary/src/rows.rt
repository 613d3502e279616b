// A module file that is read, with a row for each of its types: what each operation on bindings begins with.
ghost use Rattle.boundary.specs.Rows.{Roomy, RowsRead};

use crate::room::FileRoom;
use access::file::File;
use context::remove::TYPE_WORDS;
use field::refusal::Refusal;
use reading::read::read;
use type_table::fill;

// The module and the rows of its types, or what refuses the file.
// Stays: no `TypedFile`, which has its file behind a reference: the file is made here. With `read` alone here, each of three callers would fill its rows.
pub fn read_rows<'a>(bytes: &'a [u8], room: FileRoom<'a>) -> Result<(File<'a>, &'a [u32]), Refusal>
    requires { Roomy room }
    ensures { RowsRead bytes.now result }
{
    let FileRoom {
        t,
        rows,
        seen,
        held,
    } = room;
    read(bytes, t, seen, held)?;
    let file = File::new(bytes, t);
    let e = TYPE_WORDS * (file.types() as usize);
    let rows = &mut rows[0..e];
    fill(&file, rows);
    Ok((file, rows))
}
