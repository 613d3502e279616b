// Requirements, contexts and requests written from the store.
ghost use Rattle.std.specs.Prelude.{◌≡◌, ◌≤◌, ◌<◌, ◌^◌, length};
ghost use Rattle.std.proofs.lemmas.List.Edits.{sets};
ghost use Rattle.part.specs.Store.{top, part, Good};
ghost use Rattle.context.specs.Contexts.{context_of, HasContext};
ghost use Rattle.request.specs.Fields.{as_field};
ghost use Rattle.request.specs.Part.{write_part, write_entries, write_return, write_variables};
ghost use Rattle.request.specs.Context.{write_context_body, write_context};
ghost use Rattle.request.specs.Request.{write_request};
ghost use Rattle.request.specs.Written.{HasRoom, Writes};

use crate::codes::{ENTRIES_CODE, NO_RETURN};
use crate::writer::Writer;
use context::required_context::RequiredContext;
use field::field::write;
use module::handles::FunctionHandle;
use part::list::Entries;
use part::store::{EMPTY_PIECE, EXIST_PIECE, look, width};

// The lowest 16 bits.
fn field_of(x: u32) -> u16
    ensures { result ≡ as_field x }
{
    (x % 65536) as u16
}

// Code, count and entries of the piece n.
#[cycle(write_entries_write_part)]
pub fn write_part(cells: &[u32], n: u32, writer: &mut Writer)
    requires good { Good cells.now }
    requires n_bound { n < top cells.now }
    requires fits { HasRoom writer.old (write_part (part cells.now n)) }
    ensures { Writes writer.old writer.new (write_part (part cells.now n)) }
{
    // all and exist have their number for a code
    if n <= EXIST_PIECE {
        return writer.field(n as u16);
    }
    writer.field(ENTRIES_CODE);
    writer.field(field_of(width(cells, n)));
    write_entries(cells, n, writer);
}

// The entries of the piece n.
#[cycle(write_entries_write_part)]
fn write_entries(cells: &[u32], n: u32, writer: &mut Writer)
    requires good { Good cells.now }
    requires n_bound { n < top cells.now }
    requires fits { HasRoom writer.old (write_entries (part cells.now n)) }
    ensures { Writes writer.old writer.new (write_entries (part cells.now n)) }
{
    for x in Entries::new(cells, n) {
        writer.field(field_of(x.index));
        write_part(cells, x.child, writer);
    }
}

pub fn write_return(cells: &[u32], n: u32, writer: &mut Writer)
    requires good { Good cells.now }
    requires n_bound { n < top cells.now }
    requires fits { HasRoom writer.old (write_return (part cells.now n)) }
    ensures { Writes writer.old writer.new (write_return (part cells.now n)) }
{
    if n <= EMPTY_PIECE {
        return writer.field(NO_RETURN);
    }
    let x = look(cells, n);
    write_part(cells, x.child, writer);
}

pub fn write_variables(cells: &[u32], n: u32, writer: &mut Writer)
    requires good { Good cells.now }
    requires n_bound { n < top cells.now }
    requires fits { HasRoom writer.old (write_variables (part cells.now n)) }
    ensures { Writes writer.old writer.new (write_variables (part cells.now n)) }
{
    writer.field(field_of(width(cells, n)));
    write_entries(cells, n, writer);
}

// The lists of a context, in the order of its record.
pub fn write_context_body(cells: &[u32], c: RequiredContext, writer: &mut Writer)
    requires good { Good cells.now }
    requires has_context { HasContext cells.now c }
    requires fits { HasRoom writer.old (write_context_body (context_of cells.now c)) }
    ensures { Writes writer.old writer.new (write_context_body (context_of cells.now c)) }
{
    write_return(cells, c.retval, writer);
    write_variables(cells, c.globals, writer);
    write_variables(cells, c.args, writer);
    write_variables(cells, c.locals, writer);
}

// The context's record, from the first byte on. What is returned is its length.
pub fn write_context(cells: &[u32], c: RequiredContext, out: &mut [u8]) -> usize
    requires good { Good cells.now }
    requires has_context { HasContext cells.now c }
    requires c_in_bounds { (length (write_context (context_of cells.now c)) ≤ length out.old) × (length (write_context (context_of cells.now c)) < 2 ^ 32) }
    ensures { (out.new ≡ sets out.old 0 (write_context (context_of cells.now c))) × (result ≡ length (write_context (context_of cells.now c))) }
{
    let mut writer = Writer { out, at: 6 };
    write_context_body(cells, c, &mut writer);
    writer.head(b'C', b'X');
    writer.at
}

// The record of a request for this function, from the first byte on. What is returned is its length.
pub fn write_request(
    cells: &[u32],
    function: FunctionHandle,
    retval: u32,
    globals: u32,
    out: &mut [u8],
) -> usize
    requires good { Good cells.now }
    requires retval_bound { (retval < top cells.now) × (globals < top cells.now) }
    requires globals_in_bounds { (length (write_request function.0 (part cells.now retval) (part cells.now globals)) ≤ length out.old) × (length (write_request function.0 (part cells.now retval) (part cells.now globals)) < 2 ^ 16) }
    ensures { (out.new ≡ sets out.old 0 (write_request function.0 (part cells.now retval) (part cells.now globals))) × (result ≡ length (write_request function.0 (part cells.now retval) (part cells.now globals))) }
{
    let mut writer = Writer { out, at: 6 };
    write_return(cells, retval, &mut writer);
    write_variables(cells, globals, &mut writer);
    let end = writer.at;
    writer.out[0] = b'R';
    writer.out[1] = b'Q';
    write(writer.out, 2, (end - 4) as u16);
    write(writer.out, 4, field_of(function.0));
    end
}
