// The lines of a context.
ghost use Rattle.std.specs.Prelude.{◌≡◌, ◌-◌, ◌<◌};
ghost use Rattle.part.specs.PartReq.{spine};
ghost use Rattle.part.specs.Store.{Good, top, part};
ghost use Rattle.lines.specs.Text.{line_text, variables_text, retval_text, context_text};
ghost use Rattle.context.specs.Contexts.{context_of};
ghost use Rattle.lines.specs.Wrote.{Fits, Writes};

use crate::parts::write_part;
use crate::text::Text;
use context::required_context::RequiredContext;
use part::limits::SPINE;
use part::list::Entries;
use part::store::{EMPTY_PIECE, look};

// A line of a number and its requirement p.
pub fn write_line(text: &mut Text, cells: &[u32], word: &[u8], n: u32, p: u32)
    requires good { Good cells.now }
    requires p_bound { (p < top cells.now) × Fits text.old.at (line_text word.now n (part cells.now p)) }
    ensures { Writes text.old text.new (line_text word.now n (part cells.now p)) }
{
    text.word(word);
    text.number(n);
    text.byte(b' ');
    write_part(text, cells, p);
    text.byte(b'\n');
}

// The number of the variable whose entry has this index.
fn variable_of(index: u32) -> u32
    ensures { result ≡ index - spine }
{
    index.saturating_sub(SPINE)
}

// A line for each variable of a context's map.
pub fn write_variables(text: &mut Text, cells: &[u32], word: &[u8], map: u32)
    requires good { Good cells.now }
    requires map_bound { (map < top cells.now) × Fits text.old.at (variables_text word.now (part cells.now map)) }
    ensures { Writes text.old text.new (variables_text word.now (part cells.now map)) }
{
    for x in Entries::new(cells, map) {
        let k = variable_of(x.index);
        write_line(text, cells, word, k, x.child);
    }
}

// The line of the returned value, where it is asked for.
pub fn write_retval(text: &mut Text, cells: &[u32], map: u32)
    requires good { Good cells.now }
    requires map_bound { (map < top cells.now) × Fits text.old.at (retval_text (part cells.now map)) }
    ensures { Writes text.old text.new (retval_text (part cells.now map)) }
{
    if map <= EMPTY_PIECE {
        return;
    }
    let x = look(cells, map);
    text.word(b"retval ");
    write_part(text, cells, x.child);
    text.byte(b'\n');
}

// The lines of a context: globals, the returned value, arguments, locals.
pub fn write_context(text: &mut Text, cells: &[u32], c: RequiredContext)
    requires good { Good cells.now }
    requires globals_bound { (c.globals < top cells.now) × (c.locals < top cells.now) × (c.args < top cells.now) × (c.retval < top cells.now) × Fits text.old.at (context_text (context_of cells.now c)) }
    ensures { Writes text.old text.new (context_text (context_of cells.now c)) }
{
    write_variables(text, cells, b"global ", c.globals);
    write_retval(text, cells, c.retval);
    write_variables(text, cells, b"arg ", c.args);
    write_variables(text, cells, b"local ", c.locals);
}
