// Requirements, as the store has them.
ghost use Rattle.std.specs.Prelude.{◌≡◌, cond, ◌<◌};
ghost use Rattle.part.specs.Store.{Good, top, part};
ghost use Rattle.lines.specs.Text.{text_from, part_text, whole_text, plain_text};
ghost use Rattle.lines.specs.Wrote.{Fits, Writes};

use crate::text::Text;
use part::store::{ALL_PIECE, EMPTY_PIECE, EXIST_PIECE, look};

fn opening(whole: bool) -> u8
    ensures { result ≡ cond whole 123 44 }
{
    if whole {
        return b'{';
    }
    b','
}

fn write_whole(text: &mut Text, n: u32)
    requires { Fits text.old.at (whole_text n) }
    ensures { Writes text.old text.new (whole_text n) }
{
    match n {
        ALL_PIECE => text.word(b"all"),
        EXIST_PIECE => text.word(b"exist"),
        _ => text.word(b"{}"),
    }
}

fn write_plain(text: &mut Text, n: u32, whole: bool)
    requires { Fits text.old.at (plain_text n whole) }
    ensures { Writes text.old text.new (plain_text n whole) }
{
    if whole {
        return write_whole(text, n);
    }
    text.byte(b'}');
}

// The requirement n as a whole, or as what stands behind an entry.
fn write_from(text: &mut Text, cells: &[u32], n: u32, whole: bool)
    requires good { Good cells.now }
    requires n_bound { (n < top cells.now) × Fits text.old.at (text_from (part cells.now n) whole) }
    ensures { Writes text.old text.new (text_from (part cells.now n) whole) }
{
    if n <= EMPTY_PIECE {
        return write_plain(text, n, whole);
    }
    let x = look(cells, n);
    text.byte(opening(whole));
    text.number(x.index);
    text.byte(b':');
    write_from(text, cells, x.child, true);
    write_from(text, cells, x.rest, false);
}

pub fn write_part(text: &mut Text, cells: &[u32], n: u32)
    requires good { Good cells.now }
    requires n_bound { (n < top cells.now) × Fits text.old.at (part_text (part cells.now n)) }
    ensures { Writes text.old text.new (part_text (part cells.now n)) }
{
    write_from(text, cells, n, true);
}
