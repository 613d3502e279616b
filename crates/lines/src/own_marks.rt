// A statement's own marks, as its line has them.
ghost use Rattle.lines.specs.Text.{mark_text, marks_text};
ghost use Rattle.lines.specs.Wrote.{Fits, Writes};

use crate::text::Text;

pub fn write_mark(text: &mut Text, b: u8)
    requires { Fits text.old.at (mark_text b) }
    ensures { Writes text.old text.new (mark_text b) }
{
    if b == 0 {
        return text.word(b" no");
    }
    text.word(b" yes");
}

pub fn write_own_marks(text: &mut Text, marks: &[u8])
    requires { Fits text.old.at (marks_text marks.now) }
    ensures { Writes text.old text.new (marks_text marks.now) }
{
    for b in marks {
        write_mark(text, *b);
    }
}
