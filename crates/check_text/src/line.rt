// The last line of what `report` prints, from the number of the check.
ghost use Rattle.std.specs.Prelude.{◌++◌, ◌+◌, ◌<◌};
ghost use Rattle.lines.specs.Text.{number};
ghost use Rattle.lines.specs.Wrote.{longest, Fits, Writes};
ghost use Rattle.checking.specs.Word.{word_answer};
ghost use Rattle.checking.specs.Line.{answer_text, check_line};
ghost use Rattle.check_text.specs.Checked.{max_line, Numbered};

use checking::words::{STATEMENT, UNJUDGED_EXPRESSION, UNJUDGED_STATEMENT};
use field::refusal::REFUSAL_UNIT;
use lines::text::Text;

// The most bytes of the line.
pub const MAX_LINE: usize = 31;

fn write_named(text: &mut Text, name: &[u8], n: u32)
    requires { Fits text.old.at (name.now ++ number n) }
    ensures { Writes text.old text.new (name.now ++ number n) }
{
    text.word(name);
    text.number(n);
}

// What stands behind `check`.
// Stays: by the number's range, not by a `Verdict`: a number of any refusal with room has its line, also one that no `Refusal` has.
fn write_answer(text: &mut Text, word: u64)
    requires { Numbered word × Fits text.old.at (answer_text (word_answer word)) }
    ensures { Writes text.old text.new (answer_text (word_answer word)) }
{
    if word < 1 {
        return text.word(b"clear");
    }
    if word < 2 {
        return text.word(b"start");
    }
    if word < UNJUDGED_EXPRESSION {
        return write_named(text, b"stmt ", (word - STATEMENT) as u32);
    }
    if word < UNJUDGED_STATEMENT {
        return write_named(text, b"unjudged expr ", (word - UNJUDGED_EXPRESSION) as u32);
    }
    if word < REFUSAL_UNIT {
        return write_named(text, b"unjudged stmt ", (word - UNJUDGED_STATEMENT) as u32);
    }
    write_named(text, b"refused ", (word / REFUSAL_UNIT) as u32);
}

pub fn write_check(text: &mut Text, word: u64)
    requires { Numbered word × (text.old.at + max_line < longest) }
    ensures { Writes text.old text.new (check_line (word_answer word)) }
{
    text.word(b"check ");
    write_answer(text, word);
    text.byte(b'\n');
}
