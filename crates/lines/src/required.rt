// The first line.
ghost use Rattle.lines.specs.Text.{required_text};
ghost use Rattle.lines.specs.Wrote.{Fits, Writes};

use crate::text::Text;

pub fn write_required(text: &mut Text, required: bool)
    requires { Fits text.old.at (required_text required) }
    ensures { Writes text.old text.new (required_text required) }
{
    if required {
        return text.word(b"required yes\n");
    }
    text.word(b"required no\n");
}
