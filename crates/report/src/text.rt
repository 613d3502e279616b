// The text of an outcome.
ghost use Rattle.std.specs.Prelude.{◌≡◌, ◌+◌, ◌≤◌, length};
ghost use Rattle.lines.specs.Reported.{max_text};
ghost use Rattle.lines.specs.Wrote.{Front, Begins};
ghost use Rattle.report_text.specs.Split.{request_in};
ghost use Rattle.report_text.specs.Input.{report_input};
ghost use Rattle.check_text.specs.Checked.{max_line};
ghost use Rattle.report.specs.Outcome.{TextIn};

use crate::outcome::{Outcome, behind};
use access::file::File;
use check_text::check::check_report;
use check_text::line::write_check;
use lines::report::{write_refused, write_report_text};
use lines::text::Text;
use memory::layout::STACK;
use memory::parts::Parts;

// The text of the outcome, from the first byte on. The check comes last: it works in the walk's memory.
fn write_outcome(
    text: &mut Text,
    input: &[u8],
    file: &File,
    firsts: &[u32],
    parts: &mut Parts,
    open: &[u8],
    outcome: Outcome,
)
    requires text_is { TextIn (report_input input.now) file.now.bytes file.now.t (request_in input.now) firsts.now parts.old.cells parts.old.slots «open».now outcome }
    requires max_line_in_bounds { (text.old.at ≡ 0) × (max_text + max_line ≤ length text.old.out.now) }
    ensures { Begins text.old text.new (report_input input.now) }
{
    match outcome {
        Err(refusal) => write_refused(text, u32::from(refusal)),
        Ok(reported) => {
            let k = STACK + 4;
            write_report_text(
                text,
                file,
                firsts,
                &parts.cells,
                &parts.slots,
                open,
                reported.function,
                k,
                reported.required,
            );
            let verdict = check_report(file, parts, open, k, behind(input));
            write_check(text, u64::from(verdict));
        }
    }
}

// What `report` prints for the input, from what its walk has left; the answer is how long it is.
pub fn write_text(
    out: &mut [u8],
    input: &[u8],
    file: &File,
    firsts: &[u32],
    parts: &mut Parts,
    open: &[u8],
    outcome: Outcome,
) -> usize
    requires text_is { TextIn (report_input input.now) file.now.bytes file.now.t (request_in input.now) firsts.now parts.old.cells parts.old.slots «open».now outcome }
    requires max_line_in_bounds { max_text + max_line ≤ length out.old }
    ensures { Front out.old out.new (report_input input.now) result }
{
    let mut text = Text { out, at: 0 };
    write_outcome(&mut text, input, file, firsts, parts, open, outcome);
    text.at
}
