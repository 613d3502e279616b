// From the bytes of a module, a request, a report and a context to the check's answer. Nothing of theirs is written.
ghost use Rattle.std.specs.Prelude.{◌≡◌, ◌≤◌, length};
ghost use Rattle.field.specs.Refusal.{number_of};
ghost use Rattle.module.specs.Tables.{words};
ghost use Rattle.reading.specs.Reads.{Reads};
ghost use Rattle.checking.specs.Check.{check};
ghost use Rattle.checking.specs.Word.{said};

use access::file::File;
use checking::words::Verdict;
use field::refusal::Refusal;
use memory::parts::Parts;
use module::tables::WORDS;
use reading::read::{HELD, SEEN, read};
use verdict::check::check_in;

// Reads the module. The memory of a walk or a check, which begins behind it, is the room.
pub fn read_file(bytes: &[u8], t: &mut [u32], parts: &mut Parts) -> Result<(), Refusal>
    requires { words ≤ length t.old }
    ensures { Reads bytes.now t.new (number_of result) }
{
    let cells = &mut parts.cells[..];
    let slots = &mut parts.slots[..];
    read(bytes, t, &mut cells[0..SEEN], &mut slots[0..HELD])
}

// Of any bytes: the answer is the definition's. Where it is clear, what is claimed of them holds (`checked_claims` of crate `checking`).
pub fn check_any(
    bytes: &[u8],
    t: &mut [u32; WORDS],
    parts: &mut Parts,
    request: &[u8],
    report: &[u8],
    context: &[u8],
) -> Verdict
    ensures { said result ≡ check bytes.now request.now report.now context.now }
{
    if let Err(refusal) = read_file(bytes, t, parts) {
        return Verdict::Refused(refusal);
    }
    check_in(&File::new(bytes, t), parts, request, report, context)
}
