// The check of a module that was read, with tables of its own.
// Stays: 45 KB of arrays anew at each check. Its two callers (boundary_check, check_text) have none to lend, so that each would make this literal.
ghost use Rattle.std.specs.Prelude.{◌≡◌};
ghost use Rattle.module.specs.Tables.{module_of};
ghost use Rattle.request.specs.Request.{request_of};
ghost use Rattle.request.specs.Context.{context_of};
ghost use Rattle.checking.specs.Check.{meaning_by, answer_to};
ghost use Rattle.checking.specs.Word.{said};
ghost use Rattle.access.specs.Laid.{WasRead};

use crate::scratch::{PATH, Scratch};
use crate::verdict::check_read;
use access::file::File;
use checking::words::Verdict;
use context::remove::TYPE_WORDS;
use field::limits::{MAX_EXPRESSIONS, MAX_STATEMENTS, MAX_TYPES};
use memory::parts::Parts;

// Stays: `WasRead` in `requires`, here and in check_read and hear: see marks' place_marks. Written as a struct of the file with it, the three clauses went for a
// struct, two literals and a lemma for each, twelve lines more.
// A walk's memory, of whatever contents, is room for the check.
pub fn check_in(
    file: &File,
    parts: &mut Parts,
    request: &[u8],
    report: &[u8],
    context: &[u8],
) -> Verdict
    requires { WasRead file.now.bytes file.now.t }
    ensures { said result ≡ answer_to (meaning_by (module_of file.now.bytes file.now.t) report.now (request_of request.now) (context_of context.now)) }
{
    let mut scratch = Scratch {
        rows: [0; TYPE_WORDS * MAX_TYPES],
        alike: [0; MAX_TYPES],
        held: [false; MAX_TYPES],
        paths: [false; MAX_EXPRESSIONS],
        firsts: [0; MAX_STATEMENTS],
        path: [0; PATH],
    };
    check_read(
        file,
        &mut scratch.rows,
        &mut scratch.alike,
        &mut scratch.held,
        &mut scratch.paths,
        &mut scratch.firsts,
        &mut parts.cells,
        &mut parts.slots,
        &mut scratch.path,
        request,
        report,
        context,
    )
}
