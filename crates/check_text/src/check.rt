// The check of the report that a walk has left in memory. That memory is then room for the check.
ghost use Rattle.check_text.specs.Checked.{Judging, Checks};

use crate::record::{MAX_RECORD, write_record};
use access::file::File;
use checking::words::Verdict;
use memory::parts::Parts;
use verdict::check::check_in;

// The check of the request's report, whose context stands in the four slots from k on.
pub fn check_report(
    file: &File,
    parts: &mut Parts,
    open: &[u8],
    k: usize,
    request: &[u8],
) -> Verdict
    requires { Judging file.now.bytes file.now.t parts.old.cells parts.old.slots «open».now k request.now }
    ensures { Checks file.now.bytes file.now.t parts.old.cells parts.old.slots «open».now k request.now result }
{
    let mut context: [u8; MAX_RECORD] = [0; MAX_RECORD];
    let n = write_record(&parts.cells, &parts.slots, k, &mut context);
    check_in(file, parts, request, open, &context[0..n])
}
