// A request on a module file. What it leaves goes into three lent slices: the pruner's totals, the marks of every function, and the answer.
ghost use Rattle.boundary.specs.Requests.{Requests};

use boundary::serve::request_any;
use module::tables::WORDS;

// The request's reply. Where it is refused, the three slices are as they were.
#[unsafe(no_mangle)]
pub extern "C" fn tickingtor_request(
    bytes: &[u8],
    request: &[u8],
    pruner: &mut [u8],
    report: &mut [u8],
    answer: &mut [u8],
) -> u64
    ensures { Requests bytes.now request.now pruner.old report.old answer.old result pruner.new report.new answer.new }
{
    let mut t: [u32; WORDS] = [0; WORDS];
    request_any(bytes, &mut t, request, pruner, report, answer)
}
