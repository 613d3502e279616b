// The check of a report that someone gives. Nothing is written.
ghost use Rattle.std.specs.Prelude.{◌≡◌};
ghost use Rattle.checking.specs.Check.{check};
ghost use Rattle.checking.specs.Word.{check_word};

use boundary_check::check::check_any;
use memory::parts::Parts;
use module::tables::WORDS;

// The number of the definition's answer, for all bytes. Where it is 0, what is claimed of them holds (`word_claims` of crate `checking`).
#[unsafe(no_mangle)]
pub extern "C" fn tickingtor_check(
    bytes: &[u8],
    request: &[u8],
    report: &[u8],
    context: &[u8],
) -> u64
    ensures { result ≡ check_word (check bytes.now request.now report.now context.now) }
{
    let mut t: [u32; WORDS] = [0; WORDS];
    let mut parts = Parts::new();
    u64::from(check_any(bytes, &mut t, &mut parts, request, report, context))
}
