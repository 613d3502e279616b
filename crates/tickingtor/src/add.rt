// `add_binding` on a module file and a request.
ghost use Rattle.std.specs.Prelude.{length};
ghost use Rattle.boundary.specs.Answers.{Answers, add_answer};

use boundary::add::{ADD_WORDS, add_in};
use boundary::answer::{Numbered, word_of};
use boundary::room::FileRoom;
use context::remove::TYPE_WORDS;
use field::limits::MAX_TYPES;
use module::tables::WORDS;
use reading::read::{HELD, SEEN};

// The request with one binding more.
#[unsafe(no_mangle)]
pub extern "C" fn tickingtor_add_binding(
    bytes: &[u8],
    request: &[u8],
    b: u32,
    out: &mut [u8],
) -> u64
    ensures { Answers out.old out.new (add_answer bytes.now (length out.old) b request.now) result }
{
    let mut t: [u32; WORDS] = [0; WORDS];
    let mut seen: [u32; SEEN] = [0; SEEN];
    let mut held: [u32; HELD] = [0; HELD];
    let mut rows: [u32; TYPE_WORDS * MAX_TYPES] = [0; TYPE_WORDS * MAX_TYPES];
    let mut cells: [u32; ADD_WORDS] = [0; ADD_WORDS];
    let mut parts: [u32; MAX_TYPES] = [0; MAX_TYPES];
    let room = FileRoom {
        t: &mut t,
        rows: &mut rows,
        seen: &mut seen,
        held: &mut held,
    };
    let told = add_in(bytes, room, &mut cells, &mut parts, request, b, out);
    word_of(told.map_err(Numbered::from))
}
