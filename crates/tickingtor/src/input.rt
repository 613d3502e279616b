// `input_to_bindings` on a module file and a context.
ghost use Rattle.std.specs.Prelude.{length};
ghost use Rattle.boundary.specs.Answers.{Answers, input_answer};

use access::whole::Bound;
use boundary::answer::{Numbered, word_of};
use boundary::input::input_in;
use boundary::room::FileRoom;
use context::remove::TYPE_WORDS;
use field::limits::{MAX_ARGUMENTS, MAX_TYPES};
use module::handles::{FunctionHandle, TypeHandle};
use module::tables::WORDS;
use reading::read::{HELD, SEEN};

// The bindings list of a context of the function f.
// Stays: the function comes in as a number, as C has it. It is one of the module's only once the module is read, which is tested there.
#[unsafe(no_mangle)]
pub extern "C" fn tickingtor_input_to_bindings(
    bytes: &[u8],
    f: u32,
    context: &[u8],
    out: &mut [u8],
) -> u64
    ensures { Answers out.old out.new (input_answer bytes.now (length out.old) f context.now) result }
{
    let mut t: [u32; WORDS] = [0; WORDS];
    let mut seen: [u32; SEEN] = [0; SEEN];
    let mut held: [u32; HELD] = [0; HELD];
    let mut rows: [u32; TYPE_WORDS * MAX_TYPES] = [0; TYPE_WORDS * MAX_TYPES];
    let mut sets: [u64; MAX_TYPES] = [0; MAX_TYPES];
    let unread = Bound {
        ty: TypeHandle(0),
        binding: None,
    };
    let mut args: [Bound; MAX_ARGUMENTS] = [unread; MAX_ARGUMENTS];
    let function = FunctionHandle(f);
    let room = FileRoom {
        t: &mut t,
        rows: &mut rows,
        seen: &mut seen,
        held: &mut held,
    };
    let told = input_in(bytes, room, &mut sets, &mut args, function, context, out);
    word_of(told.map_err(Numbered::from))
}
