// `output_from_bindings` on a module file and a list of bindings.
ghost use Rattle.std.specs.Prelude.{length};
ghost use Rattle.boundary.specs.Answers.{Answers, output_answer};

use boundary::answer::{Numbered, word_of};
use boundary::output::{OUTPUT_WORDS, output_in};
use boundary::room::FileRoom;
use context::remove::TYPE_WORDS;
use field::limits::MAX_TYPES;
use module::handles::FunctionHandle;
use module::tables::WORDS;
use reading::read::{HELD, SEEN};

// The request that asks for these bindings of the function f.
// Stays: the function comes in as a number, as C has it. It is one of the module's only once the module is read, which is tested there.
#[unsafe(no_mangle)]
pub extern "C" fn tickingtor_output_from_bindings(
    bytes: &[u8],
    f: u32,
    list: &[u8],
    out: &mut [u8],
) -> u64
    ensures { Answers out.old out.new (output_answer bytes.now (length out.old) f list.now) result }
{
    let mut t: [u32; WORDS] = [0; WORDS];
    let mut seen: [u32; SEEN] = [0; SEEN];
    let mut held: [u32; HELD] = [0; HELD];
    let mut rows: [u32; TYPE_WORDS * MAX_TYPES] = [0; TYPE_WORDS * MAX_TYPES];
    let mut cells: [u32; OUTPUT_WORDS] = [0; OUTPUT_WORDS];
    let mut parts: [u32; MAX_TYPES] = [0; MAX_TYPES];
    let function = FunctionHandle(f);
    let room = FileRoom {
        t: &mut t,
        rows: &mut rows,
        seen: &mut seen,
        held: &mut held,
    };
    let told = output_in(bytes, room, &mut cells, &mut parts, function, list, out);
    word_of(told.map_err(Numbered::from))
}
