// The answer of a request, as bytes: whether the function is required, the visits, its input context, and its records.
ghost use Rattle.std.specs.Prelude.{◌≡◌, [], ◌∷◌, ◌≤◌, ◌<◌, ◌/◌, ◌%◌, length};
ghost use Rattle.std.proofs.lemmas.List.Edits.{sets};
ghost use Rattle.walk.specs.StatementReq.{mark};
ghost use Rattle.request.specs.Written.{HasRoom, Writes};
ghost use Rattle.requests.specs.Answer.{min_answer, Answering, answer_in};

use access::file::File;
use leave::leave::records_of;
use memory::layout::EXPRS;
use module::handles::FunctionHandle;
use pruner::write::{write_lists, write_records};
use request::writer::Writer;

// the least buffer
pub const MIN_ANSWER: usize = 327680;

// The fields before the context.
fn write_verdict(writer: &mut Writer, required: bool, visits: usize)
    requires { HasRoom writer.old (mark required ∷ (visits % 65536 ∷ (visits / 65536 ∷ []))) × (visits < 4294967296) }
    ensures { Writes writer.old writer.new (mark required ∷ (visits % 65536 ∷ (visits / 65536 ∷ []))) }
{
    writer.field(u16::from(required));
    writer.word(visits as u32);
}

// From the first byte on; what lies past it stays.
pub fn write_answer(
    file: &File,
    cells: &[u32],
    slots: &[u32],
    f: FunctionHandle,
    at: usize,
    required: bool,
    visits: usize,
    out: &mut [u8],
)
    requires answering { Answering file.now.t cells.now slots.now f.0 at }
    requires visits_bound { (visits < 4294967296) × (length (answer_in file.now.t cells.now slots.now f.0 at required visits) ≤ length out.old) }
    requires visits_len_bound { length (answer_in file.now.t cells.now slots.now f.0 at required visits) ≤ min_answer }
    ensures { out.new ≡ sets out.old 0 (answer_in file.now.t cells.now slots.now f.0 at required visits) }
{
    let own = records_of(file, f);
    let mut writer = Writer { out, at: 6 };
    write_verdict(&mut writer, required, visits);
    write_lists(cells, slots, at, &mut writer);
    write_records(cells, slots, EXPRS + own.from, own.n, &mut writer);
    writer.head(b'A', b'N');
}
