// A store's target, and what is needed of it.
ghost use Rattle.statement.specs.Aim.{Aiming, Aims};

use access::file::File;
use field::refusal::Refusal;
use memory::stretches::load_context;
use module::handles::ExpressionHandle;
use part::store::over;
use state::answer::Halt;
use state::frame::Frame;
use target::resolve::{Target, resolve_var};
use target::store::store_required;

// The target, and what is needed of it.
#[derive(Clone, Copy)]
pub struct Aim {
    pub target: Target,
    pub needed: Option<u32>,
}

// The target that the expression e names: 13 where that is no variable, 15 at a path that is too long.
// Stays: the slots are only read, which a `&mut` of both would not say.
pub fn target_of(
    file: &File,
    cells: &mut [u32],
    slots: &[u32],
    fr: Frame,
    e: ExpressionHandle,
) -> Result<Aim, Halt>
    requires { Aiming file.now.bytes file.now.t cells.old slots.now fr e.0 }
    ensures { Aims file.now.bytes file.now.t cells.old slots.now fr e.0 result cells.new }
{
    let f = fr.function;
    let c = load_context(slots, fr.at);
    let Some(target) = resolve_var(file, cells, f, e) else {
        return Err(fr.halt(Refusal::Panic));
    };
    if over(cells, target.part) {
        return Err(fr.halt(Refusal::PartLimit));
    }
    let needed = store_required(cells, c, target);
    Ok(Aim { target, needed })
}
