// A store into a target, up to what it asks.
ghost use Rattle.statement.specs.Aim.{Aiming};
ghost use Rattle.statement.specs.Stores.{Taking, Takes, Stores};

use crate::aim::target_of;
use field::refusal::Refusal;
use memory::layout::ASK;
use memory::stretches::{load_context, save_context};
use module::handles::ExpressionHandle;
use state::answer::Halt;
use state::frame::Frame;
use target::resolve::Target;
use target::store::take_out;
use type_table::typed::TypedFile;

// The target is taken out of the context, and the piece p of it, which is needed, is put into the slot ASK.
fn take(
    typed: &TypedFile,
    cells: &mut [u32],
    slots: &mut [u32],
    fr: Frame,
    target: Target,
    p: u32,
) -> Result<(), Halt>
    requires { Taking typed.now.file.now.bytes typed.now.file.now.t cells.old slots.old fr target p }
    ensures { Takes typed.now.file.now.bytes typed.now.file.now.t cells.old slots.old fr target p result cells.new slots.new }
{
    let f = fr.function;
    let c = load_context(slots, fr.at);
    let Some(d) = take_out(typed.file, typed.types, cells, f, c, target) else {
        return Err(fr.halt(Refusal::Panic));
    };
    if d.over(cells) {
        return Err(fr.halt(Refusal::PartLimit));
    }
    save_context(slots, fr.at, d);
    slots[ASK] = p;
    Ok(())
}

// The store into what the expression e names. Whether anything is needed of that: the slot ASK has what, then.
pub fn store(
    typed: &TypedFile,
    cells: &mut [u32],
    slots: &mut [u32],
    fr: Frame,
    e: ExpressionHandle,
) -> Result<bool, Halt>
    requires { Aiming typed.now.file.now.bytes typed.now.file.now.t cells.old slots.old fr e.0 }
    ensures { Stores typed.now.file.now.bytes typed.now.file.now.t cells.old slots.old fr e.0 result cells.new slots.new }
{
    let aim = target_of(typed.file, cells, slots, fr, e)?;
    match aim.needed {
        None => Ok(false),
        Some(p) => {
            take(typed, cells, slots, fr, aim.target, p)?;
            Ok(true)
        }
    }
}
