// A loop beside the walks of its blocks: how its first pass ends, and how a turn ends.
ghost use Rattle.access.specs.Access.{handle_in};
ghost use Rattle.arms.specs.Loops.{Passing, BreakEnds, PassEnds, TurnWalked, TurnEnds};

use access::file::File;
use block::stack::{drop, join, lower, settled};
use expression::add::add_expression;
use expression::visit::Visit;
use field::refusal::Refusal;
use memory::layout::ALL;
use memory::memory::{tidy, weigh};
use memory::want::want_of;
use module::handles::ExpressionHandle;
use state::answer::{Tally, Walked};
use state::frame::Frame;

// How a turn has ended: 15, the working context contains it, or another one follows.
#[derive(Clone, Copy)]
pub enum Turn {
    Over,
    Settled,
    Again,
}

// `break_if`, where there is one, is asked in the statement's context while those of both blocks are held. It is not inlined: the walk would
// hold its visit on every level of loops.
#[inline(never)]
fn ask_break_if(
    file: &File,
    cells: &mut [u32],
    slots: &mut [u32],
    fr: Frame,
    break_if: Option<ExpressionHandle>,
    tally: Tally,
) -> Walked
    requires { Passing file.now.bytes file.now.t cells.old slots.old fr (handle_in break_if) tally.sum tally.visits }
    ensures { BreakEnds file.now.bytes file.now.t cells.old slots.old fr (handle_in break_if) tally.sum tally.visits result cells.new slots.new }
{
    let Some(e) = break_if else {
        return Ok(tally);
    };
    let k = fr.at + 4;
    let first = weigh(cells, slots, k, 4);
    let second = weigh(cells, slots, k + 4, 4);
    let v = Visit {
        function: fr.function,
        expression: e,
        at: fr.at,
        held: fr.held + (first + second),
    };
    let w = want_of(ALL);
    add_expression(file, cells, slots, &v, w, tally)
}

// A first pass that is required ends: `break_if`, and the join of both blocks' contexts, which is the working context then.
pub fn end_pass(
    file: &File,
    cells: &mut [u32],
    slots: &mut [u32],
    fr: Frame,
    break_if: Option<ExpressionHandle>,
    tally: Tally,
) -> Walked
    requires { Passing file.now.bytes file.now.t cells.old slots.old fr (handle_in break_if) tally.sum tally.visits }
    ensures { PassEnds file.now.bytes file.now.t cells.old slots.old fr (handle_in break_if) tally.sum tally.visits result cells.new slots.new }
{
    let at = fr.at;
    let tally = ask_break_if(file, cells, slots, fr, break_if, tally)?;
    join(cells, slots, at + 4).ok_or(fr.halt(Refusal::PartLimit))?;
    tidy(cells, slots);
    Ok(tally)
}

// A turn ends: its two contexts, above the working one and the statement's, are joined. Where the working context contains the join, it takes the
// place of the statement's.
pub fn end_turn(cells: &mut [u32], slots: &mut [u32], at: usize) -> Turn
    requires { TurnWalked cells.old slots.old at }
    ensures { TurnEnds cells.old slots.old at result cells.new slots.new }
{
    let k = at + 4;
    if join(cells, slots, k + 4).is_none() {
        return Turn::Over;
    }
    let done = settled(cells, slots, k);
    drop(slots, k);
    if done {
        lower(slots, at);
        return Turn::Settled;
    }
    tidy(cells, slots);
    Turn::Again
}
