// The arms of the statements that hold no block and call no function, by kind.
ghost use Rattle.module.specs.Decode.{statement_of};
ghost use Rattle.access.specs.Access.{operand_at};
ghost use Rattle.statement.specs.Leaf.{Arm, Leaves};
ghost use Rattle.statement.specs.LeafKinds.{LeafKind};

use crate::ask::answer;
use crate::atomic::add_atomic;
use crate::leave::leave;
use crate::rays::add_ray;
use crate::returns::add_return;
use crate::stores::add_store;
use access::kinded::Kinded;
use field::refusal::Refusal;
use module::kinds::StatementKind;
use state::answer::{Answered, Tally};
use state::frame::Frame;
use type_table::typed::TypedFile;

// `add_statement`, of a leaf. A break and a continue leave the block, as does a kind past the last: it is a break's.
// It is not inlined: the walk calls itself, and would hold its frame on every level of blocks.
// Stays: (fr, row) with `Arm`, here and in the four arms below. `Arm` says what the slots hold, which an arm writes: a struct with that fact would hold the
// cells and slots, and its fact would be gone at the first write. What (fr, row) have alone is one of its two fields, `is`.
#[inline(never)]
pub fn add_leaf(
    typed: &TypedFile,
    cells: &mut [u32],
    slots: &mut [u32],
    fr: Frame,
    row: Kinded,
    tally: Tally,
) -> Answered
    requires arm { Arm typed.now.file.now.bytes typed.now.file.now.t cells.old slots.old fr row tally.sum }
    requires leaf_kind { LeafKind row.kind }
    ensures { Leaves typed.now.file.now.bytes typed.now.file.now.t cells.old slots.old fr (statement_of row.kind (operand_at typed.now.file.now.bytes row)) tally.visits result cells.new slots.new }
{
    match StatementKind::try_from(row.kind) {
        Ok(StatementKind::Return) => add_return(typed.file, cells, slots, fr, row, tally),
        Ok(StatementKind::Kill) => answer(Ok(tally), true),
        Ok(StatementKind::ControlBarrier | StatementKind::MemoryBarrier) => {
            answer(Ok(tally), false)
        }
        Ok(StatementKind::ImageAtomic) => Err(fr.halt(Refusal::Panic)),
        Ok(StatementKind::Store | StatementKind::ImageStore) => {
            add_store(typed, cells, slots, fr, row, tally)
        }
        Ok(StatementKind::Atomic) => add_atomic(typed.file, cells, slots, fr, row, tally),
        Ok(
            StatementKind::RayQuery
            | StatementKind::WorkGroupUniformLoad
            | StatementKind::SubgroupBallot
            | StatementKind::SubgroupGather
            | StatementKind::SubgroupCollectiveOperation,
        ) => add_ray(typed.file, cells, slots, fr, row, tally),
        _ => leave(slots, fr, tally),
    }
}
