// How a request ends: 16 is asked of the totals alone, and then the three lent buffers are written.
ghost use Rattle.std.specs.Prelude.{◌-◌, ◌≤◌};
ghost use Rattle.part.specs.StoreLimits.{entries_cap};
ghost use Rattle.memory.specs.Memory.{Memory};
ghost use Rattle.leave.specs.Leave.{Placed, own_in};
ghost use Rattle.requests.specs.Finish.{TotalsChecked, FinishingOf, FinishedOf};
ghost use Rattle.marks.specs.Report.{totals_of};

use crate::answer::write_answer;
use access::file::File;
use field::limits::MAX_PIECES;
use field::refusal::Refusal;
use leave::leave::own_pieces;
use marks::report::write_report;
use module::handles::FunctionHandle;
use pruner::totals::write_pruner;
use state::answer::{Answer, Halt, Tally};

// What a caller hears: the visits, or why the request is refused, and where.
pub type Reply = Result<usize, Halt>;

// 16, where a walk of f that has ended passes it by its totals alone: the records of f are not counted.
pub fn check_totals(
    file: &File,
    cells: &[u32],
    slots: &[u32],
    f: FunctionHandle,
    sum: usize,
) -> Result<(), Refusal>
    requires memory { Memory cells.now slots.now × Placed file.now.t slots.now f.0 }
    requires own_bound { (own_in file.now.t cells.now slots.now f.0 ≤ entries_cap) × (own_in file.now.t cells.now slots.now f.0 ≤ sum) }
    ensures { TotalsChecked (sum - own_in file.now.t cells.now slots.now f.0) result }
{
    let own = own_pieces(file, cells, slots, f);
    if MAX_PIECES < sum - own {
        return Err(Refusal::PiecesLimit);
    }
    Ok(())
}

// The walk of f has ended, with its context behind the base.
pub fn finish_request(
    file: &File,
    starts: &[u32],
    cells: &[u32],
    slots: &[u32],
    open: &[u8],
    flags: &[bool],
    kept: &[u8],
    f: FunctionHandle,
    base: usize,
    walked: Answer,
    pruner: &mut [u8],
    report: &mut [u8],
    answer: &mut [u8],
) -> Reply
    requires { FinishingOf file.now starts.now cells.now slots.now «open».now (totals_of flags.now kept.now) f.0 base walked pruner.old report.old answer.old }
    ensures { FinishedOf file.now starts.now cells.now slots.now «open».now (totals_of flags.now kept.now) f.0 base walked pruner.old report.old answer.old result pruner.new report.new answer.new }
{
    let Answer { tally, required } = walked;
    let Tally { visits, sum } = tally;
    check_totals(file, cells, slots, f, sum)?;
    let n = file.functions() as usize;
    write_report(report, starts, open, flags, kept, f, n);
    write_pruner(file, starts, cells, slots, flags, kept, pruner);
    write_answer(file, cells, slots, f, base + 4, required, visits, answer);
    Ok(visits)
}
