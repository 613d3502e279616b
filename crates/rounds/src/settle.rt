// Rounds until each loop's needs hold, and the answer.
ghost use Rattle.std.specs.Prelude.{◌<◌};
ghost use Rattle.part.specs.Store.{top, Good};
ghost use Rattle.clearance.specs.Tree.{body_tree};
ghost use Rattle.checking.specs.Word.{said};
ghost use Rattle.rounds.specs.Settling.{SettlingOf, Settled, asked_by};
ghost use Rattle.rounds.specs.Rounds.{RoundingOf, Rounded, Answers, Settles};
ghost use Rattle.judge.specs.Subject.{scope_of, function_in};
ghost use Rattle.standing.specs.Passing.{going, outcome};

use crate::begin::{begin, renew};
use crate::pieces::AskedPieces;
use backward::blocks::pass_around;
use backward::marked::MarkedSubject;
use checking::words::Verdict;
use context_bytes::starts::context_covers;
use field::refusal::Refusal;
use forms::types::Types;
use standing::passing::{END, Exits, Passing, STACK};

// The most rounds.
const ROUNDS: u32 = 65536;

// One pass over the body, with the needs at the function's end where each exit leads.
fn round(
    marked: &MarkedSubject,
    cells: &mut [u32],
    slots: &mut [u32],
    path: &mut [u32],
) -> Option<Passing>
    requires { RoundingOf marked.now cells.old slots.old path.old }
    ensures { Rounded (scope_of marked.now.subject.now) (body_tree (function_in marked.now.subject.now) marked.now.marks.now) cells.old slots.old cells.new slots.new path.old path.new (outcome result) }
{
    let x = Exits {
        broke: END,
        continued: END,
        returned: END,
    };
    let p = Passing {
        fault: None,
        held: true,
        deep: false,
        wide: false,
    };
    let b = marked.subject.file.body_block(marked.subject.f);
    pass_around(marked, cells, slots, path, STACK + 1, x, p, b)
}

// The answer, by what the last pass carried and the need n before it.
fn answer(cells: &[u32], n: u32, q: Passing, context: &[u8]) -> Verdict
    requires good { Good cells.now }
    requires n_bound { n < top cells.now }
    ensures { Answers cells.now n (going q) context.now (said result) }
{
    if q.deep {
        return Verdict::Refused(Refusal::PartLimit);
    }
    if q.wide {
        return Verdict::Refused(Refusal::PiecesLimit);
    }
    if let Some(s) = q.fault {
        return Verdict::Statement(s);
    }
    if context_covers(cells, n, context) {
        return Verdict::Clear;
    }
    Verdict::Start
}

// Rounds until each loop's needs hold; past the most of them the answer is 26.
fn settle_rounds(
    marked: &MarkedSubject,
    cells: &mut [u32],
    slots: &mut [u32],
    path: &mut [u32],
    context: &[u8],
) -> Verdict
    requires { RoundingOf marked.now cells.old slots.old path.old }
    ensures { Settles (scope_of marked.now.subject.now) marked.now.marks.now context.now cells.old slots.old (said result) }
{
    for _ in 0..ROUNDS {
        let Some(q) = round(marked, cells, slots, path) else {
            return Verdict::Refused(Refusal::CheckBound);
        };
        if q.held {
            return answer(cells, slots[STACK], q, context);
        }
        renew(slots);
    }
    Verdict::Refused(Refusal::CheckBound)
}

// The answer, of a judged function and what is asked of it.
pub fn settle(
    marked: &MarkedSubject,
    cells: &mut [u32],
    slots: &mut [u32],
    path: &mut [u32],
    asked: AskedPieces,
    context: &[u8],
) -> Verdict
    requires { SettlingOf marked.now cells.old slots.old path.old asked }
    ensures { Settled (scope_of marked.now.subject.now) (asked_by cells.old asked.globals asked.value) marked.now.marks.now context.now (said result) }
{
    let subject = marked.subject;
    let types = Types {
        rows: subject.types,
    };
    begin(subject.file, subject.f, &types, cells, slots, asked);
    settle_rounds(marked, cells, slots, path, context)
}
