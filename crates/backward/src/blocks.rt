// A pass over blocks and the statements that hold some, last statement first. Piece numbers change as the store is collected: a slot is read again
// after each call.
// Stays: n, x and p side by side. Nine of the 16 calls here give one or more of them anew, so that a struct of the three would be a literal at each.
ghost use Rattle.std.specs.Prelude.{◌≡◌, ◌+◌, ◌-◌, ◌*◌, ◌<◌, ◌≤◌, length};
ghost use Rattle.part.specs.PartReq.{none};
ghost use Rattle.access.specs.Access.{operand_at};
ghost use Rattle.hold.specs.Hold.{in_slot};
ghost use Rattle.quiet.specs.Places.{tree_of, statement_tree};
ghost use Rattle.strays.specs.Places.{BlockOf, StatementIn};
ghost use Rattle.standing.specs.Standing.{inside, around, cases};
ghost use Rattle.backward.specs.Course.{CourseOf, Passes, blocks_under, case_block, if_tree, switch_tree, loop_tree, bare_tree};
ghost use Rattle.judge.specs.Subject.{scope_of, function_in};
ghost use Rattle.standing.specs.Passing.{going, outcome};

use crate::marked::MarkedSubject;
use crate::plain::pass_plain;
use crate::slots::exchange;
use crate::statement::MarkedStatement;
use acts::marks::mark_at;
use ends::held::{begin_loop, end_if, end_switch};
use ends::merge::{end_loop, merge};
use ends::notes::{blame, note};
use hold::hold::copy;
use module::handles::BlockHandle;
use module::kinds::StatementKind;
use part::store::EMPTY_PIECE;
use quiet::blocks::obeys;
use quiet::need::Need;
use standing::passing::{Exits, Passing};

// The cases of a switch: their union stands in the last slot, none at first. The needs after the switch stand where a break leads.
#[cycle(blocks)]
fn pass_cases(
    statement: &MarkedStatement,
    cells: &mut [u32],
    slots: &mut [u32],
    path: &mut [u32],
    n: usize,
    x: Exits,
    p: Passing,
) -> Option<Passing>
    requires course { CourseOf statement.now.marked.now cells.old slots.old path.old n x (going p) }
    requires b_in_bounds { n + (3 * statement.now.b.0 + 10) ≤ length slots.old }
    requires kind_value { statement.now.row.kind ≡ 3 }
    requires n_value { in_slot cells.old slots.old (n - 1) ≡ none }
    ensures { Passes (scope_of statement.now.marked.now.subject.now) (cases (operand_at statement.now.marked.now.subject.now.file.now.bytes statement.now.row 1) (case_block (function_in statement.now.marked.now.subject.now) statement.now.marked.now.marks.now (operand_at statement.now.marked.now.subject.now.file.now.bytes statement.now.row))) cells.old slots.old n x (going p) cells.new slots.new path.old path.new (outcome result) }
{
    let marked = statement.marked;
    let count = marked.subject.file.operand(statement.row, 1) as u32;
    let mut q = p;
    for i in 0..count {
        copy(slots, x.broke, n);
        let case = marked.subject.file.block_operand(statement.row, 3 + 2 * i);
        q = pass_around(marked, cells, slots, path, n + 1, x, q, case)?;
        merge(cells, slots, n, n, n - 1)?;
    }
    Some(q)
}

#[cycle(blocks)]
fn pass_switch(
    statement: &MarkedStatement,
    cells: &mut [u32],
    slots: &mut [u32],
    path: &mut [u32],
    n: usize,
    x: Exits,
    p: Passing,
) -> Option<Passing>
    requires course { CourseOf statement.now.marked.now cells.old slots.old path.old n x (going p) }
    requires b_in_bounds { n + (3 * statement.now.b.0 + 11) ≤ length slots.old }
    requires kind_value { statement.now.row.kind ≡ 3 }
    ensures { Passes (scope_of statement.now.marked.now.subject.now) (inside (switch_tree (blocks_under (function_in statement.now.marked.now.subject.now) statement.now.marked.now.marks.now statement.now.b.0) (operand_at statement.now.marked.now.subject.now.file.now.bytes statement.now.row))) cells.old slots.old n x (going p) cells.new slots.new path.old path.new (outcome result) }
{
    let marked = statement.marked;
    slots[n] = EMPTY_PIECE;
    let y = x.in_case(n - 1);
    let q = pass_cases(statement, cells, slots, path, n + 1, y, p)?;
    let selector = marked.subject.file.expression_operand(statement.row, 0);
    end_switch(
        marked.subject.file,
        marked.subject.f,
        cells,
        slots,
        n,
        selector,
    )?;
    Some(q)
}

#[cycle(blocks)]
fn pass_if(
    statement: &MarkedStatement,
    cells: &mut [u32],
    slots: &mut [u32],
    path: &mut [u32],
    n: usize,
    x: Exits,
    p: Passing,
) -> Option<Passing>
    requires course { CourseOf statement.now.marked.now cells.old slots.old path.old n x (going p) }
    requires b_in_bounds { n + (3 * statement.now.b.0 + 11) ≤ length slots.old }
    requires kind_value { statement.now.row.kind ≡ 2 }
    ensures { Passes (scope_of statement.now.marked.now.subject.now) (inside (if_tree (blocks_under (function_in statement.now.marked.now.subject.now) statement.now.marked.now.marks.now statement.now.b.0) (operand_at statement.now.marked.now.subject.now.file.now.bytes statement.now.row))) cells.old slots.old n x (going p) cells.new slots.new path.old path.new (outcome result) }
{
    let marked = statement.marked;
    let last = n - 1;
    copy(slots, last, n);
    let reject = marked.subject.file.block_operand(statement.row, 2);
    let q = pass_around(marked, cells, slots, path, n + 1, x, p, reject)?;
    exchange(slots, n);
    let accept = marked.subject.file.block_operand(statement.row, 1);
    let o = pass_around(marked, cells, slots, path, n + 1, x, q, accept)?;
    let condition = marked.subject.file.expression_operand(statement.row, 0);
    end_if(
        marked.subject.file,
        marked.subject.f,
        cells,
        slots,
        n,
        condition,
    )?;
    Some(o)
}

#[cycle(blocks)]
fn pass_loop(
    statement: &MarkedStatement,
    cells: &mut [u32],
    slots: &mut [u32],
    path: &mut [u32],
    n: usize,
    x: Exits,
    p: Passing,
) -> Option<Passing>
    requires course { CourseOf statement.now.marked.now cells.old slots.old path.old n x (going p) }
    requires b_in_bounds { n + (3 * statement.now.b.0 + 11) ≤ length slots.old }
    requires kind_value { statement.now.row.kind ≡ 4 }
    ensures { Passes (scope_of statement.now.marked.now.subject.now) (inside (loop_tree (blocks_under (function_in statement.now.marked.now.subject.now) statement.now.marked.now.marks.now statement.now.b.0) statement.now.s (operand_at statement.now.marked.now.subject.now.file.now.bytes statement.now.row))) cells.old slots.old n x (going p) cells.new slots.new path.old path.new (outcome result) }
{
    let marked = statement.marked;
    let l = statement.s as usize;
    let break_if = marked.subject.file.optional_expression(statement.row, 2);
    begin_loop(
        marked.subject.file,
        marked.subject.f,
        cells,
        slots,
        n,
        l,
        break_if,
    )?;
    let y = x.in_case(n - 1);
    let continuing = marked.subject.file.block_operand(statement.row, 1);
    let q = pass_around(marked, cells, slots, path, n + 1, y, p, continuing)?;
    let above = n + 1;
    copy(slots, n, above);
    let z = x.in_body(n - 1, n);
    let body = marked.subject.file.block_operand(statement.row, 0);
    let o = pass_around(marked, cells, slots, path, above + 1, z, q, body)?;
    end_loop(cells, slots, n, l, o)
}

// What has the mark of the statement s of the block b: an if, a switch or a loop.
#[cycle(blocks)]
fn pass_bare(
    statement: &MarkedStatement,
    cells: &mut [u32],
    slots: &mut [u32],
    path: &mut [u32],
    n: usize,
    x: Exits,
    p: Passing,
) -> Option<Passing>
    requires course { CourseOf statement.now.marked.now cells.old slots.old path.old n x (going p) }
    requires b_in_bounds { n + (3 * statement.now.b.0 + 11) ≤ length slots.old }
    requires lt_kind { (1 < statement.now.row.kind) × (statement.now.row.kind < 5) }
    ensures { Passes (scope_of statement.now.marked.now.subject.now) (inside (bare_tree (blocks_under (function_in statement.now.marked.now.subject.now) statement.now.marked.now.marks.now statement.now.b.0) statement.now.s statement.now.row.kind (operand_at statement.now.marked.now.subject.now.file.now.bytes statement.now.row))) cells.old slots.old n x (going p) cells.new slots.new path.old path.new (outcome result) }
{
    match StatementKind::try_from(statement.row.kind) {
        Ok(StatementKind::If) => pass_if(statement, cells, slots, path, n, x, p),
        Ok(StatementKind::Switch) => pass_switch(statement, cells, slots, path, n, x, p),
        _ => pass_loop(statement, cells, slots, path, n, x, p),
    }
}

// One that breaks its rule is walked as if marked, and what is needed after it is needed before it too.
#[cycle(blocks)]
fn pass_holder(
    statement: &MarkedStatement,
    cells: &mut [u32],
    slots: &mut [u32],
    path: &mut [u32],
    n: usize,
    x: Exits,
    p: Passing,
) -> Option<Passing>
    requires course { CourseOf statement.now.marked.now cells.old slots.old path.old n x (going p) }
    requires b_in_bounds { n + (3 * statement.now.b.0 + 12) ≤ length slots.old }
    requires lt_kind { (1 < statement.now.row.kind) × (statement.now.row.kind < 5) }
    ensures { Passes (scope_of statement.now.marked.now.subject.now) (inside (statement_tree (function_in statement.now.marked.now.subject.now) statement.now.marked.now.marks.now statement.now.b.0 statement.now.s)) cells.old slots.old n x (going p) cells.new slots.new path.old path.new (outcome result) }
{
    let marked = statement.marked;
    let s = statement.s;
    let last = n - 1;
    let begin = marked.firsts[s as usize] as usize;
    if mark_at(marked.marks, begin) {
        return pass_bare(statement, cells, slots, path, n, x, p);
    }
    let need = Need {
        subject: marked.subject,
        cells,
        piece: slots[last],
    };
    if obeys(&need, path, statement.b, s) {
        return Some(p);
    }
    copy(slots, last, n);
    let q = pass_bare(statement, cells, slots, path, n + 1, x, p)?;
    let blamed = blame(s, q);
    merge(cells, slots, n, last, n)?;
    Some(blamed)
}

// The statement s of the block b.
#[cycle(blocks)]
fn pass_statement(
    marked: &MarkedSubject,
    cells: &mut [u32],
    slots: &mut [u32],
    path: &mut [u32],
    n: usize,
    x: Exits,
    p: Passing,
    b: BlockHandle,
    s: u32,
) -> Option<Passing>
    requires course { CourseOf marked.now cells.old slots.old path.old n x (going p) }
    requires b_in_bounds { n + (3 * b.0 + 12) ≤ length slots.old }
    requires statement_in { StatementIn marked.now.subject.now.file.now.bytes marked.now.subject.now.file.now.t marked.now.subject.now.f.0 b.0 s }
    ensures { Passes (scope_of marked.now.subject.now) (inside (statement_tree (function_in marked.now.subject.now) marked.now.marks.now b.0 s)) cells.old slots.old n x (going p) cells.new slots.new path.old path.new (outcome result) }
{
    let row = marked.subject.file.statement(marked.subject.f, s);
    let statement = MarkedStatement {
        marked: &*marked,
        b,
        s,
        row,
    };
    match StatementKind::try_from(row.kind) {
        Ok(StatementKind::Block) => {
            let inner = marked.subject.file.block_operand(row, 0);
            pass_block(marked, cells, slots, path, n, x, p, inner)
        }
        Ok(StatementKind::If | StatementKind::Switch | StatementKind::Loop) => pass_holder(
            &statement, cells, slots, path, n, x, p,
        ),
        _ => pass_plain(&statement, cells, slots, path, n, x, p),
    }
}

#[cycle(blocks)]
fn pass_block(
    marked: &MarkedSubject,
    cells: &mut [u32],
    slots: &mut [u32],
    path: &mut [u32],
    n: usize,
    x: Exits,
    p: Passing,
    b: BlockHandle,
) -> Option<Passing>
    requires course { CourseOf marked.now cells.old slots.old path.old n x (going p) }
    requires b_in_bounds { n + (3 * b.0 + 12) ≤ length slots.old }
    requires block_of { BlockOf marked.now.subject.now.file.now.bytes marked.now.subject.now.file.now.t marked.now.subject.now.f.0 b.0 }
    ensures { Passes (scope_of marked.now.subject.now) (inside (tree_of (function_in marked.now.subject.now) marked.now.marks.now b.0)) cells.old slots.old n x (going p) cells.new slots.new path.old path.new (outcome result) }
{
    let range = marked.subject.file.block(marked.subject.f, b);
    let first = range.first;
    let mut q = p;
    for k in (0..range.count).rev() {
        let at = note(cells, slots, n, q);
        q = pass_statement(marked, cells, slots, path, n, x, at, b, first + k)?;
    }
    Some(q)
}

// A block with the points after and before it.
#[cycle(blocks)]
pub fn pass_around(
    marked: &MarkedSubject,
    cells: &mut [u32],
    slots: &mut [u32],
    path: &mut [u32],
    n: usize,
    x: Exits,
    p: Passing,
    b: BlockHandle,
) -> Option<Passing>
    requires course { CourseOf marked.now cells.old slots.old path.old n x (going p) }
    requires b_in_bounds { n + (3 * b.0 + 12) ≤ length slots.old }
    requires block_of { BlockOf marked.now.subject.now.file.now.bytes marked.now.subject.now.file.now.t marked.now.subject.now.f.0 b.0 }
    ensures { Passes (scope_of marked.now.subject.now) (around (tree_of (function_in marked.now.subject.now) marked.now.marks.now b.0)) cells.old slots.old n x (going p) cells.new slots.new path.old path.new (outcome result) }
{
    let at = note(cells, slots, n, p);
    let q = pass_block(marked, cells, slots, path, n, x, at, b)?;
    Some(note(cells, slots, n, q))
}
