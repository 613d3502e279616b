// The rule over blocks, at any depth: it stops at the first that gives what is needed, or leaves where it may not.
ghost use Rattle.std.specs.Prelude.{◌+◌, ◌≤◌, length};
ghost use Rattle.access.specs.Access.{operand_at};
ghost use Rattle.strays.specs.Exits.{exits_of};
ghost use Rattle.strays.specs.Places.{BlockOf, StatementIn, CasesIn};
ghost use Rattle.quiet.specs.Acts.{NeedingOf, needed_by};
ghost use Rattle.quiet.specs.Places.{quiet_block, quiet_statement, quiet_cases, Says, Obeys};
ghost use Rattle.judge.specs.Subject.{scope_of, function_in};

use crate::need::Need;
use crate::plain::quiet_plain;
use access::kinded::Kinded;
use module::handles::BlockHandle;
use module::kinds::StatementKind;
use strays::exits::{Exits, none};

#[cycle(quiet_block_quiet_cases_quiet_statement)]
fn quiet_cases(need: &Need, path: &mut [u32], b: BlockHandle, row: Kinded, e: Exits<bool>) -> bool
    requires needing { NeedingOf need.now }
    requires f_in_bounds { length (function_in need.now.subject.now).expressions + 2 ≤ length path.old }
    requires cases_in { CasesIn need.now.subject.now.file.now.bytes need.now.subject.now.file.now.t need.now.subject.now.f.0 b.0 row }
    ensures { Says (quiet_cases (scope_of need.now.subject.now) (needed_by need.now) (operand_at need.now.subject.now.file.now.bytes row) (operand_at need.now.subject.now.file.now.bytes row 1) (exits_of e)) path.old path.new result }
{
    let n = need.subject.file.operand(row, 1) as u32;
    for i in (0..n).rev() {
        let case = need.subject.file.block_operand(row, 3 + 2 * i);
        if !quiet_block(need, path, case, e) {
            return false;
        }
    }
    true
}

// The statement s of the block b.
#[cycle(quiet_block_quiet_cases_quiet_statement)]
fn quiet_statement(need: &Need, path: &mut [u32], b: BlockHandle, s: u32, e: Exits<bool>) -> bool
    requires needing { NeedingOf need.now }
    requires f_in_bounds { length (function_in need.now.subject.now).expressions + 2 ≤ length path.old }
    requires statement_in { StatementIn need.now.subject.now.file.now.bytes need.now.subject.now.file.now.t need.now.subject.now.f.0 b.0 s }
    ensures { Says (quiet_statement (scope_of need.now.subject.now) (needed_by need.now) b.0 s (exits_of e)) path.old path.new result }
{
    let row = need.subject.file.statement(need.subject.f, s);
    match StatementKind::try_from(row.kind) {
        Ok(StatementKind::Block) => {
            let inner = need.subject.file.block_operand(row, 0);
            quiet_block(need, path, inner, e)
        }
        Ok(StatementKind::If) => {
            let accept = need.subject.file.block_operand(row, 1);
            let reject = need.subject.file.block_operand(row, 2);
            quiet_block(need, path, accept, e) && quiet_block(need, path, reject, e)
        }
        Ok(StatementKind::Switch) => {
            let x = e.in_case(true);
            quiet_cases(need, path, b, row, x)
        }
        Ok(StatementKind::Loop) => {
            let body = need.subject.file.block_operand(row, 0);
            let x = e.in_body(true, true);
            // a continue that leaves a continuing block is one of the loop around
            let last = need.subject.file.block_operand(row, 1);
            let y = e.in_case(true);
            quiet_block(need, path, body, x) && quiet_block(need, path, last, y)
        }
        _ => quiet_plain(need, path, s, row, e),
    }
}

#[cycle(quiet_block_quiet_cases_quiet_statement)]
pub fn quiet_block(need: &Need, path: &mut [u32], b: BlockHandle, e: Exits<bool>) -> bool
    requires needing { NeedingOf need.now }
    requires f_in_bounds { length (function_in need.now.subject.now).expressions + 2 ≤ length path.old }
    requires block_of { BlockOf need.now.subject.now.file.now.bytes need.now.subject.now.file.now.t need.now.subject.now.f.0 b.0 }
    ensures { Says (quiet_block (scope_of need.now.subject.now) (needed_by need.now) b.0 (exits_of e)) path.old path.new result }
{
    let range = need.subject.file.block(need.subject.f, b);
    let first = range.first;
    for k in 0..range.count {
        if !quiet_statement(need, path, b, first + k, e) {
            return false;
        }
    }
    true
}

// Whether what has the mark of the statement s of the block b obeys its rule, by what is needed after it.
pub fn obeys(need: &Need, path: &mut [u32], b: BlockHandle, s: u32) -> bool
    requires needing { NeedingOf need.now }
    requires f_in_bounds { length (function_in need.now.subject.now).expressions + 2 ≤ length path.old }
    requires statement_in { StatementIn need.now.subject.now.file.now.bytes need.now.subject.now.file.now.t need.now.subject.now.f.0 b.0 s }
    ensures { Obeys (scope_of need.now.subject.now) (needed_by need.now) b.0 s path.old path.new result }
{
    quiet_statement(need, path, b, s, none())
}
