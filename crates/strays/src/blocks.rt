// The lowest statement of a body that leaves where it is not allowed. What is later in the definition's order comes first.
ghost use Rattle.std.specs.Prelude.{◌≡◌, List, ℕ};
ghost use Rattle.module.specs.Tables.{function_of};
ghost use Rattle.access.specs.Access.{operand_at};
ghost use Rattle.valid.specs.There.{There};
ghost use Rattle.clearance.specs.Tree.{body_tree};
ghost use Rattle.clearance.specs.Judged.{at_top, strays as straysOf, lowest};
ghost use Rattle.judge.specs.Blamed.{blamed};
ghost use Rattle.strays.specs.Lower.{lower_of};
ghost use Rattle.strays.specs.Exits.{exits_of};
ghost use Rattle.strays.specs.Places.{BlockOf, StatementIn, CasesIn, stray_block, stray_statement, stray_cases};

use crate::exits::{Exits, at_top, none};
use crate::lower::lower_unless;
use access::file::File;
use access::kinded::Kinded;
use module::handles::{BlockHandle, FunctionHandle};
use module::kinds::{NoKind, StatementKind};

#[cycle(stray_block_stray_cases_stray_statement)]
fn stray_cases(
    file: &File,
    f: FunctionHandle,
    b: BlockHandle,
    row: Kinded,
    e: Exits<bool>,
    low: Option<u32>,
) -> Option<u32>
    requires { CasesIn file.now.bytes file.now.t f.0 b.0 row }
    ensures { blamed result ≡ lower_of (lowest (stray_cases (function_of file.now.bytes file.now.t f.0) (operand_at file.now.bytes row) (operand_at file.now.bytes row 1) (exits_of e))) (blamed low) }
{
    let n = file.operand(row, 1) as u32;
    let mut low = low;
    for i in 0..n {
        low = stray_block(file, f, file.block_operand(row, 3 + 2 * i), e, low);
    }
    low
}

// The statement s of the block b.
#[cycle(stray_block_stray_cases_stray_statement)]
fn stray_statement(
    file: &File,
    f: FunctionHandle,
    b: BlockHandle,
    s: u32,
    e: Exits<bool>,
    low: Option<u32>,
) -> Option<u32>
    requires { StatementIn file.now.bytes file.now.t f.0 b.0 s }
    ensures { blamed result ≡ lower_of (lowest (stray_statement (function_of file.now.bytes file.now.t f.0) b.0 s (exits_of e))) (blamed low) }
{
    let row = file.statement(f, s);
    match StatementKind::try_from(row.kind) {
        Ok(StatementKind::Block) => stray_block(file, f, file.block_operand(row, 0), e, low),
        Ok(StatementKind::If) => {
            let rejected = stray_block(file, f, file.block_operand(row, 2), e, low);
            stray_block(file, f, file.block_operand(row, 1), e, rejected)
        }
        Ok(StatementKind::Switch) => stray_cases(file, f, b, row, e.in_case(true), low),
        Ok(StatementKind::Loop) => {
            let last = file.block_operand(row, 1);
            let continuing = stray_block(file, f, last, none(), low);
            let body = file.block_operand(row, 0);
            stray_block(file, f, body, e.in_body(true, true), continuing)
        }
        Ok(StatementKind::Continue) => lower_unless(e.continued, s, low),
        Ok(StatementKind::Return) => lower_unless(e.returned, s, low),
        // a kind past the last is a break's
        Ok(StatementKind::Break) | Err(NoKind) => lower_unless(e.broke, s, low),
        Ok(_) => low,
    }
}

#[cycle(stray_block_stray_cases_stray_statement)]
fn stray_block(
    file: &File,
    f: FunctionHandle,
    b: BlockHandle,
    e: Exits<bool>,
    low: Option<u32>,
) -> Option<u32>
    requires { BlockOf file.now.bytes file.now.t f.0 b.0 }
    ensures { blamed result ≡ lower_of (lowest (stray_block (function_of file.now.bytes file.now.t f.0) b.0 (exits_of e))) (blamed low) }
{
    let range = file.block(f, b);
    let first = range.first;
    let mut low = low;
    for k in (0..range.count).rev() {
        low = stray_statement(file, f, b, first + k, e, low);
    }
    low
}

// Of the body of f, whatever its marks.
pub fn strays(file: &File, f: FunctionHandle) -> Option<u32>
    requires { There file.now.bytes file.now.t f.0 }
    ensures { (marks : List ℕ) → blamed result ≡ lowest (straysOf (body_tree (function_of file.now.bytes file.now.t f.0) marks) at_top) }
{
    let b = file.body_block(f);
    stray_block(file, f, b, at_top(), None)
}
