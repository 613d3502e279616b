// The arms whose asks an index, a pattern or the part decides.
ghost use Rattle.std.specs.Prelude.{◌≡◌, ◌+◌, ◌≤◌, ◌<◌, MatchOption};
ghost use Rattle.part.specs.PartReq.{none, more};
ghost use Rattle.module.specs.Decode.{tab};
ghost use Rattle.access.specs.Access.{operand_at};
ghost use Rattle.context.specs.Swizzle.{swizzled};
ghost use Rattle.walk.specs.Expression.{formed, constant_asks, swizzle_asks, compose_asks};
ghost use Rattle.valid.specs.Valid.{EachBelow};
ghost use Rattle.memory.specs.Memory.{Memory};
ghost use Rattle.memory.specs.Want.{asked, Wants};
ghost use Rattle.asks.specs.Asks.{Told, Lettered};

use crate::what::Ask;
use access::file::File;
use access::kinded::Kinded;
use field::refusal::Refusal;
use memory::layout::ALL;
use memory::want::{Want, child, entry, is_all, is_exist, swizzle, want_of, wrap_over};
use module::handles::ExpressionHandle;

pub fn access_index(
    file: &File,
    cells: &[u32],
    slots: &[u32],
    row: Kinded,
    w: Want,
    j: u32,
) -> Option<Ask>
    requires { Memory cells.now slots.now × Wants cells.now slots.now w }
    ensures { Told cells.now slots.now w (formed (operand_at file.now.bytes row 0) (more (operand_at file.now.bytes row 1) (asked cells.now slots.now w) none)) j result }
{
    if 0 < j {
        return None;
    }
    let i = file.operand(row, 1) as u32;
    if wrap_over(cells, slots, w, i) {
        return Some(Ask::Refuse(Refusal::PartLimit));
    }
    let base = file.expression_operand(row, 0);
    let want = w.wrap(i);
    Some(Ask::Operand(base, want))
}

// The assertion of a constant.
pub fn constant(cells: &[u32], slots: &[u32], w: Want, j: u32) -> Option<Ask>
    requires { Memory cells.now slots.now × Wants cells.now slots.now w }
    ensures { Told cells.now slots.now w (constant_asks (asked cells.now slots.now w)) j result }
{
    if 0 < j {
        return None;
    }
    if is_all(cells, slots, w) {
        return None;
    }
    if is_exist(cells, slots, w) {
        return None;
    }
    Some(Ask::Refuse(Refusal::Panic))
}

// The letter i of a swizzle, where its pattern has one.
fn letter(file: &File, row: Kinded, i: u16) -> Option<u32>
    requires { i < 4 }
    ensures { MatchOption result (operand_at file.now.bytes row 1 ≤ i) (λ x. (i < operand_at file.now.bytes row 1) × (x ≡ operand_at file.now.bytes row (2 + i))) }
{
    if i < file.operand(row, 1) {
        return Some(file.operand(row, 2 + i) as u32);
    }
    None
}

// Its four letters: a shorter pattern is filled up with the letter 0.
fn letters(file: &File, row: Kinded) -> [u32; 4]
    ensures { Lettered (tab (operand_at file.now.bytes row 1) (λ k. operand_at file.now.bytes row (2 + k))) result }
{
    let a = letter(file, row, 0).unwrap_or(0);
    let b = letter(file, row, 1).unwrap_or(0);
    let c = letter(file, row, 2).unwrap_or(0);
    let d = letter(file, row, 3).unwrap_or(0);
    [a, b, c, d]
}

pub fn swizzle_ask(
    file: &File,
    cells: &[u32],
    slots: &[u32],
    row: Kinded,
    w: Want,
    j: u32,
) -> Option<Ask>
    requires memory { Memory cells.now slots.now × Wants cells.now slots.now w }
    requires each_below { EachBelow 4 (tab (operand_at file.now.bytes row 1) (λ k. operand_at file.now.bytes row (2 + k))) }
    ensures { Told cells.now slots.now w (swizzle_asks (operand_at file.now.bytes row 0) (swizzled (tab (operand_at file.now.bytes row 1) (λ k. operand_at file.now.bytes row (2 + k))) (asked cells.now slots.now w))) j result }
{
    if 0 < j {
        return None;
    }
    let pattern = letters(file, row);
    let Some(slot) = swizzle(cells, slots, w, pattern) else {
        return Some(Ask::Refuse(Refusal::Panic));
    };
    let vector = file.expression_operand(row, 0);
    let want = want_of(slot);
    Some(Ask::Operand(vector, want))
}

// The component i of a construction.
fn component(file: &File, row: Kinded, i: u32) -> ExpressionHandle
    requires i_bound { i < operand_at file.now.bytes row 0 }
    requires row_bound { operand_at file.now.bytes row 0 < 65536 }
    ensures { result.0 ≡ operand_at file.now.bytes row (1 + i) }
{
    let k = 1 + (i as u16);
    file.expression_operand(row, k)
}

// All of each component; or what each entry has, of the component with its index.
pub fn compose(
    file: &File,
    cells: &[u32],
    slots: &[u32],
    row: Kinded,
    w: Want,
    j: u32,
) -> Option<Ask>
    requires { Memory cells.now slots.now × Wants cells.now slots.now w }
    ensures { Told cells.now slots.now w (compose_asks (tab (operand_at file.now.bytes row 0) (λ k. operand_at file.now.bytes row (1 + k))) (asked cells.now slots.now w)) j result }
{
    let n = file.operand(row, 0) as u32;
    if is_all(cells, slots, w) {
        if n <= j {
            return None;
        }
        let x = component(file, row, j);
        let all = want_of(ALL);
        return Some(Ask::Operand(x, all));
    }
    let i = entry(cells, slots, w, j)?;
    if n <= i {
        return Some(Ask::Refuse(Refusal::Panic));
    }
    let x = component(file, row, i);
    let u = child(cells, slots, w, j);
    Some(Ask::Operand(x, u))
}
