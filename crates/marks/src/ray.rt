// The first statement at which two totals' marks do not join: a RayQuery, in the order in which `BlockReq::add` goes through a function.
ghost use Rattle.std.specs.Prelude.{◌≡◌, ◌<◌, length};
ghost use Rattle.std.proofs.Math.Option.{none};
ghost use Rattle.module.specs.Knot.{below};
ghost use Rattle.module.specs.Tables.{module_of};
ghost use Rattle.access.specs.Access.{operand_at};
ghost use Rattle.walk.specs.Marks.{statement_at, body_of, ray_of, first_ray};
ghost use Rattle.access.specs.Laid.{WasRead};
ghost use Rattle.marks.specs.Ray.{held_count, held_number, ray_in, BlockOf, StatementIn};

use access::file::File;
use access::kinded::Kinded;
use module::handles::{BlockHandle, FunctionHandle};
use module::kinds::StatementKind;

fn held_count(file: &File, row: Kinded) -> u32
    ensures { (result ≡ held_count row.kind (operand_at file.now.bytes row)) × (result < 65536) }
{
    let Ok(kind) = StatementKind::try_from(row.kind) else {
        return 0;
    };
    match kind {
        StatementKind::Block => 1,
        StatementKind::If | StatementKind::Loop => 2,
        StatementKind::Switch => file.operand(row, 1) as u32,
        _ => 0,
    }
}

fn held_number(file: &File, row: Kinded, j: u32) -> BlockHandle
    requires { (j < held_count row.kind (operand_at file.now.bytes row)) × (j < 65536) }
    ensures { result.0 ≡ held_number row.kind (operand_at file.now.bytes row) j }
{
    match StatementKind::try_from(row.kind) {
        Ok(StatementKind::Block) => file.block_operand(row, 0),
        Ok(StatementKind::If) => file.block_operand(row, 2 - j),
        Ok(StatementKind::Switch) => file.block_operand(row, 3 + 2 * j),
        _ => file.block_operand(row, 1 - j),
    }
}

// The first in a statement of the block b.
#[cycle(ray_block_ray_statement)]
fn ray_statement(file: &File, f: FunctionHandle, b: BlockHandle, s: u32) -> Option<u32>
    requires { StatementIn file.now.bytes file.now.t f.0 b.0 s }
    ensures { ray_in result ≡ ray_of (below (first_ray (module_of file.now.bytes file.now.t) f.0) none b.0) s (statement_at (module_of file.now.bytes file.now.t) f.0 s) }
{
    let row = file.statement(f, s);
    // these kinds' marks are joined as a RayQuery's are
    if let Ok(
        StatementKind::RayQuery
        | StatementKind::WorkGroupUniformLoad
        | StatementKind::SubgroupBallot
        | StatementKind::SubgroupGather
        | StatementKind::SubgroupCollectiveOperation,
    ) = StatementKind::try_from(row.kind)
    {
        return Some(s);
    }
    let n = held_count(file, row);
    for j in (0..n).rev() {
        if let Some(i) = ray_block(file, f, held_number(file, row, j)) {
            return Some(i);
        }
    }
    None
}

// The first in the block b.
#[cycle(ray_block_ray_statement)]
fn ray_block(file: &File, f: FunctionHandle, b: BlockHandle) -> Option<u32>
    requires { BlockOf file.now.bytes file.now.t f.0 b.0 }
    ensures { ray_in result ≡ first_ray (module_of file.now.bytes file.now.t) f.0 b.0 }
{
    let range = file.block(f, b);
    let count = range.count;
    let first = range.first;
    for k in 0..count {
        if let Some(i) = ray_statement(file, f, b, first + k) {
            return Some(i);
        }
    }
    None
}

pub fn first_ray(file: &File, f: FunctionHandle) -> Option<u32>
    requires { WasRead file.now.bytes file.now.t × (f.0 < length (module_of file.now.bytes file.now.t).functions) }
    ensures { ray_in result ≡ first_ray (module_of file.now.bytes file.now.t) f.0 (body_of (module_of file.now.bytes file.now.t) f.0) }
{
    let b = file.body_block(f);
    ray_block(file, f, b)
}
