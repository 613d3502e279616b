// The walk of functions, blocks and statements: they call each other, and have one proof.
ghost use Rattle.std.specs.Prelude.{◌+◌, ◌≤◌, get_or, ◌≡◌};
ghost use Rattle.part.specs.PartReq.{none};
ghost use Rattle.walk.specs.Function.{add_function};
ghost use Rattle.memory.specs.Layout.{slot_count};
ghost use Rattle.memory.specs.Memory.{read, context_at};
ghost use Rattle.state.specs.State.{place_of};
ghost use Rattle.block.specs.Functions.{FunctionEnteredOf, FunctionEndsOf};
ghost use Rattle.block.specs.Blocks.{context_in, EnteredOf, BlockEndsOf, StatementEndsOf};
ghost use Rattle.block.specs.Visiting.{marked, VisitsOf, ArmsOf, VisitEndsOf};
ghost use Rattle.module.specs.Decode.{statement_of, tab, case_of, option_of};
ghost use Rattle.access.specs.Access.{operand_at};
ghost use Rattle.walk.specs.Statement.{add_statement, visit_statement, add_nested, add_if, add_switch, add_loop, turns};
ghost use Rattle.state.specs.Frame.{frame_of};
ghost use Rattle.walk.specs.StatementReq.{StatementReq};
ghost use Rattle.block.specs.Pairing.{add_pair, PairedOf, PairEndsOf};
ghost use Rattle.field.specs.Limits.{max_turns};
ghost use Rattle.arms.specs.Loops.{TurningOf};
ghost use Rattle.block.specs.World.{module_by, blocks_by, state_by};

use access::kinded::Kinded;
use arms::calls::{begin_call, leave_call, return_call};
use arms::emit::add_emit;
use arms::ifs::end_if;
use arms::loops::{Turn, end_pass, end_turn};
use arms::switch::{case_body, end_case, end_switch};
use arms::visit::{end_statement, mark_statement};
use block::add_total::add_total;
use block::branches::drop_both;
use block::stack::lower;
use block::workspace::Workspace;
use block::world::World;
use expression::visit::allowed;
use field::limits::{MAX_TURNS, MAX_VISITS};
use field::refusal::Refusal;
use memory::memory::weigh;
use memory::stretches::copy_context;
use module::handles::{BlockHandle, FunctionHandle};
use module::kinds::StatementKind;
use state::answer::{Answer, Answered, Place, Tally};
use state::frame::Frame;
use statement::leaf::add_leaf;

// `add_function_ref`: f, whose base context stands in the slots from `base` on, and which was called at `here`. Its context is left behind that.
#[cycle(walk)]
pub fn add_function(
    world: &World,
    space: &mut Workspace,
    f: FunctionHandle,
    base: usize,
    here: Place,
    held: usize,
    tally: Tally,
) -> Answered
    requires function_entered { FunctionEnteredOf world.now space.old f.0 base held tally.sum tally.visits }
    requires base_bound { base + 4 ≤ slot_count }
    ensures { FunctionEndsOf world.now space.old f.0 base held (add_function (module_by world.now) f.0 (place_of here) held (get_or (read space.old.parts.cells space.old.parts.slots) base none) (get_or (read space.old.parts.cells space.old.parts.slots) (base + 3) none) (state_by world.now space.old f.0 base tally.visits)) result space.new }
{
    let b = world.typed.file.body_block(f);
    let at = base + 4;
    let a = add_block(world, space, f, b, base, at, held, false, tally)?;
    let tally = add_total(
        world.typed.file,
        &world.places.starts,
        &mut space.parts.cells,
        &mut space.parts.slots,
        &space.open,
        &mut space.totals.flags,
        &mut space.totals.marks,
        f,
        at,
        here,
        a.tally,
    )?;
    Ok(Answer {
        tally,
        required: a.required,
    })
}

// `add_block`: the block b of f, whose base stands in the slots from `base` on. Its context is left in those from `at` on.
// Stays: the block's place in parts, here and in add_pair: as one value a level of loops took 992 bytes for 896 (add_pair 192 for 144, add_loop 416 for 368).
#[cycle(walk)]
pub fn add_block(
    world: &World,
    space: &mut Workspace,
    f: FunctionHandle,
    b: BlockHandle,
    base: usize,
    at: usize,
    held: usize,
    break_required: bool,
    began: Tally,
) -> Answered
    requires { EnteredOf world.now space.old f.0 b.0 base at held (held + context_in space.old.parts.cells space.old.parts.slots base) began.sum began.visits }
    ensures { BlockEndsOf world.now space.old f.0 base at held (held + context_in space.old.parts.cells space.old.parts.slots base) began.sum (blocks_by world.now f.0 b.0 held (context_at (read space.old.parts.cells space.old.parts.slots) base) break_required (state_by world.now space.old f.0 at began.visits)) result space.new }
{
    let range = world.typed.file.block(f, b);
    let first = range.first;
    let parts = &space.parts;
    let inner = held + weigh(&parts.cells, &parts.slots, base, 4);
    copy_context(&mut space.parts.slots, base, at);
    let mut tally = began;
    let mut behind = break_required;
    let mut required = false;
    for k in (0..range.count).rev() {
        let fr = Frame {
            function: f,
            statement: first + k,
            base,
            at,
            held: inner,
            break_required: behind,
        };
        let a = add_statement(world, space, fr, b, tally)?;
        tally = a.tally;
        behind |= a.required;
        required |= a.required;
    }
    Ok(Answer { tally, required })
}

// `add_statement`, as a visit: 17, 16, the arm with its marks, and 16 again. The statement stands in the block b.
#[cycle(walk)]
pub fn add_statement(
    world: &World,
    space: &mut Workspace,
    fr: Frame,
    b: BlockHandle,
    tally: Tally,
) -> Answered
    requires { VisitsOf world.now space.old fr b.0 tally.sum tally.visits }
    ensures { VisitEndsOf world.now space.old fr (visit_statement (module_by world.now) (add_function (module_by world.now)) (blocks_by world.now fr.function.0) (frame_of space.old.parts.cells space.old.parts.slots fr) (state_by world.now space.old fr.function.0 fr.at tally.visits)) result space.new }
{
    let f = fr.function;
    if MAX_VISITS <= tally.visits {
        return Err(fr.halt(Refusal::VisitsLimit));
    }
    let cells = &mut space.parts.cells;
    let slots = &mut space.parts.slots;
    allowed(cells, slots, fr.at, fr.held, tally.sum).ok_or(fr.halt(Refusal::PiecesLimit))?;
    let row = world.typed.file.statement(f, fr.statement);
    let counted = Tally {
        visits: tally.visits + 1,
        ..tally
    };
    let r = add_arm(world, space, fr, b, row, counted);
    end_statement(&mut space.parts.cells, &mut space.parts.slots, fr, r)
}

// The arm with its marks.
// Stays: fr, b and row side by side, in the seven functions with `ArmsOf`. Its `begins` is a fact of the workspace, which they write: no field of a value
// of the three could state it, and the clause would stay in each.
#[cycle(walk)]
fn add_arm(
    world: &World,
    space: &mut Workspace,
    fr: Frame,
    b: BlockHandle,
    row: Kinded,
    tally: Tally,
) -> Answered
    requires { ArmsOf world.now space.old fr b.0 row tally.sum tally.visits }
    ensures { StatementEndsOf world.now space.old fr (marked (module_by world.now) (frame_of space.old.parts.cells space.old.parts.slots fr) (add_statement (module_by world.now) (add_function (module_by world.now)) (blocks_by world.now fr.function.0) (frame_of space.old.parts.cells space.old.parts.slots fr) (statement_of row.kind (operand_at world.now.typed.now.file.now.bytes row)) (state_by world.now space.old fr.function.0 fr.at tally.visits))) (λ b. b) result space.new }
{
    let file = world.typed.file;
    let firsts = &world.places.firsts;
    match StatementKind::try_from(row.kind) {
        Ok(StatementKind::Emit) => {
            let parts = &space.parts;
            let cells = &parts.cells;
            let slots = &parts.slots;
            return add_emit(file, firsts, cells, slots, &mut space.open, fr, row, tally);
        }
        Ok(StatementKind::Call) => {
            return add_call(world, space, fr, b, row, tally);
        }
        Ok(
            StatementKind::Block | StatementKind::If | StatementKind::Switch | StatementKind::Loop,
        ) => {
            return add_holder(world, space, fr, b, row, tally);
        }
        _ => {}
    }
    let cells = &mut space.parts.cells;
    let slots = &mut space.parts.slots;
    let r = add_leaf(world.typed, cells, slots, fr, row, tally);
    mark_statement(file, firsts, &mut space.open, fr, row, r)
}

// The arm of a statement that holds blocks, with its marks. What was walked is one variable, so that the answers of the four do not lie beside each other.
#[cycle(walk)]
fn add_holder(
    world: &World,
    space: &mut Workspace,
    fr: Frame,
    b: BlockHandle,
    row: Kinded,
    tally: Tally,
) -> Answered
    requires arms { ArmsOf world.now space.old fr b.0 row tally.sum tally.visits }
    requires le_kind { (1 ≤ row.kind) × (row.kind ≤ 4) }
    ensures { StatementEndsOf world.now space.old fr (marked (module_by world.now) (frame_of space.old.parts.cells space.old.parts.slots fr) (add_statement (module_by world.now) (add_function (module_by world.now)) (blocks_by world.now fr.function.0) (frame_of space.old.parts.cells space.old.parts.slots fr) (statement_of row.kind (operand_at world.now.typed.now.file.now.bytes row)) (state_by world.now space.old fr.function.0 fr.at tally.visits))) (λ b. b) result space.new }
{
    let r = match StatementKind::try_from(row.kind) {
        Ok(StatementKind::Block) => add_nested(world, space, fr, b, row, tally),
        Ok(StatementKind::If) => add_if(world, space, fr, b, row, tally),
        Ok(StatementKind::Switch) => add_switch(world, space, fr, b, row, tally),
        _ => add_loop(world, space, fr, b, row, tally),
    };
    let firsts = &world.places.firsts;
    mark_statement(world.typed.file, firsts, &mut space.open, fr, row, r)
}

// Two blocks one after the other, both from the base in the slots from `base` on. Their contexts are left in the slots from `at` on, and behind them.
// A statement of the block b holds them.
#[cycle(walk)]
pub fn add_pair(
    world: &World,
    space: &mut Workspace,
    f: FunctionHandle,
    b: BlockHandle,
    first: BlockHandle,
    second: BlockHandle,
    base: usize,
    at: usize,
    held: usize,
    break_required: bool,
    tally: Tally,
) -> Answered
    requires { PairedOf world.now space.old f.0 b.0 first.0 second.0 base at held tally.sum tally.visits }
    ensures { PairEndsOf world.now space.old f.0 base at held (add_pair (blocks_by world.now f.0) first.0 second.0 held (context_at (read space.old.parts.cells space.old.parts.slots) base) break_required (state_by world.now space.old f.0 at tally.visits)) result space.new }
{
    let a = add_block(
        world,
        space,
        f,
        first,
        base,
        at,
        held,
        break_required,
        tally,
    )?;
    let parts = &space.parts;
    let more = held + weigh(&parts.cells, &parts.slots, at, 4);
    let c = add_block(
        world,
        space,
        f,
        second,
        base,
        at + 4,
        more,
        break_required,
        a.tally,
    )?;
    Ok(Answer {
        tally: c.tally,
        required: a.required | c.required,
    })
}

// `Block`.
#[cycle(walk)]
pub fn add_nested(
    world: &World,
    space: &mut Workspace,
    fr: Frame,
    b: BlockHandle,
    row: Kinded,
    tally: Tally,
) -> Answered
    requires arms { ArmsOf world.now space.old fr b.0 row tally.sum tally.visits }
    requires kind_value { row.kind ≡ 1 }
    ensures { StatementEndsOf world.now space.old fr (add_nested (blocks_by world.now fr.function.0) (frame_of space.old.parts.cells space.old.parts.slots fr) (operand_at world.now.typed.now.file.now.bytes row 0) (state_by world.now space.old fr.function.0 fr.at tally.visits)) StatementReq.BlockStmt result space.new }
{
    let f = fr.function;
    let at = fr.at;
    let inner = world.typed.file.block_operand(row, 0);
    let parts = &space.parts;
    let held = fr.held + weigh(&parts.cells, &parts.slots, at, 4);
    let a = add_block(
        world,
        space,
        f,
        inner,
        at,
        at + 4,
        held,
        fr.break_required,
        tally,
    )?;
    lower(&mut space.parts.slots, at);
    Ok(a)
}

// `If`.
#[cycle(walk)]
pub fn add_if(
    world: &World,
    space: &mut Workspace,
    fr: Frame,
    b: BlockHandle,
    row: Kinded,
    tally: Tally,
) -> Answered
    requires arms { ArmsOf world.now space.old fr b.0 row tally.sum tally.visits }
    requires kind_value { row.kind ≡ 2 }
    ensures { StatementEndsOf world.now space.old fr (add_if (module_by world.now) (blocks_by world.now fr.function.0) (frame_of space.old.parts.cells space.old.parts.slots fr) (operand_at world.now.typed.now.file.now.bytes row 0) (operand_at world.now.typed.now.file.now.bytes row 1) (operand_at world.now.typed.now.file.now.bytes row 2) (state_by world.now space.old fr.function.0 fr.at tally.visits)) StatementReq.If result space.new }
{
    let f = fr.function;
    let at = fr.at;
    let file = world.typed.file;
    let accept = file.block_operand(row, 1);
    let reject = file.block_operand(row, 2);
    let parts = &space.parts;
    let held = fr.held + weigh(&parts.cells, &parts.slots, at, 4);
    let a = add_pair(
        world,
        space,
        f,
        b,
        accept,
        reject,
        at,
        at + 4,
        held,
        fr.break_required,
        tally,
    )?;
    let condition = file.expression_operand(row, 0);
    let cells = &mut space.parts.cells;
    let slots = &mut space.parts.slots;
    end_if(file, cells, slots, fr, condition, a.required, a.tally)
}

// `Switch`: the cases, the last first, joined behind the current context.
#[cycle(walk)]
pub fn add_switch(
    world: &World,
    space: &mut Workspace,
    fr: Frame,
    b: BlockHandle,
    row: Kinded,
    began: Tally,
) -> Answered
    requires arms { ArmsOf world.now space.old fr b.0 row began.sum began.visits }
    requires kind_value { row.kind ≡ 3 }
    ensures { StatementEndsOf world.now space.old fr (add_switch (module_by world.now) (blocks_by world.now fr.function.0) (frame_of space.old.parts.cells space.old.parts.slots fr) (operand_at world.now.typed.now.file.now.bytes row 0) (tab (operand_at world.now.typed.now.file.now.bytes row 1) (case_of (operand_at world.now.typed.now.file.now.bytes row))) (state_by world.now space.old fr.function.0 fr.at began.visits)) StatementReq.Switch result space.new }
{
    let f = fr.function;
    let at = fr.at;
    let parts = &space.parts;
    let outside = fr.held + weigh(&parts.cells, &parts.slots, at, 4);
    copy_context(&mut space.parts.slots, at, at + 4);
    let mut tally = began;
    let mut any = false;
    for k in (0..world.typed.file.operand(row, 1)).rev() {
        let body = case_body(world.typed.file, row, k);
        let parts = &space.parts;
        let held = outside + weigh(&parts.cells, &parts.slots, at + 4, 4);
        let a = add_block(world, space, f, body, at, at + 8, held, false, tally)?;
        let cells = &mut space.parts.cells;
        let slots = &mut space.parts.slots;
        end_case(cells, slots, at + 4).ok_or(fr.halt(Refusal::PartLimit))?;
        tally = a.tally;
        any |= a.required;
    }
    let selector = world.typed.file.expression_operand(row, 0);
    let cells = &mut space.parts.cells;
    let slots = &mut space.parts.slots;
    end_switch(world.typed.file, cells, slots, fr, selector, any, tally)
}

// `Loop`: the first pass, and the turns where it is required. It is not inlined: the walk calls itself, and would hold its frame on every level of blocks.
#[cycle(walk)]
#[inline(never)]
pub fn add_loop(
    world: &World,
    space: &mut Workspace,
    fr: Frame,
    b: BlockHandle,
    row: Kinded,
    tally: Tally,
) -> Answered
    requires arms { ArmsOf world.now space.old fr b.0 row tally.sum tally.visits }
    requires kind_value { row.kind ≡ 4 }
    ensures { StatementEndsOf world.now space.old fr (add_loop (module_by world.now) (blocks_by world.now fr.function.0) (frame_of space.old.parts.cells space.old.parts.slots fr) (operand_at world.now.typed.now.file.now.bytes row 0) (operand_at world.now.typed.now.file.now.bytes row 1) (option_of (operand_at world.now.typed.now.file.now.bytes row 2)) (state_by world.now space.old fr.function.0 fr.at tally.visits)) StatementReq.Loop result space.new }
{
    let f = fr.function;
    let at = fr.at;
    let body = world.typed.file.block_operand(row, 0);
    let continuing = world.typed.file.block_operand(row, 1);
    let parts = &space.parts;
    let held = fr.held + weigh(&parts.cells, &parts.slots, at, 4);
    let a = add_pair(
        world,
        space,
        f,
        b,
        body,
        continuing,
        at,
        at + 4,
        held,
        false,
        tally,
    )?;
    if !a.required {
        drop_both(&mut space.parts.slots, at);
        return Ok(a);
    }
    let break_if = world.typed.file.optional_expression(row, 2);
    let cells = &mut space.parts.cells;
    let slots = &mut space.parts.slots;
    let left = end_pass(world.typed.file, cells, slots, fr, break_if, a.tally)?;
    add_turns(world, space, fr, b, body, continuing, left)
}

// The turns, each from the working context behind the current one, until that contains what a turn leaves.
#[cycle(walk)]
fn add_turns(
    world: &World,
    space: &mut Workspace,
    fr: Frame,
    b: BlockHandle,
    body: BlockHandle,
    continuing: BlockHandle,
    began: Tally,
) -> Answered
    requires { TurningOf world.now space.old fr b.0 body.0 continuing.0 began.sum began.visits }
    ensures { StatementEndsOf world.now space.old fr (turns (blocks_by world.now fr.function.0) (frame_of space.old.parts.cells space.old.parts.slots fr) (fr.held + context_in space.old.parts.cells space.old.parts.slots fr.at + context_in space.old.parts.cells space.old.parts.slots (fr.at + 4)) body.0 continuing.0 (context_at (read space.old.parts.cells space.old.parts.slots) (fr.at + 4)) max_turns (state_by world.now space.old fr.function.0 (fr.at + 4) began.visits)) StatementReq.Loop result space.new }
{
    let f = fr.function;
    let at = fr.at;
    let parts = &space.parts;
    let held = fr.held
        + weigh(&parts.cells, &parts.slots, at, 4)
        + weigh(&parts.cells, &parts.slots, at + 4, 4);
    let mut tally = began;
    for left in (0..MAX_TURNS).rev() {
        let a = add_pair(
            world,
            space,
            f,
            b,
            body,
            continuing,
            at + 4,
            at + 8,
            held,
            true,
            tally,
        )?;
        tally = a.tally;
        match end_turn(&mut space.parts.cells, &mut space.parts.slots, at) {
            Turn::Over => return Err(fr.halt(Refusal::PartLimit)),
            Turn::Settled => {
                return Ok(Answer {
                    tally,
                    required: true,
                });
            }
            Turn::Again => {}
        }
    }
    Err(fr.halt(Refusal::Unsettled))
}

// `Call`, with its marks. It is not inlined: the walk calls itself, and would hold its frame on every level of blocks.
#[cycle(walk)]
#[inline(never)]
pub fn add_call(
    world: &World,
    space: &mut Workspace,
    fr: Frame,
    b: BlockHandle,
    row: Kinded,
    tally: Tally,
) -> Answered
    requires arms { ArmsOf world.now space.old fr b.0 row tally.sum tally.visits }
    requires kind_value { row.kind ≡ 14 }
    ensures { StatementEndsOf world.now space.old fr (marked (module_by world.now) (frame_of space.old.parts.cells space.old.parts.slots fr) (add_statement (module_by world.now) (add_function (module_by world.now)) (blocks_by world.now fr.function.0) (frame_of space.old.parts.cells space.old.parts.slots fr) (statement_of row.kind (operand_at world.now.typed.now.file.now.bytes row)) (state_by world.now space.old fr.function.0 fr.at tally.visits))) (λ b. b) result space.new }
{
    let f = fr.function;
    let at = fr.at;
    let file = world.typed.file;
    let g = file.function_operand(row, 0);
    let starts = &world.places.starts;
    let cells = &mut space.parts.cells;
    let slots = &mut space.parts.slots;
    let open = &mut space.open;
    let begun = begin_call(file, starts, cells, slots, open, fr, row, tally.sum);
    let own = begun.own;
    let others = Tally {
        sum: tally.sum - own,
        ..tally
    };
    let here = Place::Statement(f, fr.statement);
    let a = add_function(world, space, g, at + 4, here, begun.held, others)?;
    let cells = &mut space.parts.cells;
    let slots = &mut space.parts.slots;
    let sum = leave_call(file, cells, slots, g, at, a.tally.sum + own);
    let left = Tally { sum, ..a.tally };
    let firsts = &world.places.firsts;
    let open = &mut space.open;
    return_call(file, firsts, cells, slots, open, fr, row, a.required, left)
}
