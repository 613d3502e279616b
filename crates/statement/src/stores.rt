// `Store` and `ImageStore`.
ghost use Rattle.std.specs.Prelude.{◌≡◌};
ghost use Rattle.module.specs.Decode.{statement_of};
ghost use Rattle.access.specs.Access.{operand_at};
ghost use Rattle.statement.specs.Leaf.{Arm, Leaves};
ghost use Rattle.statement.specs.Fields.{StoreKind, fields_of, store_fields, Fielding, Fielded};

use crate::ask::{answer, then_ask, then_maybe};
use crate::store::store;
use access::file::File;
use access::kinded::Kinded;
use memory::layout::{ALL, ASK, EXIST};
use module::handles::ExpressionHandle;
use module::kinds::StatementKind;
use state::answer::{Answer, Answered, Tally, Walked};
use state::frame::Frame;
use type_table::typed::TypedFile;

// The fields of a store: coordinate and array index are an image's, absent where it is none.
#[derive(Clone, Copy)]
pub struct Fields {
    pub pointer: ExpressionHandle,
    pub coordinate: Option<ExpressionHandle>,
    pub index: Option<ExpressionHandle>,
    pub value: ExpressionHandle,
}

fn store_fields(file: &File, row: Kinded) -> Fields
    ensures { fields_of result ≡ store_fields row.kind (operand_at file.now.bytes row) }
{
    let pointer = file.expression_operand(row, 0);
    let next = file.expression_operand(row, 1);
    match StatementKind::try_from(row.kind) {
        Ok(StatementKind::ImageStore) => Fields {
            pointer,
            coordinate: Some(next),
            index: file.optional_expression(row, 2),
            value: file.expression_operand(row, 3),
        },
        _ => Fields {
            pointer,
            coordinate: None,
            index: None,
            value: next,
        },
    }
}

// What a store asks once its target is taken out.
fn ask_fields(
    file: &File,
    cells: &mut [u32],
    slots: &mut [u32],
    fr: Frame,
    x: Fields,
    tally: Tally,
) -> Walked
    requires { Fielding file.now.bytes file.now.t cells.old slots.old fr (fields_of x) tally.sum }
    ensures { Fielded file.now.bytes file.now.t cells.old slots.old fr (fields_of x) tally.visits result cells.new slots.new }
{
    let a = then_ask(file, cells, slots, fr, Ok(tally), x.pointer, EXIST);
    let b = then_maybe(file, cells, slots, fr, a, x.coordinate, ALL);
    let c = then_maybe(file, cells, slots, fr, b, x.index, EXIST);
    then_ask(file, cells, slots, fr, c, x.value, ASK)
}

// A store of which nothing is needed is not required.
pub fn add_store(
    typed: &TypedFile,
    cells: &mut [u32],
    slots: &mut [u32],
    fr: Frame,
    row: Kinded,
    tally: Tally,
) -> Answered
    requires arm { Arm typed.now.file.now.bytes typed.now.file.now.t cells.old slots.old fr row tally.sum }
    requires store_kind { StoreKind row.kind }
    ensures { Leaves typed.now.file.now.bytes typed.now.file.now.t cells.old slots.old fr (statement_of row.kind (operand_at typed.now.file.now.bytes row)) tally.visits result cells.new slots.new }
{
    let file = typed.file;
    let x = store_fields(file, row);
    let needed = store(typed, cells, slots, fr, x.pointer)?;
    if !needed {
        return Ok(Answer {
            tally,
            required: false,
        });
    }
    let r = ask_fields(file, cells, slots, fr, x, tally);
    answer(r, true)
}
