// The arms that ask their operands in the fields' order, each in its way.
ghost use Rattle.std.specs.Prelude.{◌≡◌};
ghost use Rattle.access.specs.Access.{operand_at, handle_in};
ghost use Rattle.memory.specs.Memory.{Memory};
ghost use Rattle.memory.specs.Want.{asked, Wants};
ghost use Rattle.asks.specs.Asks.{Told};
ghost use Rattle.asks.specs.Ways.{chosen, part_by, field_asks, fields, ways_of, way_number, WaysOf, By};

use crate::what::Ask;
use access::file::File;
use access::kinded::Kinded;
use memory::layout::{ALL, EXIST};
use memory::want::{Want, want_of};
use module::handles::ExpressionHandle;
use module::kinds::ExpressionKind;

// The codes of a sample's level that handles follow: two behind a gradient, one behind the others.
const EXACT: u16 = 2;

const BIAS: u16 = 3;

const GRADIENT: u16 = 4;

// How a field is asked: not at all, the part that is asked of the expression, all, exist, or all where the operand is there.
#[derive(Clone, Copy)]
enum Way {
    Skip,
    Part,
    All,
    Exist,
    Maybe,
}

// The ways of a sample's fields, by its level's code: the code is no operand, then come the level's handles and the depth reference.
fn sample_ways(code: u16) -> &'static [Way]
    ensures { WaysOf 13 code result.now }
{
    match code {
        EXACT | BIAS => &[
            Way::All,
            Way::All,
            Way::All,
            Way::Maybe,
            Way::Skip,
            Way::All,
            Way::Maybe,
        ],
        GRADIENT => &[
            Way::All,
            Way::All,
            Way::All,
            Way::Maybe,
            Way::Skip,
            Way::All,
            Way::All,
            Way::Maybe,
        ],
        _ => &[
            Way::All,
            Way::All,
            Way::All,
            Way::Maybe,
            Way::Skip,
            Way::Maybe,
        ],
    }
}

// The ways of the fields of an expression, none where the arm is of another sort.
fn ways(file: &File, row: Kinded) -> &'static [Way]
    ensures { WaysOf row.kind (operand_at file.now.bytes row 4) result.now }
{
    match ExpressionKind::try_from(row.kind) {
        Ok(ExpressionKind::Access) => &[Way::All, Way::All],
        Ok(
            ExpressionKind::Splat
            | ExpressionKind::Derivative
            | ExpressionKind::Relational
            | ExpressionKind::RayQueryGetIntersection,
        ) => &[Way::All],
        Ok(ExpressionKind::Load | ExpressionKind::Unary | ExpressionKind::As) => &[Way::Part],
        Ok(ExpressionKind::ImageSample) => sample_ways(file.operand(row, 4)),
        Ok(ExpressionKind::ImageLoad) => {
            &[Way::All, Way::All, Way::Maybe, Way::Maybe, Way::Maybe]
        }
        Ok(ExpressionKind::ImageQuery) => &[Way::All, Way::Maybe],
        Ok(ExpressionKind::Binary) => &[Way::Part, Way::Part],
        Ok(ExpressionKind::Select) => &[Way::All, Way::Part, Way::Part],
        Ok(ExpressionKind::Math) => &[Way::All, Way::Maybe, Way::Maybe, Way::Maybe],
        Ok(ExpressionKind::ArrayLength) => &[Way::Exist],
        _ => &[],
    }
}

// The operand of the field k, where it is asked in this way.
fn chosen(file: &File, row: Kinded, k: u16, way: Way) -> Option<ExpressionHandle>
    ensures { handle_in result ≡ chosen (way_number way) (operand_at file.now.bytes row k) }
{
    match way {
        Way::Skip => None,
        Way::Maybe => file.optional_expression(row, k),
        Way::Part | Way::All | Way::Exist => Some(file.expression_operand(row, k)),
    }
}

// What is asked of it.
fn want_by(cells: &[u32], slots: &[u32], w: Want, way: Way) -> Want
    requires { Memory cells.now slots.now × Wants cells.now slots.now w }
    ensures { By cells.now slots.now (part_by (way_number way) (asked cells.now slots.now w)) result }
{
    match way {
        Way::Part => w,
        Way::Exist => want_of(EXIST),
        Way::Skip | Way::All | Way::Maybe => want_of(ALL),
    }
}

// The j-th of the operands that are asked.
pub fn field_ask(
    file: &File,
    cells: &[u32],
    slots: &[u32],
    row: Kinded,
    w: Want,
    j: u32,
) -> Option<Ask>
    requires { Memory cells.now slots.now × Wants cells.now slots.now w }
    ensures { Told cells.now slots.now w (field_asks fields (ways_of row.kind (operand_at file.now.bytes row 4)) (operand_at file.now.bytes row) 0 (asked cells.now slots.now w)) j result }
{
    let mut skip = j;
    let ways = ways(file, row);
    for (k, &way) in ways.iter().enumerate() {
        if let Some(x) = chosen(file, row, k as u16, way) {
            if skip == 0 {
                return Some(Ask::Operand(x, want_by(cells, slots, w, way)));
            }
            skip -= 1;
        }
    }
    None
}
