// The checks of one record: where its mark may stand (3), the limits (4), the values and the length (5).
ghost use Rattle.std.specs.Prelude.{◌≡◌, ◌&&◌, [], ◌+◌, ◌*◌, ◌≤◌};
ghost use Rattle.std.specs.Option.{is_some};
ghost use Rattle.module.specs.Record.{body_at, even};
ghost use Rattle.module.specs.Packed.{unpack, classes};
ghost use Rattle.module.specs.File.{placed, count_over, over, fine};
ghost use Rattle.module.specs.Scan.{Fresh, Stamped};
ghost use Rattle.module.specs.Tables.{scope_in};
ghost use Rattle.module.specs.Checks.{before_of, shape_in, typed_in};

use crate::kinds::{ExpressionKind, StatementKind, TypeKind};
use crate::operands::{Scope, operands};
use crate::record::{Fields, Mark, Record};
use crate::shape::{T, TD, WY, expression_shape, statement_shape, type_shape};
use crate::tables::{
    Counts, IN_ARGUMENTS, IN_BLOCKS, IN_EXPRESSIONS, IN_GLOBALS, IN_LOCALS, IN_TYPES,
};
use field::limits::{
    MAX_ARGUMENTS, MAX_COMPONENTS, MAX_EXPRESSIONS, MAX_FUNCTIONS, MAX_GLOBALS, MAX_LOCALS,
    MAX_MEMBERS, MAX_STATEMENTS, MAX_TYPES,
};

// 3: whether a mark may stand here.
#[tactic(auto, unfolding(crate::specs::File::placed))]
pub fn placed(mark: Mark, stage: u32) -> bool
    ensures { result ≡ placed mark stage }
{
    match mark {
        Mark::TY => stage == IN_TYPES,
        Mark::GV => stage <= IN_GLOBALS,
        Mark::FN => true,
        Mark::AR => stage == IN_ARGUMENTS,
        Mark::LV => IN_ARGUMENTS <= stage && stage <= IN_LOCALS,
        Mark::EX => IN_ARGUMENTS <= stage && stage <= IN_EXPRESSIONS,
        Mark::BK => IN_ARGUMENTS <= stage,
        Mark::ST => stage == IN_BLOCKS,
    }
}

// Stays: the checks hold at any place of any bytes, so that a record is whole is asked for where one is added, and is no ghost field.
impl<'a> Record<'a> {
    // Whether the record is of this kind, and its count field is over the limit.
    fn count_over(&self, i: u32, kind: u16, j: u32, most: usize) -> bool
        ensures { result ≡ count_over i kind j most (body_at self.now.bytes.now self.now.at) }
    {
        self.field(i) == kind && most < (self.field(j) as usize)
    }

    // 4: whether a limit is passed. No table is looked at.
    #[tactic(auto, unfolding(crate::specs::File::over, crate::specs::Tables::scope_in))]
    pub fn over(&self, c: Counts) -> bool
        ensures { result ≡ over self.now.mark (scope_in self.now.bytes.now [] c) (body_at self.now.bytes.now self.now.at) }
    {
        let row = c.row;
        match self.mark {
            Mark::TY => {
                if MAX_TYPES <= (c.types as usize) {
                    return true;
                }
                self.count_over(0, TypeKind::Struct as u16, 1, MAX_MEMBERS)
            }
            Mark::GV => MAX_GLOBALS <= (c.globals as usize),
            Mark::FN => MAX_FUNCTIONS <= (c.functions as usize),
            Mark::AR => MAX_ARGUMENTS <= (row.arguments as usize),
            Mark::LV => MAX_LOCALS <= (row.locals as usize),
            Mark::EX => {
                if MAX_EXPRESSIONS <= (row.expressions as usize) {
                    return true;
                }
                self.count_over(1, ExpressionKind::Compose as u16, 2, MAX_COMPONENTS)
            }
            Mark::BK => false,
            Mark::ST => {
                if MAX_STATEMENTS <= (row.statements as usize) {
                    return true;
                }
                self.count_over(0, StatementKind::Call as u16, 2, MAX_ARGUMENTS)
            }
        }
    }

    #[tactic(auto, unfolding(crate::specs::Checks::shape_in, crate::specs::Packed::unpack, crate::specs::Packed::class_then, crate::specs::Packed::operand_of))]
    pub fn shape(&self) -> u32
        ensures { unpack classes result ≡ shape_in self.now.mark (body_at self.now.bytes.now self.now.at) }
    {
        match self.mark {
            Mark::TY => type_shape(self.field(0)),
            Mark::GV => T,
            Mark::FN => WY,
            Mark::AR => TD,
            Mark::LV => T,
            Mark::EX => expression_shape(self.field(1)),
            Mark::BK => 0,
            Mark::ST => statement_shape(self.field(0)),
        }
    }

    // Whether the type of an expression is there.
    #[tactic(auto, unfolding(crate::specs::Checks::typed_in))]
    fn typed(&self, types: u32) -> bool
        ensures { result ≡ typed_in self.now.mark types (body_at self.now.bytes.now self.now.at) }
    {
        match self.mark {
            Mark::EX => (self.field(0) as u32) < types,
            _ => true,
        }
    }

    // 5: where the values and the length are allowed.
    pub fn fine(&self, t: &[u32], seen: &mut [u32], c: Counts) -> Option<()>
        requires fresh { Fresh seen.old (8 * self.now.at + 8) }
        requires at_bound { 8 * self.now.at + 16 ≤ 4294967295 }
        ensures value { is_some result ≡ (even self.now.bytes.now self.now.at && fine self.now.mark (scope_in self.now.bytes.now t.now c) (body_at self.now.bytes.now self.now.at)) }
        ensures stamped { Stamped seen.old seen.new (8 * self.now.at + 14) }
    {
        let len = field::field::get(self.bytes, (self.at as usize) + 2);
        if len % 2 != 0 {
            return None;
        }
        let n = (len / 2) as usize;
        let skip = before(self.mark);
        if n < skip {
            return None;
        }
        if self.typed(c.types) {
            let scope = Scope {
                bytes: self.bytes,
                t,
                counts: c,
            };
            let fields = Fields {
                end: (self.at as usize) + 4 + 2 * n,
                left: n - skip,
            };
            return operands(&scope, seen, fields, self.shape(), 8 * self.at + 8);
        }
        None
    }
}

// How many fields stand before the operands.
#[tactic(auto, unfolding(crate::specs::Checks::before_of))]
pub fn before(mark: Mark) -> usize
    ensures { result ≡ before_of mark }
{
    match mark {
        Mark::TY => 1,
        Mark::EX => 2,
        Mark::ST => 1,
        _ => 0,
    }
}
