// Records that have a kind: expressions, statements. Their operands are asked for by number.
ghost use Rattle.std.specs.Prelude.{◌≡◌, ◌<◌};
ghost use Rattle.module.specs.Decode.{option_of};
ghost use Rattle.access.specs.Access.{operand_at, handle_in, expression_number, expression_row, statement_row};

use crate::file::File;
use crate::whole::unless_absent;
use module::handles::{BlockHandle, ExpressionHandle, FunctionHandle, GlobalHandle, LocalHandle};
use module::record::body;
use module::tables::{item, row_at};

// The kind of a record, its place, and how many fields stand before its operands.
// Stays: the kind is its number, as in the file and in the definitions. The bytes may be any, so a decoded one would be a Result that each clause about
// `row.kind` and each `match` unpacks; where code looks at it, `try_from` stands there.
#[derive(Clone, Copy, Debug, PartialEq, Eq)]
pub struct Kinded {
    pub kind: u16,
    pub offset: u32,
    pub before: u16,
}

impl<'a> File<'a> {
    // The operands' field j; 0 past the last.
    pub fn operand(&self, row: Kinded, j: u16) -> u16
        ensures { result ≡ operand_at self.now.bytes row j }
    {
        body(self.bytes, row.offset, (row.before as u32) + (j as u32))
    }

    // The same as the handle that it is.
    // Stays: a function for each handle. One over a type parameter asks for a From of each handle, which is longer, and says no more.
    pub fn expression_operand(&self, row: Kinded, j: u16) -> ExpressionHandle
        ensures { result.0 ≡ operand_at self.now.bytes row j }
    {
        ExpressionHandle(self.operand(row, j) as u32)
    }

    // An expression that a file may leave out.
    pub fn optional_expression(&self, row: Kinded, j: u16) -> Option<ExpressionHandle>
        ensures { handle_in result ≡ option_of (operand_at self.now.bytes row j) }
    {
        let number = unless_absent(self.operand(row, j) as u32)?;
        Some(ExpressionHandle(number))
    }

    pub fn global_operand(&self, row: Kinded, j: u16) -> GlobalHandle
        ensures { result.0 ≡ operand_at self.now.bytes row j }
    {
        GlobalHandle(self.operand(row, j) as u32)
    }

    pub fn local_operand(&self, row: Kinded, j: u16) -> LocalHandle
        ensures { result.0 ≡ operand_at self.now.bytes row j }
    {
        LocalHandle(self.operand(row, j) as u32)
    }

    pub fn function_operand(&self, row: Kinded, j: u16) -> FunctionHandle
        ensures { result.0 ≡ operand_at self.now.bytes row j }
    {
        FunctionHandle(self.operand(row, j) as u32)
    }

    // A switch has two operands for each of fewer than 65536 cases.
    pub fn block_operand(&self, row: Kinded, j: u32) -> BlockHandle
        requires { j < 200000 }
        ensures { result.0 ≡ operand_at self.now.bytes row j }
    {
        BlockHandle(body(self.bytes, row.offset, (row.before as u32) + j) as u32)
    }

    // The number of an expression among the items of the file.
    pub fn expression_number(&self, f: FunctionHandle, e: ExpressionHandle) -> usize
        ensures { result ≡ expression_number self.now.t f.0 e.0 }
    {
        let row = row_at(self.t, f);
        row.expressions_from() + (e.0 as usize)
    }

    pub fn expression(&self, f: FunctionHandle, e: ExpressionHandle) -> Kinded
        ensures { result ≡ expression_row self.now.bytes self.now.t f.0 e.0 }
    {
        let row = row_at(self.t, f);
        let offset = item(self.t, row.expressions_from() + (e.0 as usize));
        Kinded {
            kind: body(self.bytes, offset, 1),
            offset,
            before: 2,
        }
    }

    pub fn statement(&self, f: FunctionHandle, s: u32) -> Kinded
        ensures { result ≡ statement_row self.now.bytes self.now.t f.0 s }
    {
        let row = row_at(self.t, f);
        let offset = item(self.t, row.statements_from() + (s as usize));
        Kinded {
            kind: body(self.bytes, offset, 0),
            offset,
            before: 1,
        }
    }
}
