// One function of the module, by its handle.
ghost use Rattle.std.specs.Prelude.{◌≡◌, List, ℕ, pred, length};
ghost use Rattle.module.specs.Tables.{function_of};
ghost use Rattle.access.specs.Access.{argument_at, local_at, typed_at, range_at, arg_from, result_from, range_from};

use crate::file::File;
use crate::whole::{Bound, unless_absent};
use module::access::{BlockRange, block_range};
use module::handles::{BlockHandle, ExpressionHandle, FunctionHandle, LocalHandle, TypeHandle};
use module::record::body;
use module::tables::{item, row_at};

// Of the tables alone, whatever the bytes.
pub fn arguments(t: &[u32], f: FunctionHandle) -> u32
    ensures { (bytes : List ℕ) → result ≡ length (function_of bytes t.now f.0).arguments }
{
    row_at(t, f).arguments
}

pub fn locals(t: &[u32], f: FunctionHandle) -> u32
    ensures { (bytes : List ℕ) → result ≡ length (function_of bytes t.now f.0).locals }
{
    row_at(t, f).locals
}

pub fn expressions(t: &[u32], f: FunctionHandle) -> u32
    ensures { (bytes : List ℕ) → result ≡ length (function_of bytes t.now f.0).expressions }
{
    row_at(t, f).expressions
}

pub fn statements(t: &[u32], f: FunctionHandle) -> u32
    ensures { (bytes : List ℕ) → result ≡ length (function_of bytes t.now f.0).statements }
{
    row_at(t, f).statements
}

pub fn blocks(t: &[u32], f: FunctionHandle) -> u32
    ensures { (bytes : List ℕ) → result ≡ length (function_of bytes t.now f.0).blocks }
{
    row_at(t, f).blocks
}

// The body is the last block.
pub fn body_block(t: &[u32], f: FunctionHandle) -> BlockHandle
    ensures { (bytes : List ℕ) → result.0 ≡ pred (length (function_of bytes t.now f.0).blocks) }
{
    BlockHandle(blocks(t, f).saturating_sub(1))
}

impl<'a> File<'a> {
    // Stays: five counts that `row` has too, but its contract speaks of the tables, and theirs of the module, as the callers' do.
    pub fn arguments(&self, f: FunctionHandle) -> u32
        ensures { result ≡ length (function_of self.now.bytes self.now.t f.0).arguments }
    {
        arguments(self.t, f)
    }

    pub fn locals(&self, f: FunctionHandle) -> u32
        ensures { result ≡ length (function_of self.now.bytes self.now.t f.0).locals }
    {
        locals(self.t, f)
    }

    pub fn expressions(&self, f: FunctionHandle) -> u32
        ensures { result ≡ length (function_of self.now.bytes self.now.t f.0).expressions }
    {
        expressions(self.t, f)
    }

    pub fn statements(&self, f: FunctionHandle) -> u32
        ensures { result ≡ length (function_of self.now.bytes self.now.t f.0).statements }
    {
        statements(self.t, f)
    }

    pub fn blocks(&self, f: FunctionHandle) -> u32
        ensures { result ≡ length (function_of self.now.bytes self.now.t f.0).blocks }
    {
        blocks(self.t, f)
    }

    // The body is the last block.
    pub fn body_block(&self, f: FunctionHandle) -> BlockHandle
        ensures { result.0 ≡ pred (length (function_of self.now.bytes self.now.t f.0).blocks) }
    {
        body_block(self.t, f)
    }

    // The result, where the function has one.
    pub fn result(&self, f: FunctionHandle) -> Option<Bound>
        ensures { result_from result ≡ (function_of self.now.bytes self.now.t f.0).result }
    {
        let row = row_at(self.t, f);
        let ty = unless_absent(body(self.bytes, row.offset, 1) as u32)?;
        let binding = unless_absent(body(self.bytes, row.offset, 2) as u32);
        Some(Bound {
            ty: TypeHandle(ty),
            binding,
        })
    }

    pub fn argument(&self, f: FunctionHandle, i: u32) -> Bound
        ensures { arg_from result ≡ argument_at self.now.bytes self.now.t f.0 i }
    {
        let row = row_at(self.t, f);
        let offset = item(self.t, (row.items as usize) + (i as usize));
        let ty = TypeHandle(body(self.bytes, offset, 0) as u32);
        let binding = unless_absent(body(self.bytes, offset, 1) as u32);
        Bound { ty, binding }
    }

    pub fn local(&self, f: FunctionHandle, l: LocalHandle) -> TypeHandle
        ensures { result.0 ≡ local_at self.now.bytes self.now.t f.0 l.0 }
    {
        let row = row_at(self.t, f);
        let offset = item(self.t, row.locals_from() + (l.0 as usize));
        TypeHandle(body(self.bytes, offset, 0) as u32)
    }

    pub fn expression_type(&self, f: FunctionHandle, e: ExpressionHandle) -> TypeHandle
        ensures { result.0 ≡ (typed_at self.now.bytes self.now.t f.0 e.0).type }
    {
        let row = row_at(self.t, f);
        let offset = item(self.t, row.expressions_from() + (e.0 as usize));
        TypeHandle(body(self.bytes, offset, 0) as u32)
    }

    pub fn block(&self, f: FunctionHandle, b: BlockHandle) -> BlockRange
        ensures { range_from result ≡ range_at self.now.t f.0 b.0 }
    {
        let row = row_at(self.t, f);
        block_range(self.t, row, b)
    }
}
