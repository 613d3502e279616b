// The whole module: how many of each it has, and the types of globals.
ghost use Rattle.std.specs.Prelude.{◌≡◌, List, ℕ, get_or, length};
ghost use Rattle.module.specs.Decode.{option_of};
ghost use Rattle.module.specs.Tables.{type_body, module_of};
ghost use Rattle.access.specs.Access.{global_at, number_in};

use crate::file::File;
use field::limits::ABSENT;
use module::access::{global_type, type_field};
use module::handles::{GlobalHandle, TypeHandle};
use module::tables::{HEAD, word};

// A type, and the binding of what has it, where that has one.
#[derive(Clone, Copy, Debug, PartialEq, Eq)]
pub struct Bound {
    pub ty: TypeHandle,
    pub binding: Option<u32>,
}

// A number that a file may leave out, by its field.
pub fn unless_absent(number: u32) -> Option<u32>
    ensures { number_in result ≡ option_of number }
{
    if number == ABSENT as u32 {
        return None;
    }
    Some(number)
}

// How many the tables alone say that there are, whatever the bytes.
pub fn types(t: &[u32]) -> u32
    ensures { (bytes : List ℕ) → result ≡ length (module_of bytes t.now).types }
{
    word(t, HEAD)
}

pub fn globals(t: &[u32]) -> u32
    ensures { (bytes : List ℕ) → result ≡ length (module_of bytes t.now).globals }
{
    word(t, HEAD + 1)
}

pub fn functions(t: &[u32]) -> u32
    ensures { (bytes : List ℕ) → result ≡ length (module_of bytes t.now).functions }
{
    word(t, HEAD + 2)
}

impl<'a> File<'a> {
    pub fn types(&self) -> u32
        ensures { result ≡ length (module_of self.now.bytes self.now.t).types }
    {
        types(self.t)
    }

    pub fn globals(&self) -> u32
        ensures { result ≡ length (module_of self.now.bytes self.now.t).globals }
    {
        globals(self.t)
    }

    pub fn functions(&self) -> u32
        ensures { result ≡ length (module_of self.now.bytes self.now.t).functions }
    {
        functions(self.t)
    }

    pub fn global(&self, g: GlobalHandle) -> TypeHandle
        ensures { result.0 ≡ global_at self.now.bytes self.now.t g.0 }
    {
        TypeHandle(global_type(self.bytes, self.t, g) as u32)
    }

    // The field j of a type's record: its kind is the field 0, and its operands follow.
    pub fn type_field(&self, h: TypeHandle, j: u32) -> u16
        ensures { result ≡ get_or (type_body self.now.bytes self.now.t h.0) j 0 }
    {
        type_field(self.bytes, self.t, h, j)
    }
}
