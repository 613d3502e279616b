// The shape of what stands at a place, as a value.
ghost use Rattle.std.specs.Prelude.{◌≡◌, List, ℕ};
ghost use Rattle.context.specs.Types.{types_of};
ghost use Rattle.clearance.specs.Shape.{member, extent, is_void, is_whole};
ghost use Rattle.clearance.specs.Scope.{vector_shape};
ghost use Rattle.forms.specs.ShapeBy.{shape_in, shape_by, Parted};

use crate::types::Types;
use bindings::types::first_word;
use judge::rows::{base_at, kind_at, second_word};
use judge::shapes::part_count;
use module::handles::TypeHandle;
use module::kinds::TypeKind;
use part::limits::SPINE;

// Nothing, a number, a vector of so many components, or what a type has.
#[derive(Clone, Copy)]
pub enum Form {
    Void,
    Number,
    Vector(u32),
    Of(TypeHandle),
}

// How many parts the type t has, one level down: of an array without a count as many as a file has indexes.
fn type_extent(types: &[u32], t: TypeHandle) -> u32
    ensures { result ≡ extent (shape_in (types_of types.now) t.0) }
{
    let n = part_count(types, t);
    match kind_at(types, t) {
        TypeKind::BindingArray => SPINE,
        TypeKind::Array => if n == 0 { SPINE } else { n },
        _ => n,
    }
}

// The shape of the part i of the type t.
fn type_member(types: &Types, t: TypeHandle, i: u32) -> Form
    ensures { shape_by types.now.rows.now result ≡ member (shape_in (types_of types.now.rows.now) t.0) i }
{
    if type_extent(types.rows, t) <= i {
        return Form::Void;
    }
    match kind_at(types.rows, t) {
        TypeKind::Vector => Form::Number,
        TypeKind::Matrix => Form::Vector(second_word(types.rows, t)),
        TypeKind::Struct => Form::Of(base_at(types.rows, t, i)),
        _ => Form::Of(base_at(types.rows, t, 0)),
    }
}

// The shape of the part i of a vector of size n.
fn component(n: u32, i: u32) -> Form
    ensures { (types : List ℕ) → shape_by types result ≡ member (vector_shape n) i }
{
    if i < n { Form::Number } else { Form::Void }
}

// Whether the type t is an array's.
fn whole_type(types: &[u32], t: TypeHandle) -> bool
    ensures { result ≡ is_whole (shape_in (types_of types.now) t.0) }
{
    matches!(kind_at(types, t), TypeKind::Array | TypeKind::BindingArray)
}

// Into how many parts all of the type t is split, if it is.
fn type_split(types: &[u32], t: TypeHandle) -> Option<u32>
    ensures { Parted (shape_in (types_of types.now) t.0) result }
{
    match kind_at(types, t) {
        TypeKind::Vector | TypeKind::Matrix | TypeKind::Struct => Some(first_word(types, t)),
        _ => None,
    }
}

impl Form {
    // The shape of the part i.
    pub fn member(self, types: &Types, i: u32) -> Form
        ensures { shape_by types.now.rows.now result ≡ member (shape_by types.now.rows.now self) i }
    {
        match self {
            Form::Void | Form::Number => Form::Void,
            Form::Vector(n) => component(n, i),
            Form::Of(t) => type_member(types, t, i),
        }
    }

    pub fn is_void(self) -> bool
        ensures { (types : List ℕ) → result ≡ is_void (shape_by types self) }
    {
        matches!(self, Form::Void)
    }

    // Whether it is taken out whole or not at all.
    pub fn is_whole(self, types: &[u32]) -> bool
        ensures { result ≡ is_whole (shape_by types.now self) }
    {
        match self {
            Form::Of(t) => whole_type(types, t),
            _ => false,
        }
    }

    // Into how many parts all of it is split, if it is.
    pub fn split(self, types: &[u32]) -> Option<u32>
        ensures { Parted (shape_by types.now self) result }
    {
        match self {
            Form::Void | Form::Number => None,
            Form::Vector(n) => Some(n),
            Form::Of(t) => type_split(types, t),
        }
    }
}
