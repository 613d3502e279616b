// Shapes of types: which are alike, a part's, an element's and a pointee's.
ghost use Rattle.std.specs.Prelude.{◌≡◌, ◌<◌, length, get_or};
ghost use Rattle.module.specs.Module.{Opaque, Vector};
ghost use Rattle.context.specs.Types.{types_of};
ghost use Rattle.clearance.specs.Scope.{inner};
ghost use Rattle.clearance.specs.Judged.{part_type, element_type, same, same_part};
ghost use Rattle.judge.specs.Alike.{by_table, Lower};
ghost use Rattle.judge.specs.Shapes.{InTypes, Shapes, Pointee, part_count};

use crate::rows::{base_at, kind_at, second_word};
use crate::subject::Subject;
use bindings::types::first_word;
use module::handles::TypeHandle;
use module::kinds::TypeKind;
use module::tables::word;

// Whether the table says that two types are alike.
pub fn is_alike(alike: &[u32], a: TypeHandle, b: TypeHandle) -> bool
    ensures { result ≡ by_table alike.now a.0 b.0 }
{
    word(alike, a.0 as usize) == word(alike, b.0 as usize)
}

// Whether the type b is a vector of size n.
pub fn is_vector_of(types: &[u32], n: u32, b: TypeHandle) -> bool
    ensures { InTypes types.now (λ S. same S (Vector n) (inner S b.0)) result }
{
    match kind_at(types, b) {
        TypeKind::Vector => n == first_word(types, b),
        _ => false,
    }
}

// How many parts the type a has.
pub fn part_count(types: &[u32], a: TypeHandle) -> u32
    ensures { result ≡ part_count (get_or (types_of types.now) a.0 Opaque) }
{
    match kind_at(types, a) {
        TypeKind::Array => second_word(types, a),
        TypeKind::Vector | TypeKind::Matrix | TypeKind::Struct => first_word(types, a),
        _ => 0,
    }
}

// Whether what a dynamic index of the type a gives is of b's shape. As the next two it asks for the tables of types alone, and so stands beside the method.
pub fn same_element(types: &[u32], alike: &[u32], a: TypeHandle, b: TypeHandle) -> bool
    requires shapes { Shapes types.now alike.now }
    requires a_in_bounds { a.0 < length (types_of types.now) }
    requires b_in_bounds { b.0 < length (types_of types.now) }
    ensures { InTypes types.now (λ S. same_part S (element_type S (inner S a.0)) (inner S b.0)) result }
{
    match kind_at(types, a) {
        TypeKind::Vector => kind_at(types, b) == TypeKind::Scalar,
        TypeKind::Matrix => is_vector_of(types, second_word(types, a), b),
        TypeKind::Array => is_alike(alike, TypeHandle(first_word(types, a)), b),
        _ => false,
    }
}

// Whether the part i of the type a is there and of b's shape.
pub fn same_part(types: &[u32], alike: &[u32], a: TypeHandle, i: u32, b: TypeHandle) -> bool
    requires shapes { Shapes types.now alike.now }
    requires a_in_bounds { a.0 < length (types_of types.now) }
    requires b_in_bounds { b.0 < length (types_of types.now) }
    ensures { InTypes types.now (λ S. same_part S (part_type S (inner S a.0) i) (inner S b.0)) result }
{
    if part_count(types, a) <= i {
        return false;
    }
    match kind_at(types, a) {
        TypeKind::Struct => is_alike(alike, base_at(types, a, i), b),
        _ => same_element(types, alike, a, b),
    }
}

// What a pointer of the type a leads to, or a where it is no pointer's type.
pub fn pointee(types: &[u32], a: TypeHandle) -> TypeHandle
    requires { Lower (types_of types.now) }
    ensures { Pointee types.now a.0 result.0 }
{
    match kind_at(types, a) {
        TypeKind::Pointer => TypeHandle(first_word(types, a)),
        _ => a,
    }
}

impl<'a> Subject<'a> {
    // Whether what a dynamic index of the type a gives is of b's shape.
    pub(crate) fn same_element(&self, a: TypeHandle, b: TypeHandle) -> bool
        requires a_in_bounds { a.0 < length (types_of self.now.types.now) }
        requires b_in_bounds { b.0 < length (types_of self.now.types.now) }
        ensures { InTypes self.now.types.now (λ S. same_part S (element_type S (inner S a.0)) (inner S b.0)) result }
    {
        same_element(self.types, self.alike, a, b)
    }

    // Whether the part i of the type a is there and of b's shape.
    pub(crate) fn same_part(&self, a: TypeHandle, i: u32, b: TypeHandle) -> bool
        requires a_in_bounds { a.0 < length (types_of self.now.types.now) }
        requires b_in_bounds { b.0 < length (types_of self.now.types.now) }
        ensures { InTypes self.now.types.now (λ S. same_part S (part_type S (inner S a.0) i) (inner S b.0)) result }
    {
        same_part(self.types, self.alike, a, i, b)
    }

    // What a pointer of the type a leads to, or a where it is no pointer's type.
    pub(crate) fn pointee(&self, a: TypeHandle) -> TypeHandle
        ensures { Pointee self.now.types.now a.0 result.0 }
    {
        pointee(self.types, a)
    }
}
