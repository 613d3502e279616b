// Rows of the table of types.
ghost use Rattle.std.specs.Prelude.{◌≡◌, ◌<◌};
ghost use Rattle.access.specs.Access.{number_in};
ghost use Rattle.context.specs.Types.{types_of, type_word, Sized-prop, AllSized};
ghost use Rattle.bindings.specs.Rows.{member_count, BoundType-prop, AllBound, MemberIs};

use access::whole::{Bound, unless_absent};
use context::remove::{TYPE_WORDS, type_kind, type_word};
use module::handles::TypeHandle;
use module::kinds::TypeKind;
use module::tables::word;

// The first word after the kind: what a pointer or an array is of, or how many members there are.
pub fn first_word(types: &[u32], t: TypeHandle) -> u32
    ensures { result ≡ type_word types.now t.0 1 }
{
    type_word(types, t, 1)
}

// How many members the type t has.
pub fn member_count(types: &[u32], t: TypeHandle) -> u32
    ensures { result ≡ member_count types.now t.0 }
{
    match type_kind(types, t) {
        TypeKind::Struct => first_word(types, t),
        _ => 0,
    }
}

// Types by their rows, whose members' bindings are such as a file may have.
#[derive(Clone, Copy, Drop)]
pub struct BoundTypes<'a> {
    pub rows: &'a [u32],
    pub ghost all_bound: { AllBound (types_of rows.now) } by { Prim.hlevel BoundType-prop },
}

impl<'a> BoundTypes<'a> {
    // The member i of the type t.
    pub fn member_at(&self, t: TypeHandle, i: u32) -> Bound
        requires { i < member_count self.now.rows.now t.0 }
        ensures { MemberIs self.now.rows.now t.0 i result.ty.0 (number_in result.binding) }
    {
        let at = TYPE_WORDS * (t.0 as usize) + (2 + 2 * (i as usize));
        let ty = TypeHandle(word(self.rows, at));
        let binding = unless_absent(word(self.rows, at + 1));
        Bound { ty, binding }
    }
}

// Types by their rows, whose sizes and bindings are such as a file may have.
#[derive(Clone, Copy, Drop)]
pub struct FileTypes<'a> {
    pub rows: &'a [u32],
    pub ghost all_bound: { AllBound (types_of rows.now) } by { Prim.hlevel BoundType-prop },
    pub ghost all_sized: { AllSized (types_of rows.now) } by { Prim.hlevel Sized-prop },
}
