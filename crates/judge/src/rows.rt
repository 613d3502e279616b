// A type's kind, and the types that it is made of, by its row in the table of types.
// Stays: a slice. A `Rows(&[u32])` without a fact has calls as long as these (`rows.kind(t)` for `kind_at(rows, t)`, 58 of them with forms and operands),
// and 59 clauses that say `types.0.now`. One with a fact would ask for it, where these hold for any words; what asks for `Shapes` is a method of `Subject`.
ghost use Rattle.std.specs.Prelude.{◌≡◌, ◌<◌, length, get_or};
ghost use Rattle.module.specs.Module.{Opaque};
ghost use Rattle.context.specs.Types.{type_word, types_of};
ghost use Rattle.clearance.specs.Scope.{kind, bases};
ghost use Rattle.module.specs.KindNumbers.{type_number};

use bindings::types::first_word;
use context::remove::{TYPE_WORDS, type_kind, type_word};
use module::handles::TypeHandle;
use module::kinds::TypeKind;
use module::tables::word;

// The kind of the type t.
// Stays: beside `type_kind` (context), which says the number in the row. This says the kind of the definition, as 83 answers cite it; context has none.
pub fn kind_at(types: &[u32], t: TypeHandle) -> TypeKind
    ensures { type_number result ≡ get_or (kind (get_or (types_of types.now) t.0 Opaque)) 0 0 }
{
    type_kind(types, t)
}

// The second word after the kind: a matrix' rows, or an array's count.
pub fn second_word(types: &[u32], t: TypeHandle) -> u32
    ensures { result ≡ type_word types.now t.0 2 }
{
    type_word(types, t, 2)
}

// How many types the type t is made of.
pub fn base_count(types: &[u32], t: TypeHandle) -> u32
    ensures { result ≡ length (bases (get_or (types_of types.now) t.0 Opaque)) }
{
    match kind_at(types, t) {
        TypeKind::Struct => first_word(types, t),
        TypeKind::Pointer | TypeKind::Array | TypeKind::BindingArray => 1,
        _ => 0,
    }
}

// The i-th of them.
pub fn base_at(types: &[u32], t: TypeHandle, i: u32) -> TypeHandle
    requires { i < length (bases (get_or (types_of types.now) t.0 Opaque)) }
    ensures { result.0 ≡ get_or (bases (get_or (types_of types.now) t.0 Opaque)) i 0 }
{
    match kind_at(types, t) {
        TypeKind::Struct => {
            TypeHandle(word(types, TYPE_WORDS * (t.0 as usize) + (2 + 2 * (i as usize))))
        }
        _ => TypeHandle(first_word(types, t)),
    }
}
