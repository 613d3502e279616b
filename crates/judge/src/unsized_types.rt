// Types that hold an array of count 0 or a binding array, by a table. A pointer is none of them.
ghost use Rattle.std.specs.Prelude.{◌≡◌, false, not, ◌||◌, ◌≤◌, length, get_or};
ghost use Rattle.field.specs.Limits.{max_types};
ghost use Rattle.module.specs.Module.{Opaque};
ghost use Rattle.context.specs.Types.{type_count, types_of};
ghost use Rattle.clearance.specs.Scope.{bases};
ghost use Rattle.clearance.specs.Judged.{every, holds_in, pointee_holds};
ghost use Rattle.judge.specs.Alike.{Lower};
ghost use Rattle.judge.specs.Marked.{marked};
ghost use Rattle.judge.specs.Unsized.{UnsizedTable};

use crate::rows::{base_at, base_count, kind_at, second_word};
use crate::tables::is_marked;
use bindings::types::first_word;
use module::handles::TypeHandle;
use module::kinds::TypeKind;

// Whether the type t is itself an array of count 0 or a binding array.
fn is_unsized(types: &[u32], t: TypeHandle) -> bool
    ensures { result ≡ holds_in (λ b. false) (get_or (types_of types.now) t.0 Opaque) }
{
    match kind_at(types, t) {
        TypeKind::Array => second_word(types, t) == 0,
        TypeKind::BindingArray => true,
        _ => false,
    }
}

// Whether the table marks one of the types that the type t is made of.
fn some_base(types: &[u32], table: &[bool], t: TypeHandle) -> bool
    ensures { result ≡ not (every (λ b. not (marked table.now b)) (bases (get_or (types_of types.now) t.0 Opaque))) }
{
    let n = base_count(types, t);
    for i in 0..n {
        let b = base_at(types, t, i);
        if is_marked(table, b.0) {
            return true;
        }
    }
    false
}

// The type t's entry, from those of the types that it is made of. A pointer does not hold its pointee.
fn unsized_entry(types: &[u32], table: &[bool], t: TypeHandle) -> bool
    ensures { result ≡ holds_in (marked table.now) (get_or (types_of types.now) t.0 Opaque) }
{
    if kind_at(types, t) == TypeKind::Pointer {
        return false;
    }
    is_unsized(types, t) || some_base(types, table, t)
}

// The table: lowest first, since a type is made of lower ones.
// Stays: by number. `unsized_entry` reads the entries below k, and `table.iter_mut()` would hold the table lent for writing to the last entry.
pub fn fill_unsized(types: &[u32], table: &mut [bool])
    requires lower { Lower (types_of types.now) }
    requires table_len { length table.old ≡ type_count types.now }
    requires table_len_bound { length table.old ≤ max_types }
    ensures { UnsizedTable (types_of types.now) table.new }
{
    for k in 0..table.len() {
        let r = unsized_entry(types, table, TypeHandle(k as u32));
        table[k] = r;
    }
}

// Whether the table marks the type t or, of a pointer, its pointee.
pub fn holds_either(types: &[u32], table: &[bool], t: TypeHandle) -> bool
    ensures { result ≡ marked table.now t.0 || pointee_holds (marked table.now) (get_or (types_of types.now) t.0 Opaque) }
{
    is_marked(table, t.0)
        || (kind_at(types, t) == TypeKind::Pointer && is_marked(table, first_word(types, t)))
}
