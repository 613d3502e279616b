// Types fit by shape, by a table: for each type the lowest type that is alike.
ghost use Rattle.std.specs.Prelude.{◌≡◌, ◌≤◌, eqb, length, get_or};
ghost use Rattle.field.specs.Limits.{max_types};
ghost use Rattle.module.specs.Module.{Opaque};
ghost use Rattle.context.specs.Types.{type_count, types_of};
ghost use Rattle.clearance.specs.Scope.{kind, bases, pairwise, alike_inner};
ghost use Rattle.judge.specs.Alike.{by_table, Lower, Lowest, Upto, AlikeTable};

use crate::rows::{base_at, base_count, kind_at, second_word};
use bindings::types::first_word;
use module::handles::TypeHandle;
use module::kinds::TypeKind;
use module::tables::word;

// Whether two types are of one kind and have the same sizes.
fn same_kind(types: &[u32], a: TypeHandle, b: TypeHandle) -> bool
    ensures { result ≡ pairwise eqb (kind (get_or (types_of types.now) a.0 Opaque)) (kind (get_or (types_of types.now) b.0 Opaque)) }
{
    let k = kind_at(types, a);
    let l = kind_at(types, b);
    if k != l {
        return false;
    }
    match k {
        TypeKind::Vector => first_word(types, a) == first_word(types, b),
        TypeKind::Matrix => {
            first_word(types, a) == first_word(types, b)
                && second_word(types, a) == second_word(types, b)
        }
        TypeKind::Array => second_word(types, a) == second_word(types, b),
        _ => true,
    }
}

// Whether two types are made of as many types, which the table says are alike.
fn same_bases(types: &[u32], table: &[u32], a: TypeHandle, b: TypeHandle) -> bool
    ensures { result ≡ pairwise (by_table table.now) (bases (get_or (types_of types.now) a.0 Opaque)) (bases (get_or (types_of types.now) b.0 Opaque)) }
{
    let n = base_count(types, a);
    if n != base_count(types, b) {
        return false;
    }
    for i in 0..n {
        let x = base_at(types, a, i);
        let y = base_at(types, b, i);
        if word(table, x.0 as usize) != word(table, y.0 as usize) {
            return false;
        }
    }
    true
}

// Whether two types are alike inside, by the table.
fn same_inner(types: &[u32], table: &[u32], a: TypeHandle, b: TypeHandle) -> bool
    ensures { result ≡ alike_inner (by_table table.now) (get_or (types_of types.now) a.0 Opaque) (get_or (types_of types.now) b.0 Opaque) }
{
    same_kind(types, a, b) && same_bases(types, table, a, b)
}

// The lowest type that is alike to the type k, where the table has the types below it.
fn lowest(types: &[u32], table: &[u32], k: TypeHandle) -> TypeHandle
    requires lower { Lower (types_of types.now) }
    requires upto { Upto (types_of types.now) table.now k.0 }
    ensures { Lowest (types_of types.now) k.0 result.0 }
{
    for j in 0..k.0 {
        if same_inner(types, table, TypeHandle(j), k) {
            return TypeHandle(j);
        }
    }
    k
}

// The table: lowest first, since a type is made of lower ones.
// Stays: by number. `lowest` reads the entries below k, and `table.iter_mut()` would hold the table lent for writing from the first entry to the last.
pub fn fill_alike(types: &[u32], table: &mut [u32])
    requires lower { Lower (types_of types.now) }
    requires table_len { length table.old ≡ type_count types.now }
    requires table_len_bound { length table.old ≤ max_types }
    ensures { AlikeTable (types_of types.now) table.new }
{
    for k in 0..table.len() {
        let r = lowest(types, table, TypeHandle(k as u32));
        table[k] = r.0;
    }
}
