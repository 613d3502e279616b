// `get_type_bindings` and `input_to_bindings`, once per type: a table has the bindings below each type, where all is needed. The context is
// read where it stands.
ghost use Rattle.std.specs.Prelude.{◌≡◌, ◌≤◌, ◌<◌, length, get_or};
ghost use Rattle.part.specs.PartReq.{all, get_subpart};
ghost use Rattle.access.specs.Access.{number_in, arg_from};
ghost use Rattle.context.specs.RequiredContext.{variable};
ghost use Rattle.context.specs.Types.{types_of, type_count};
ghost use Rattle.bindings.specs.TypeBindings.{member_bindings, step_bindings, get_type_bindings};
ghost use Rattle.bindings.specs.ContextBindings.{arg_bindings, args_bindings};
ghost use Rattle.bindings.specs.Linear.{all_table};
ghost use Rattle.bindings.specs.Rows.{row_member, member_count, BindingFits, args_of, BoundArgs};
ghost use Rattle.context_bytes.specs.Subparts.{part_of, variables_of};
ghost use Rattle.bindings_request.specs.Walks.{lower, needed_of, asserted};

use crate::answer::Refused;
use access::whole::Bound;
use bindings::set::own_binding;
use bindings::types::{BoundTypes, first_word, member_count};
use context::remove::type_kind;
use context_bytes::part_bytes::PartBytes;
use context_bytes::variables_bytes::VariablesBytes;
use field::refusal::Refusal;
use module::handles::TypeHandle;
use module::kinds::TypeKind;

// The argument at which the Rust asserts.
#[derive(Clone, Copy, Debug, PartialEq, Eq)]
pub struct Asserts(pub u32);

impl From<Asserts> for Refused {
    ghost from_gives = { λ a e. e ≡ asserted a };

    fn from(a: Asserts) -> Refused {
        Refused {
            by: Refusal::Panic,
            argument: Some(a.0),
        }
    }
}

// Types, and of each the bindings below it, where all is needed.
#[derive(Clone, Copy, Drop)]
pub struct TypeSets<'a> {
    pub types: &'a BoundTypes<'a>,
    pub sets: &'a [u64],
}

impl<'a> TypeSets<'a> {
    // The bindings below the type t, where all is needed; none, where there is no such type.
    fn set_at(&self, t: TypeHandle) -> u64
        ensures { result ≡ get_or self.now.sets.now t.0 0 }
    {
        self.sets.get(t.0 as usize).copied().unwrap_or(0)
    }
}

// What the walk finds below the type u, which is named by the type t.
#[cycle(member_bindings_type_step_walk)]
fn walk(known: &TypeSets, part: &PartBytes, u: TypeHandle, t: TypeHandle) -> u64
    ensures { result ≡ lower (types_of known.now.types.now.rows.now) known.now.sets.now t.0 u.0 (part_of part.now) }
{
    if t.0 <= u.0 {
        return 0;
    }
    if part.is_all() {
        return known.set_at(u);
    }
    type_step(known, part, u)
}

// What it finds in the member i of the type t.
#[cycle(member_bindings_type_step_walk)]
fn member_bindings(known: &TypeSets, part: &PartBytes, t: TypeHandle, i: u32) -> u64
    requires { i < member_count known.now.types.now.rows.now t.0 }
    ensures { result ≡ member_bindings (lower (types_of known.now.types.now.rows.now) known.now.sets.now t.0) (row_member known.now.types.now.rows.now t.0 i) (get_subpart (part_of part.now) i) }
{
    let Some(subpart) = part.get_subpart(i) else {
        return 0;
    };
    if subpart.is_exist() {
        return 0;
    }
    let m = known.types.member_at(t, i);
    let own = own_binding(m.binding);
    let below = walk(known, &subpart, m.ty, t);
    own | below
}

// What it finds below the type t: by its members, or by what a pointer or an array is of.
#[cycle(member_bindings_type_step_walk)]
fn type_step(known: &TypeSets, part: &PartBytes, t: TypeHandle) -> u64
    ensures { result ≡ step_bindings (types_of known.now.types.now.rows.now) (lower (types_of known.now.types.now.rows.now) known.now.sets.now t.0) t.0 (part_of part.now) }
{
    let types = known.types.rows;
    if let TypeKind::Pointer | TypeKind::Array | TypeKind::BindingArray = type_kind(types, t) {
        let base = TypeHandle(first_word(types, t));
        return walk(known, part, base, t);
    }
    let mut r: u64 = 0;
    // Stays: by number, since the context names a member by it.
    for i in (0..member_count(types, t)).rev() {
        let m = member_bindings(known, part, t, i);
        r = m | r;
    }
    r
}

// The same where all of it is needed: the part of two bytes that are zero.
fn type_all(known: &TypeSets, t: TypeHandle) -> u64
    ensures { result ≡ step_bindings (types_of known.now.types.now.rows.now) (lower (types_of known.now.types.now.rows.now) known.now.sets.now t.0) t.0 all }
{
    let zeros: [u8; 2] = [0, 0];
    let part = PartBytes {
        bytes: &zeros,
        depth: 0,
    };
    type_step(known, &part, t)
}

// The table: lowest first, each type once.
pub fn all_table(types: &BoundTypes, sets: &mut [u64])
    requires sets_len { length sets.old ≡ type_count types.now.rows.now }
    requires sets_len_bound { length sets.old ≤ 4294967295 }
    ensures { sets.new ≡ all_table (types_of types.now.rows.now) }
{
    // Stays: by index, since a type's set is made of those that stand below it in the same table.
    for t in 0..sets.len() {
        let known = TypeSets {
            types: &*types,
            sets: &*sets,
        };
        let r = type_all(&known, TypeHandle(t as u32));
        sets[t] = r;
    }
}

// `get_type_bindings`, by the table.
fn type_bindings(known: &TypeSets, part: &PartBytes, t: TypeHandle) -> u64
    requires { known.now.sets.now ≡ all_table (types_of known.now.types.now.rows.now) }
    ensures { result ≡ get_type_bindings (types_of known.now.types.now.rows.now) (part_of part.now) t.0 }
{
    if part.is_all() {
        return known.set_at(t);
    }
    type_step(known, part, t)
}

// What is needed of the argument i, which is x.
fn arg_bindings(args: &VariablesBytes, known: &TypeSets, i: u32, x: Bound) -> Result<u64, Asserts>
    requires sets_value { known.now.sets.now ≡ all_table (types_of known.now.types.now.rows.now) }
    requires bound { BindingFits (number_in x.binding) }
    ensures { needed_of result ≡ arg_bindings (types_of known.now.types.now.rows.now) i (arg_from x) (get_subpart (variables_of args.now) (variable i)) }
{
    let Some(part) = args.get(i) else {
        return Ok(0);
    };
    if part.is_exist() {
        return Ok(0);
    }
    if x.binding.is_some() && !part.is_all() {
        return Err(Asserts(i));
    }
    let below = type_bindings(known, &part, x.ty);
    let own = own_binding(x.binding);
    Ok(own | below)
}

// `input_to_bindings` of these arguments.
pub fn input_to_bindings(
    args: &VariablesBytes,
    known: &TypeSets,
    arguments: &[Bound],
) -> Result<u64, Asserts>
    requires sets_value { known.now.sets.now ≡ all_table (types_of known.now.types.now.rows.now) }
    requires bound_args { BoundArgs arguments.now }
    ensures { needed_of result ≡ args_bindings (types_of known.now.types.now.rows.now) (variables_of args.now) 0 (args_of arguments.now) }
{
    let mut s: u64 = 0;
    for (i, x) in arguments.iter().enumerate() {
        let a = arg_bindings(args, known, i as u32, *x)?;
        s = s | a;
    }
    Ok(s)
}
