// `from_type_bindings`, once per type: a table has the piece of each type, lowest first. Then
// `output_from_bindings` and `add_binding`, with what each turns away.
ghost use Rattle.std.specs.Prelude.{◌≡◌, ◌+◌, ◌*◌, ◌≤◌, ◌<◌, length};
ghost use Rattle.field.specs.Limits.{max_members, max_pieces};
ghost use Rattle.part.specs.PartReq.{none};
ghost use Rattle.part.specs.Store.{top, part, Good, Room, Made};
ghost use Rattle.module.specs.Operands.{bindings};
ghost use Rattle.access.specs.Access.{number_in, result_from as result_in};
ghost use Rattle.context.specs.Types.{types_of, type_count};
ghost use Rattle.bindings.specs.Bindings.{single};
ghost use Rattle.bindings.specs.TypeBindings.{step_from};
ghost use Rattle.context.specs.RequiredContext.{return_entry};
ghost use Rattle.bindings.specs.ContextBindings.{result_from, output_from_bindings, add_binding, as_request};
ghost use Rattle.bindings.specs.Outputs.{BoundResult, output_cells, request_context, within_limits, Asked};
ghost use Rattle.bindings.specs.Rows.{BindingFits};
ghost use Rattle.bindings.specs.Parts.{lower_part, Held, From, Chosen, Parts};

use crate::set::{contains, own_binding};
use crate::sum::sum_sizes;
use crate::types::{BoundTypes, FileTypes, member_count};
use access::whole::Bound;
use field::limits::MAX_PIECES;
use field::refusal::Refusal;
use module::handles::TypeHandle;
use part::limits::SPINE;
use part::req::join;
use part::store::{ALL_PIECE, EMPTY_PIECE, entries, make, measure, over};

// The piece of what has this binding, or else this type, which is one of the first t types; or none.
pub fn from_binding(parts: &[u32], required: u64, x: Bound, t: u32) -> Option<u32>
    requires bound { BindingFits (number_in x.binding) }
    requires t_in_bounds { t ≤ length parts.now }
    ensures { Chosen parts.now required t (number_in x.binding) x.ty.0 result }
{
    match x.binding {
        Some(b) => {
            if contains(required, b) {
                return Some(ALL_PIECE);
            }
            None
        }
        None => {
            if t <= x.ty.0 {
                return None;
            }
            let p = parts[x.ty.0 as usize];
            if p == EMPTY_PIECE {
                return None;
            }
            Some(p)
        }
    }
}

// Stays: of a type that comes to none, the table has the empty part: it is lent, a word a type, with no word more for an Option.
// The piece of the type t, by those of lower types.
fn from_type(
    cells: &mut [u32],
    types: &FileTypes,
    parts: &[u32],
    required: u64,
    t: TypeHandle,
) -> u32
    requires good { Good cells.old }
    requires held { Held cells.old parts.now t.0 × Room cells.old max_members }
    ensures { From cells.old cells.new (step_from (types_of types.now.rows.now) required (lower_part cells.old parts.now t.0) t.0) max_members result }
{
    let bound = BoundTypes { rows: types.rows };
    let mut r = EMPTY_PIECE;
    // Stays: by number, since it is the index of the member's entry.
    for i in (0..member_count(types.rows, t)).rev() {
        let m = bound.member_at(t, i);
        if let Some(q) = from_binding(parts, required, m, t.0) {
            r = make(cells, i, q, r);
        }
    }
    r
}

// The table: lowest first, each type once.
pub fn from_table(cells: &mut [u32], types: &FileTypes, required: u64, parts: &mut [u32])
    requires good { Good cells.old }
    requires parts_len { length parts.old ≡ type_count types.now.rows.now }
    requires room { Room cells.old (max_members * length parts.old) × (length parts.old ≤ 4294967295) }
    ensures { Parts cells.old cells.new (types_of types.now.rows.now) required parts.new (max_members * length parts.old) }
{
    // Stays: by index, since a type's piece is made of those that stand below it in the same table.
    for t in 0..parts.len() {
        let r = from_type(cells, types, parts, required, TypeHandle(t as u32));
        parts[t] = r;
    }
}

// The piece of the returned value's entry, by the result that the function declares.
fn returned_from(
    cells: &mut [u32],
    types: &FileTypes,
    required: u64,
    declared: Option<Bound>,
    parts: &mut [u32],
) -> u32
    requires good { Good cells.old }
    requires parts_len { (length parts.old ≡ type_count types.now.rows.now) × (length parts.old ≤ 4294967295) }
    requires bound_result { BoundResult (result_in declared) × Room cells.old (output_cells parts.old) }
    ensures { Made cells.old cells.new (return_entry (result_from (types_of types.now.rows.now) required (result_in declared))) (output_cells parts.old) result }
{
    let Some(x) = declared else {
        return EMPTY_PIECE;
    };
    from_table(cells, types, required, parts);
    let Some(q) = from_binding(parts, required, x, parts.len() as u32) else {
        return EMPTY_PIECE;
    };
    make(cells, SPINE, q, EMPTY_PIECE)
}

// What refuses a request, by whether what is new passes a limit and whether the request does, and by the request's entries: 15, then 16.
#[tactic(auto, unfolding(crate::specs::Outputs::within_limits))]
fn within_limits(new_over: bool, over: bool, entries: u32) -> Result<(), Refusal>
    ensures { result ≡ within_limits new_over over entries }
{
    if new_over || over {
        return Err(Refusal::PartLimit);
    }
    if MAX_PIECES < entries as usize {
        return Err(Refusal::PiecesLimit);
    }
    Ok(())
}

// `output_from_bindings`: refused by 15 and 16, or the piece of the returned value's entry.
pub fn output_from_bindings(
    cells: &mut [u32],
    types: &FileTypes,
    required: u64,
    declared: Option<Bound>,
    parts: &mut [u32],
) -> Result<u32, Refusal>
    requires good { Good cells.old }
    requires parts_len { (length parts.old ≡ type_count types.now.rows.now) × (length parts.old ≤ 4294967295) }
    requires bound_result { BoundResult (result_in declared) × Room cells.old (output_cells parts.old) }
    ensures { Asked cells.old cells.new (result_in declared) none (λ f. as_request (output_from_bindings (types_of types.now.rows.now) required f) (output_from_bindings (types_of types.now.rows.now) required f)) result }
{
    let new = returned_from(cells, types, required, declared, parts);
    let m = measure(cells, new);
    within_limits(m.over, m.over, m.entries)?;
    Ok(new)
}

// `add_binding`. The sum is made where it is within the limits, and then has at most that many entries.
pub fn add_binding(
    cells: &mut [u32],
    types: &FileTypes,
    b: u32,
    declared: Option<Bound>,
    parts: &mut [u32],
    globals: u32,
    retval: u32,
) -> Result<u32, Refusal>
    requires good { Good cells.old }
    requires parts_len { (length parts.old ≡ type_count types.now.rows.now) × (length parts.old ≤ 4294967295) }
    requires bound_result { BoundResult (result_in declared) × Room cells.old (output_cells parts.old + max_pieces) }
    requires b_lt_bindings { (b < bindings) × ((globals < top cells.old) × (retval < top cells.old)) }
    ensures { Asked cells.old cells.new (result_in declared) (part cells.old globals) (λ f. as_request (output_from_bindings (types_of types.now.rows.now) (single b) f) (add_binding (types_of types.now.rows.now) b f (request_context (part cells.old globals) (part cells.old retval)))) result }
{
    let new = returned_from(cells, types, own_binding(Some(b)), declared, parts);
    let m = sum_sizes(cells, retval, new);
    let others = entries(cells, globals);
    within_limits(over(cells, new), m.over, others + m.entries)?;
    Ok(join(cells, retval, new))
}
