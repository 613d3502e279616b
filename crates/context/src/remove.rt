// `type_to_parts` and `remove` of PartReq, on pieces and a table of types (specs/Types.antt).
// Stays: a piece is its number, with no type of its own: cells and slots hold it as a word, and laws over them would carry a projection.
ghost use Rattle.std.specs.Prelude.{◌≡◌, ◌<◌, get_or, min};
ghost use Rattle.part.specs.Store.{top, part, Good, Room, Made};
ghost use Rattle.module.specs.KindNumbers.{type_number};
ghost use Rattle.module.specs.Module.{Opaque};
ghost use Rattle.context.specs.Remove.{each, type_to_parts, split, subtypes_of, take_entries, remove};
ghost use Rattle.context.specs.Types.{type_words, type_word, type_kind, types_of, Sized-prop, AllSized, split_most};
ghost use Rattle.context.specs.Reduced.{typed, subtype_at, subtyped, Took, entries_room, remove_room};

use field::limits::MAX_MEMBERS;
use module::handles::TypeHandle;
use module::kinds::TypeKind;
use module::tables::word;
use part::store::{ALL_PIECE, EMPTY_PIECE, EXIST_PIECE, look, make, remake};

// The words of a type's row.
pub const TYPE_WORDS: usize = 2 + 2 * MAX_MEMBERS;

// Stays: the readers of a row take a slice. A `Rows` of it without a fact has calls as long (`rows.word(t, 1)`), and 107 clauses of eight crates would say
// `types.0.now` for `types.now`. One with a fact (`SizedTypes`) would ask for it, where these hold for any words.
// The word k of the row t; 0, where there is none.
pub fn type_word(types: &[u32], t: TypeHandle, k: usize) -> u32
    requires { k < type_words }
    ensures { result ≡ type_word types.now t.0 k }
{
    word(types, TYPE_WORDS * (t.0 as usize) + k)
}

// The kind of the type t; opaque, where there is none.
pub fn type_kind(types: &[u32], t: TypeHandle) -> TypeKind
    ensures { type_number result ≡ min (type_kind types.now t.0) 8 }
{
    if types.len() / TYPE_WORDS <= t.0 as usize {
        return TypeKind::Opaque;
    }
    TypeKind::from(type_word(types, t, 0))
}

// The part of n entries, each with this child.
fn each(cells: &mut [u32], n: u32, child: u32) -> u32
    requires good { Good cells.old }
    requires room { Room cells.old n × (child < top cells.old) }
    ensures { Made cells.old cells.new (each 0 n (part cells.old child)) n result }
{
    let mut r = EMPTY_PIECE;
    for k in (0..n).rev() {
        r = make(cells, k, child, r);
    }
    r
}

// Types by their rows, each of the sizes that a file may have.
#[derive(Clone, Copy, Drop)]
pub struct SizedTypes<'a> {
    pub rows: &'a [u32],
    pub ghost all_sized: { AllSized (types_of rows.now) } by { Prim.hlevel Sized-prop },
}

impl<'a> SizedTypes<'a> {
    // `type_to_parts`: the first of its pair.
    fn type_to_parts(&self, cells: &mut [u32], t: TypeHandle) -> u32
        requires good { Good cells.old }
        requires room { Room cells.old split_most }
        ensures { Made cells.old cells.new (type_to_parts (get_or (types_of self.now.rows.now) t.0 Opaque)) split_most result }
    {
        match type_kind(self.rows, t) {
            TypeKind::Vector => {
                let size = type_word(self.rows, t, 1);
                each(cells, size, ALL_PIECE)
            }
            TypeKind::Matrix => {
                let columns = type_word(self.rows, t, 1);
                let rows = type_word(self.rows, t, 2);
                let column = each(cells, rows, ALL_PIECE);
                each(cells, columns, column)
            }
            TypeKind::Struct => {
                let members = type_word(self.rows, t, 1);
                each(cells, members, ALL_PIECE)
            }
            _ => ALL_PIECE,
        }
    }

    // all is split by its type, where that is known.
    fn split(&self, cells: &mut [u32], t: Option<TypeHandle>, p: u32) -> u32
        requires good { Good cells.old }
        requires room { Room cells.old split_most × (p < top cells.old) }
        ensures { Made cells.old cells.new (split (types_of self.now.rows.now) (typed t) (part cells.old p)) split_most result }
    {
        let Some(h) = t else {
            return p;
        };
        if p != ALL_PIECE {
            return p;
        }
        self.type_to_parts(cells, h)
    }

    // The type of the subpart i of what has the type t, where that is known; or that the struct has no such member.
    fn subtype_at(&self, t: Option<TypeHandle>, i: u32) -> Option<Option<TypeHandle>>
        ensures { subtyped result ≡ subtype_at (subtypes_of (types_of self.now.rows.now) (typed t)) i }
    {
        let Some(h) = t else {
            return Some(None);
        };
        match type_kind(self.rows, h) {
            TypeKind::Struct => {
                if type_word(self.rows, h, 1) <= i {
                    return None;
                }
                let member = type_word(self.rows, h, 2 + 2 * (i as usize));
                Some(Some(TypeHandle(member)))
            }
            _ => Some(None),
        }
    }
}

// The entries of q taken out of those of p, which is of the type t and not to be split; or the panic at a struct member that is not there.
#[cycle(remove_take_entries)]
fn take_entries(
    cells: &mut [u32],
    types: &SizedTypes,
    p: u32,
    q: u32,
    t: Option<TypeHandle>,
) -> Option<u32>
    requires good { Good cells.old }
    requires p_bound { (p < top cells.old) × (q < top cells.old) }
    requires room { Room cells.old (entries_room (part cells.old p) (part cells.old q)) }
    ensures { Took cells.old cells.new (take_entries (types_of types.now.rows.now) (part cells.old q) (subtypes_of (types_of types.now.rows.now) (typed t)) (part cells.old p)) (entries_room (part cells.old p) (part cells.old q)) result }
{
    if q <= EMPTY_PIECE || p <= EMPTY_PIECE {
        return Some(p);
    }
    let x = look(cells, p);
    let y = look(cells, q);
    if y.index < x.index {
        return take_entries(cells, types, p, y.rest, t);
    }
    if x.index < y.index {
        let r = take_entries(cells, types, x.rest, q, t)?;
        return Some(remake(cells, p, x, x.child, r));
    }
    let u = types.subtype_at(t, x.index)?;
    let c = remove(cells, types, x.child, y.child, u)?;
    let r = take_entries(cells, types, x.rest, y.rest, t)?;
    Some(remake(cells, p, x, c, r))
}

// `remove`: p without q, where p is of the type t; or that panic.
#[cycle(remove_take_entries)]
pub fn remove(
    cells: &mut [u32],
    types: &SizedTypes,
    p: u32,
    q: u32,
    t: Option<TypeHandle>,
) -> Option<u32>
    requires good { Good cells.old }
    requires p_bound { (p < top cells.old) × (q < top cells.old) }
    requires room { Room cells.old (remove_room (part cells.old p) (part cells.old q)) }
    ensures { Took cells.old cells.new (remove (types_of types.now.rows.now) (part cells.old p) (part cells.old q) (typed t)) (remove_room (part cells.old p) (part cells.old q)) result }
{
    if q == ALL_PIECE {
        return Some(EXIST_PIECE);
    }
    if q == EXIST_PIECE {
        return Some(p);
    }
    let s = types.split(cells, t, p);
    take_entries(cells, types, s, q, t)
}
