// Whether the fields of a record are the operands of its shape. What takes some of them answers which are left then, where they
// are allowed.
ghost use Rattle.std.specs.Prelude.{◌≡◌, ◌+◌, ◌≤◌, []};
ghost use Rattle.std.specs.Option.{is_some};
ghost use Rattle.module.specs.Operands.{one, many, pairs, counted, cases_after, unemitted, taken, operands, range_in, result_in, below, below_or_absent, bindings, pattern_after, code_after};
ghost use Rattle.module.specs.Packed.{meant, unpack, classes};
ghost use Rattle.module.specs.declared.shape.Class.TheVariants.{Cases};
ghost use Rattle.module.specs.Tables.{scope_in, emitted_of};
ghost use Rattle.module.specs.Scan.{pass_of, fields_in, left_in, Ends, Fresh, Stamped, class_taken};

use crate::handles::FunctionHandle;
use crate::record::{Fields, body};
use crate::shape::{Class, class_of};
use crate::tables::{Counts, MARKS, put, row_at, word};
use field::limits::ABSENT;

// Bindings are 0 to 63.
pub const BINDINGS: u32 = 64;

// How many expressions a level's code has, and a mode's.
const LEVELS: [u16; 5] = [0, 0, 1, 1, 2];

const MODES: [u16; 2] = [0, 1];

// What has been read before a record: the bytes, the tables and how far they are filled. Its operands may refer to that.
// Stays: the bytes are here, and not in `Fields`. There each of the 12 functions that answer which fields are left would say in a clause of its own that
// they are of the same bytes, for the loops and for the operand that comes next.
#[derive(Clone, Copy, Drop)]
pub struct Scope<'a> {
    pub bytes: &'a [u8],
    pub t: &'a [u32],
    pub counts: Counts,
}

// What a field must be.
// Stays: no closure. `one`, `many` and `pairs`, which have no `requires`, would ask in one that the closure may be called at each number, and answer for
// any test that its calls give; each of their 17 callers would show both, where it names a test now.
#[derive(Clone, Copy, Debug, PartialEq, Eq)]
pub enum Test {
    Below(u32),
    BelowOrAbsent(u32),
    Size,
    Any,
    // a function with a lower number that is no entry
    Callable(u32),
    Never,
}

pub fn passes(scope: &Scope, test: Test, x: u16) -> bool
    ensures { result ≡ pass_of scope.now.bytes.now scope.now.t.now test x }
{
    let wide = x as u32;
    match test {
        Test::Below(n) => wide < n,
        Test::BelowOrAbsent(n) => {
            if x == ABSENT {
                return true;
            }
            wide < n
        }
        Test::Size => {
            if x < 2 {
                return false;
            }
            x <= 4
        }
        Test::Any => true,
        Test::Callable(n) => {
            if wide < n {
                let r = row_at(scope.t, FunctionHandle(wide));
                return body(scope.bytes, r.offset, 0) != 1;
            }
            false
        }
        Test::Never => false,
    }
}

// One field.
pub fn one(scope: &Scope, fields: Fields, test: Test) -> Option<Fields>
    ensures took { left_in scope.now.bytes.now result ≡ one (pass_of scope.now.bytes.now scope.now.t.now test) (fields_in scope.now.bytes.now fields) }
    ensures ends { Ends fields.end result }
{
    let (x, others) = fields.split_first(scope.bytes)?;
    if passes(scope, test, x) {
        return Some(others);
    }
    None
}

// `count` fields.
pub fn many(scope: &Scope, fields: Fields, test: Test, count: u16) -> Option<Fields>
    ensures took { left_in scope.now.bytes.now result ≡ many (pass_of scope.now.bytes.now scope.now.t.now test) count (fields_in scope.now.bytes.now fields) }
    ensures ends { Ends fields.end result }
{
    let mut left = fields;
    for _k in 0..count {
        left = one(scope, left, test)?;
    }
    Some(left)
}

// `count` pairs of fields.
// Stays: one loop over a slice of tests would serve `many` too, but it is two loops, one in the other, and no plainer.
pub fn pairs(scope: &Scope, fields: Fields, p: Test, q: Test, count: u16) -> Option<Fields>
    ensures took { left_in scope.now.bytes.now result ≡ pairs (pass_of scope.now.bytes.now scope.now.t.now p) (pass_of scope.now.bytes.now scope.now.t.now q) count (fields_in scope.now.bytes.now fields) }
    ensures ends { Ends fields.end result }
{
    let mut left = fields;
    for _k in 0..count {
        let second = one(scope, left, p)?;
        left = one(scope, second, q)?;
    }
    Some(left)
}

// A count, and as many expressions.
pub fn list(scope: &Scope, fields: Fields) -> Option<Fields>
    ensures took { left_in scope.now.bytes.now result ≡ counted (many (below scope.now.counts.row.expressions)) (fields_in scope.now.bytes.now fields) }
    ensures ends { Ends fields.end result }
{
    let (count, others) = fields.split_first(scope.bytes)?;
    many(
        scope,
        others,
        Test::Below(scope.counts.row.expressions),
        count,
    )
}

// A count of 2 to 4, and as many letters.
pub fn pattern(scope: &Scope, fields: Fields) -> Option<Fields>
    ensures took { left_in scope.now.bytes.now result ≡ counted pattern_after (fields_in scope.now.bytes.now fields) }
    ensures ends { Ends fields.end result }
{
    let (count, others) = fields.split_first(scope.bytes)?;
    if count < 2 {
        return None;
    }
    if 4 < count {
        return None;
    }
    many(scope, others, Test::Below(4), count)
}

// A code, and as many expressions as `handles` gives it.
pub fn coded(scope: &Scope, fields: Fields, handles: &[u16]) -> Option<Fields>
    ensures took { left_in scope.now.bytes.now result ≡ counted (code_after scope.now.counts.row.expressions handles.now) (fields_in scope.now.bytes.now fields) }
    ensures ends { Ends fields.end result }
{
    let (code, others) = fields.split_first(scope.bytes)?;
    let count = *handles.get(code as usize)?;
    many(
        scope,
        others,
        Test::Below(scope.counts.row.expressions),
        count,
    )
}

// A count, and as many types with their bindings.
pub fn members(scope: &Scope, fields: Fields) -> Option<Fields>
    ensures took { left_in scope.now.bytes.now result ≡ counted (pairs (below scope.now.counts.types) (below_or_absent bindings)) (fields_in scope.now.bytes.now fields) }
    ensures ends { Ends fields.end result }
{
    let (count, others) = fields.split_first(scope.bytes)?;
    let p = Test::Below(scope.counts.types);
    let q = Test::BelowOrAbsent(BINDINGS);
    pairs(scope, others, p, q, count)
}

// A result type and its binding, either of which may be absent, but not the type alone.
pub fn result(scope: &Scope, fields: Fields) -> Option<Fields>
    ensures took { left_in scope.now.bytes.now result ≡ result_in scope.now.counts.types (fields_in scope.now.bytes.now fields) }
    ensures ends { Ends fields.end result }
{
    let (ty, second) = fields.split_first(scope.bytes)?;
    let (binding, others) = second.split_first(scope.bytes)?;
    if passes(scope, Test::BelowOrAbsent(scope.counts.types), ty) {
        if passes(scope, Test::BelowOrAbsent(BINDINGS), binding) {
            if ty < ABSENT {
                return Some(others);
            }
            if binding == ABSENT {
                return Some(others);
            }
        }
    }
    None
}

// Whether none of `count` expressions from `first` on has been emitted.
pub fn unemitted(t: &[u32], first: u32, count: u32, expressions: u32) -> bool
    requires { first + count ≤ expressions }
    ensures { result ≡ unemitted (emitted_of t.now expressions) first count }
{
    for e in first..first + count {
        if word(t, MARKS + (e as usize)) == 1 {
            return false;
        }
    }
    true
}

// The first and the last expression of an emit.
pub fn range(scope: &Scope, fields: Fields) -> Option<Fields>
    ensures took { left_in scope.now.bytes.now result ≡ range_in scope.now.counts.row.expressions (emitted_of scope.now.t.now scope.now.counts.row.expressions) (fields_in scope.now.bytes.now fields) }
    ensures ends { Ends fields.end result }
{
    let (first, second) = fields.split_first(scope.bytes)?;
    let (last, others) = second.split_first(scope.bytes)?;
    let first = first as u32;
    let last = last as u32;
    let expressions = scope.counts.row.expressions;
    if last < first {
        return None;
    }
    if expressions <= last {
        return None;
    }
    if unemitted(scope.t, first, last + 1 - first, expressions) {
        return Some(others);
    }
    None
}

// A count, and as many values with their blocks: distinct, and the default among them. `seen` holds the stamp at each value that
// was there, so that it need not be cleared.
pub fn cases(scope: &Scope, seen: &mut [u32], fields: Fields, stamp: u32) -> Option<Fields>
    requires fresh { Fresh seen.old stamp }
    ensures took { left_in scope.now.bytes.now result ≡ counted (cases_after []) (fields_in scope.now.bytes.now fields) }
    ensures ends { Ends fields.end result }
    ensures stamped { Stamped seen.old seen.new stamp }
{
    let (count, mut left) = fields.split_first(scope.bytes)?;
    for _k in 0..count {
        let (value, second) = left.split_first(scope.bytes)?;
        let (_block, others) = second.split_first(scope.bytes)?;
        if word(seen, value as usize) == stamp {
            return None;
        }
        put(seen, value as usize, stamp);
        left = others;
    }
    if word(seen, ABSENT as usize) == stamp {
        return Some(left);
    }
    None
}

// One operand of any class but cases, which needs room of its own.
pub fn plain(scope: &Scope, fields: Fields, class: Class) -> Option<Fields>
    requires fact { class ≡ Cases → ⊥ }
    ensures took { left_in scope.now.bytes.now result ≡ taken (meant class) (scope_in scope.now.bytes.now scope.now.t.now scope.now.counts) (fields_in scope.now.bytes.now fields) }
    ensures ends { Ends fields.end result }
{
    let c = scope.counts;
    let row = c.row;
    let expressions = row.expressions;
    match class {
        Class::Expression => one(scope, fields, Test::Below(expressions)),
        Class::Optional => one(scope, fields, Test::BelowOrAbsent(expressions)),
        Class::Index => one(scope, fields, Test::Below(ABSENT as u32)),
        Class::List => list(scope, fields),
        Class::Pattern => pattern(scope, fields),
        Class::Level => coded(scope, fields, &LEVELS),
        Class::Mode => coded(scope, fields, &MODES),
        Class::Argument => one(scope, fields, Test::Below(row.arguments)),
        Class::Global => one(scope, fields, Test::Below(c.globals)),
        Class::Local => one(scope, fields, Test::Below(row.locals)),
        Class::Block => one(scope, fields, Test::Any),
        Class::Cases => unreachable!(),
        Class::Function => one(scope, fields, Test::Callable(c.functions)),
        Class::Range => range(scope, fields),
        Class::Type => one(scope, fields, Test::Below(c.types)),
        Class::Size => one(scope, fields, Test::Size),
        Class::Members => members(scope, fields),
        Class::Binding => one(scope, fields, Test::BelowOrAbsent(BINDINGS)),
        Class::Flag => one(scope, fields, Test::Below(2)),
        Class::Result => result(scope, fields),
        Class::Never => one(scope, fields, Test::Never),
    }
}

// One operand of any class; no class takes nothing.
pub fn operand(
    scope: &Scope,
    seen: &mut [u32],
    fields: Fields,
    class: Option<Class>,
    stamp: u32,
) -> Option<Fields>
    requires fresh { Fresh seen.old stamp }
    ensures took { left_in scope.now.bytes.now result ≡ class_taken class (scope_in scope.now.bytes.now scope.now.t.now scope.now.counts) (fields_in scope.now.bytes.now fields) }
    ensures ends { Ends fields.end result }
    ensures stamped { Stamped seen.old seen.new stamp }
{
    let Some(operand) = class else {
        return Some(fields);
    };
    match operand {
        Class::Cases => cases(scope, seen, fields, stamp),
        _ => plain(scope, fields, operand),
    }
}

// Whether the fields are the operands of the shape, and nothing else. `stamp` and the five after it are fresh.
pub fn operands(
    scope: &Scope,
    seen: &mut [u32],
    fields: Fields,
    shape: u32,
    stamp: u32,
) -> Option<()>
    requires fresh { Fresh seen.old stamp }
    requires stamp_bound { stamp + 8 ≤ 4294967295 }
    ensures value { is_some result ≡ operands (unpack classes shape) (scope_in scope.now.bytes.now scope.now.t.now scope.now.counts) (fields_in scope.now.bytes.now fields) }
    ensures stamped { Stamped seen.old seen.new (stamp + 6) }
{
    let mut packed = shape;
    let mut left = fields;
    for k in 0..6u32 {
        let class = class_of(packed % 32);
        left = operand(scope, seen, left, class, stamp + k)?;
        packed /= 32;
    }
    if left.left == 0 {
        return Some(());
    }
    None
}
