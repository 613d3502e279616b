// The operands of each kind. A shape is at most six operand classes, five bits each, the first lowest; 0 is no class.
ghost use Rattle.std.specs.Prelude.{◌≡◌, option_map, get_or};
ghost use Rattle.module.specs.Shape.{type_shape, expression_shape, statement_shape};
ghost use Rattle.module.specs.Packed.{unpack, classes, meant, class_at};

#[derive(Clone, Copy, Debug, PartialEq, Eq)]
pub enum Class {
    Never,
    Expression,
    Optional,
    Index,
    List,
    Pattern,
    Level,
    Mode,
    Argument,
    Global,
    Local,
    Block,
    Cases,
    Function,
    Range,
    Type,
    Size,
    Members,
    Binding,
    Flag,
    Result,
}

// The numbers of the packed tables; elsewhere a class is `Class`. In its order: expression, optional, index, list, pattern, level,
// mode, argument, global, local, block, cases, function, range, type, size, members, binding, flag, result, never.
// Stays: numbers. The tables of the 62 kinds take 248 bytes. As slices of classes they take 1,073: 16 for each slice, 1 for each of the 81 classes. As
// arrays of six `Option<Class>` they take 372, of which 291 are a `None` that is to be written.
pub const E: u32 = 1;

pub const O: u32 = 2;

pub const N: u32 = 3;

pub const L: u32 = 4;

pub const P: u32 = 5;

pub const S: u32 = 6;

pub const M: u32 = 7;

pub const A: u32 = 8;

pub const G: u32 = 9;

pub const V: u32 = 10;

pub const B: u32 = 11;

pub const C: u32 = 12;

pub const F: u32 = 13;

pub const R: u32 = 14;

pub const T: u32 = 15;

pub const Z: u32 = 16;

pub const Q: u32 = 17;

pub const D: u32 = 18;

pub const W: u32 = 19;

pub const Y: u32 = 20;

pub const NEVER: u32 = 21;

// Several.
const ZZ: u32 = Z + 32 * Z;

const TN: u32 = T + 32 * N;

pub const TD: u32 = T + 32 * D;

pub const WY: u32 = W + 32 * Y;

const EE: u32 = E + 32 * E;

const EN: u32 = E + 32 * N;

const EP: u32 = E + 32 * P;

const EO: u32 = E + 32 * O;

const EEE: u32 = E + 32 * EE;

const EEO: u32 = E + 32 * EO;

const OO: u32 = O + 32 * O;

const OOO: u32 = O + 32 * OO;

const EOOO: u32 = E + 32 * OOO;

const EEOOO: u32 = E + 32 * EOOO;

const OSO: u32 = O + 32 * S + 1024 * O;

const EOSO: u32 = E + 32 * OSO;

const EEOSO: u32 = E + 32 * EOSO;

const EEEOSO: u32 = E + 32 * EEOSO;

const EBB: u32 = E + 32 * B + 1024 * B;

const EC: u32 = E + 32 * C;

const BBO: u32 = B + 32 * B + 1024 * O;

const FLO: u32 = F + 32 * L + 1024 * O;

const EOE: u32 = EO + 1024 * E;

const EEOE: u32 = E + 32 * EOE;

const MEE: u32 = M + 32 * EE;

// The class of each number.
const CLASSES: [Class; 21] = [
    Class::Never,
    Class::Expression,
    Class::Optional,
    Class::Index,
    Class::List,
    Class::Pattern,
    Class::Level,
    Class::Mode,
    Class::Argument,
    Class::Global,
    Class::Local,
    Class::Block,
    Class::Cases,
    Class::Function,
    Class::Range,
    Class::Type,
    Class::Size,
    Class::Members,
    Class::Binding,
    Class::Flag,
    Class::Result,
];

const TYPES: [u32; 9] = [0, Z, ZZ, 0, T, TN, Q, T, 0];

const EXPRESSIONS: [u32; 32] = [
    0, 0, 0, EN, EE, 0, E, EP, L, A, G, V, E, EEEOSO, EEOOO, EO, E, EE, EEE, E, E, EOOO, E, 0, 0,
    E, 0, E, 0, 0, 0, 0,
];

const STATEMENTS: [u32; 21] = [
    R, B, EBB, EC, BBO, 0, 0, O, 0, 0, 0, 0, EE, EEO, FLO, EEOE, E, EE, EO, MEE, EE,
];

pub fn class_of(bits: u32) -> Option<Class>
    ensures { option_map meant result ≡ class_at bits }
{
    if bits == 0 {
        return None;
    }
    if 20 < bits {
        return Some(Class::Never);
    }
    Some(CLASSES[bits as usize])
}

// The shape of a kind by its table. A number past the last is no kind's.
fn shape_at(table: &[u32], kind: u16) -> u32
    ensures { result ≡ get_or table.now kind 21 }
{
    table.get(kind as usize).copied().unwrap_or(NEVER)
}

pub fn type_shape(kind: u16) -> u32
    ensures { unpack classes result ≡ type_shape kind }
{
    shape_at(&TYPES, kind)
}

pub fn expression_shape(kind: u16) -> u32
    ensures { unpack classes result ≡ expression_shape kind }
{
    shape_at(&EXPRESSIONS, kind)
}

pub fn statement_shape(kind: u16) -> u32
    ensures { unpack classes result ≡ statement_shape kind }
{
    shape_at(&STATEMENTS, kind)
}
