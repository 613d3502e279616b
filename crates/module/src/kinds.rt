// The kinds of types, expressions and statements, by 01's numbers: naga's variants in source order.
ghost use Rattle.std.specs.Prelude.{◌≡◌, min};
ghost use Rattle.module.specs.KindNumbers.{type_number, ExpressionDecodes, StatementDecodes};

// What a type is.
#[derive(Clone, Copy, Debug, PartialEq, Eq)]
pub enum TypeKind {
    Scalar,
    Vector,
    Matrix,
    Atomic,
    Pointer,
    Array,
    Struct,
    BindingArray,
    Opaque,
}

// A number that is no other kind's is an opaque type's.
impl From<u32> for TypeKind {
    ghost from_gives = { λ n k. type_number k ≡ min n 8 };

    fn from(n: u32) -> TypeKind {
        match n {
            0 => TypeKind::Scalar,
            1 => TypeKind::Vector,
            2 => TypeKind::Matrix,
            3 => TypeKind::Atomic,
            4 => TypeKind::Pointer,
            5 => TypeKind::Array,
            6 => TypeKind::Struct,
            7 => TypeKind::BindingArray,
            _ => TypeKind::Opaque,
        }
    }
}

// A number that is no kind's.
#[derive(Clone, Copy, Debug, PartialEq, Eq)]
pub struct NoKind;

// What an expression is.
#[derive(Clone, Copy, Debug, PartialEq, Eq)]
pub enum ExpressionKind {
    Literal,
    ZeroValue,
    WorkGroupUniformLoadResult,
    AccessIndex,
    Access,
    Constant,
    Splat,
    Swizzle,
    Compose,
    FunctionArgument,
    GlobalVariable,
    LocalVariable,
    Load,
    ImageSample,
    ImageLoad,
    ImageQuery,
    Unary,
    Binary,
    Select,
    Derivative,
    Relational,
    Math,
    As,
    CallResult,
    AtomicResult,
    ArrayLength,
    RayQueryProceedResult,
    RayQueryGetIntersection,
    Override,
    SubgroupBallotResult,
    SubgroupOperationResult,
    RayQueryVertexPositions,
}

impl TryFrom<u16> for ExpressionKind {
    type Error = NoKind;

    ghost try_from_gives = { ExpressionDecodes };

    fn try_from(number: u16) -> Result<Self, NoKind> {
        match number {
            0 => Ok(ExpressionKind::Literal),
            1 => Ok(ExpressionKind::ZeroValue),
            2 => Ok(ExpressionKind::WorkGroupUniformLoadResult),
            3 => Ok(ExpressionKind::AccessIndex),
            4 => Ok(ExpressionKind::Access),
            5 => Ok(ExpressionKind::Constant),
            6 => Ok(ExpressionKind::Splat),
            7 => Ok(ExpressionKind::Swizzle),
            8 => Ok(ExpressionKind::Compose),
            9 => Ok(ExpressionKind::FunctionArgument),
            10 => Ok(ExpressionKind::GlobalVariable),
            11 => Ok(ExpressionKind::LocalVariable),
            12 => Ok(ExpressionKind::Load),
            13 => Ok(ExpressionKind::ImageSample),
            14 => Ok(ExpressionKind::ImageLoad),
            15 => Ok(ExpressionKind::ImageQuery),
            16 => Ok(ExpressionKind::Unary),
            17 => Ok(ExpressionKind::Binary),
            18 => Ok(ExpressionKind::Select),
            19 => Ok(ExpressionKind::Derivative),
            20 => Ok(ExpressionKind::Relational),
            21 => Ok(ExpressionKind::Math),
            22 => Ok(ExpressionKind::As),
            23 => Ok(ExpressionKind::CallResult),
            24 => Ok(ExpressionKind::AtomicResult),
            25 => Ok(ExpressionKind::ArrayLength),
            26 => Ok(ExpressionKind::RayQueryProceedResult),
            27 => Ok(ExpressionKind::RayQueryGetIntersection),
            28 => Ok(ExpressionKind::Override),
            29 => Ok(ExpressionKind::SubgroupBallotResult),
            30 => Ok(ExpressionKind::SubgroupOperationResult),
            31 => Ok(ExpressionKind::RayQueryVertexPositions),
            _ => Err(NoKind),
        }
    }
}

// What a statement is.
#[derive(Clone, Copy, Debug, PartialEq, Eq)]
pub enum StatementKind {
    Emit,
    Block,
    If,
    Switch,
    Loop,
    Break,
    Continue,
    Return,
    Kill,
    ControlBarrier,
    MemoryBarrier,
    ImageAtomic,
    Store,
    Atomic,
    Call,
    ImageStore,
    RayQuery,
    WorkGroupUniformLoad,
    SubgroupBallot,
    SubgroupGather,
    SubgroupCollectiveOperation,
}

impl TryFrom<u16> for StatementKind {
    type Error = NoKind;

    ghost try_from_gives = { StatementDecodes };

    fn try_from(number: u16) -> Result<Self, NoKind> {
        match number {
            0 => Ok(StatementKind::Emit),
            1 => Ok(StatementKind::Block),
            2 => Ok(StatementKind::If),
            3 => Ok(StatementKind::Switch),
            4 => Ok(StatementKind::Loop),
            5 => Ok(StatementKind::Break),
            6 => Ok(StatementKind::Continue),
            7 => Ok(StatementKind::Return),
            8 => Ok(StatementKind::Kill),
            9 => Ok(StatementKind::ControlBarrier),
            10 => Ok(StatementKind::MemoryBarrier),
            11 => Ok(StatementKind::ImageAtomic),
            12 => Ok(StatementKind::Store),
            13 => Ok(StatementKind::Atomic),
            14 => Ok(StatementKind::Call),
            15 => Ok(StatementKind::ImageStore),
            16 => Ok(StatementKind::RayQuery),
            17 => Ok(StatementKind::WorkGroupUniformLoad),
            18 => Ok(StatementKind::SubgroupBallot),
            19 => Ok(StatementKind::SubgroupGather),
            20 => Ok(StatementKind::SubgroupCollectiveOperation),
            _ => Err(NoKind),
        }
    }
}
