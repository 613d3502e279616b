// Why a module, a request or a buffer is refused, each with its number in 01.
ghost use Rattle.std.specs.Prelude.{◌≡◌};
ghost use Rattle.field.specs.Refusal.{number};

// In an answer as one number a refusal's stands from here on.
pub const REFUSAL_UNIT: u64 = 4294967296;

#[derive(Clone, Copy, Debug, PartialEq, Eq)]
pub enum Refusal {
    // Of a module.
    ModuleTooLong,
    RecordCut,
    MarkMisplaced,
    ModuleLimit,
    ValueNotAllowed,
    // Of a request, a context or a list.
    NoSuch,
    Malformed,
    // Of a walk.
    Panic,
    Unsettled,
    PartLimit,
    PiecesLimit,
    VisitsLimit,
    // Of a buffer.
    ReportTooShort,
    PrunerUnfit,
    AnswerTooShort,
    MarksUnfit,
    // Of a check.
    CheckBound,
}

impl From<Refusal> for u32 {
    ghost from_gives = { λ r n. n ≡ number r };

    fn from(r: Refusal) -> u32 {
        match r {
            Refusal::ModuleTooLong => 1,
            Refusal::RecordCut => 2,
            Refusal::MarkMisplaced => 3,
            Refusal::ModuleLimit => 4,
            Refusal::ValueNotAllowed => 5,
            Refusal::NoSuch => 11,
            Refusal::Malformed => 12,
            Refusal::Panic => 13,
            Refusal::Unsettled => 14,
            Refusal::PartLimit => 15,
            Refusal::PiecesLimit => 16,
            Refusal::VisitsLimit => 17,
            Refusal::ReportTooShort => 18,
            Refusal::PrunerUnfit => 19,
            Refusal::AnswerTooShort => 20,
            Refusal::MarksUnfit => 21,
            Refusal::CheckBound => 26,
        }
    }
}
