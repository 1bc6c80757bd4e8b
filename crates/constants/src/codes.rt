// The codes of refusals, as C callers get them, and the reasons that they stand for; 0 stands for no refusal. aut68's Answer has the same for the contracts.
ghost use Rattle.std.specs.Prelude.{◌≡◌};
ghost use Rattle.aut68.specs.Procedure.Answer.{Refusal, code_of};
ghost use Rattle.aut68.specs.Procedure.Calls.{decline_code};
ghost use Rattle.constants.specs.Reasons.{refusal_of, decline_of, Decodes};

pub const WORK_TOO_SMALL: u32 = 1;

pub const LIMIT_OUT_OF_RANGE: u32 = 2;

pub const MALFORMED: u32 = 3;

pub const DUPLICATE: u32 = 4;

pub const UNKNOWN_NAME: u32 = 5;

pub const WRONG_ARITY: u32 = 6;

pub const NOT_FUNCTION: u32 = 7;

pub const NOT_TYPE: u32 = 8;

pub const MISMATCH: u32 = 9;

pub const TOO_LARGE: u32 = 10;

pub const OUT_OF_BUDGET: u32 = 11;

pub const OUT_OF_SPACE: u32 = 12;

pub const NO_SUCH_LINE: u32 = 13;

pub const NOT_IN_CONTEXT: u32 = 14;

pub const STORE_TOO_SMALL: u32 = 15;

pub const CELL_TOO_LARGE: u32 = 16;

pub const UNBALANCED: u32 = 17;

pub const NOT_WHOLE: u32 = 18;

// Why a call gives another code than 0: one on a book that was admitted, or one on a shelf.
#[derive(Clone, Copy, Debug, PartialEq, Eq)]
pub enum Cause {
    NoSuchLine,
    AnswerTooLong,
    StoreTooSmall,
    CellTooLarge,
    NotWhole,
    Different,
    TooLarge,
    OutOfBudget,
}

impl From<Cause> for u32 {
    ghost from_gives = { λ cause code. code ≡ decline_code (decline_of cause) };

    #[tactic(auto, unfolding(aut68::specs::Procedure::Calls::decline_code, aut68::specs::Procedure::Answer::code_of))]
    fn from(cause: Cause) -> u32 {
        match cause {
            Cause::NoSuchLine => NO_SUCH_LINE,
            Cause::AnswerTooLong => OUT_OF_SPACE,
            Cause::StoreTooSmall => STORE_TOO_SMALL,
            Cause::CellTooLarge => CELL_TOO_LARGE,
            Cause::NotWhole => NOT_WHOLE,
            Cause::Different => MISMATCH,
            Cause::TooLarge => TOO_LARGE,
            Cause::OutOfBudget => OUT_OF_BUDGET,
        }
    }
}

// Why a book is refused.
#[derive(Clone, Copy, Debug, PartialEq, Eq)]
pub enum Reason {
    WorkTooSmall,
    LimitOutOfRange,
    Malformed,
    Duplicate,
    UnknownName,
    WrongArity,
    NotFunction,
    NotType,
    Mismatch,
    TooLarge,
    OutOfBudget,
    OutOfSpace,
    NotInContext,
    Unbalanced,
}

impl From<Reason> for u32 {
    ghost from_gives = { λ reason code. code ≡ code_of (refusal_of reason) };

    #[tactic(auto, unfolding(aut68::specs::Procedure::Answer::code_of))]
    fn from(reason: Reason) -> u32 {
        match reason {
            Reason::WorkTooSmall => WORK_TOO_SMALL,
            Reason::LimitOutOfRange => LIMIT_OUT_OF_RANGE,
            Reason::Malformed => MALFORMED,
            Reason::Duplicate => DUPLICATE,
            Reason::UnknownName => UNKNOWN_NAME,
            Reason::WrongArity => WRONG_ARITY,
            Reason::NotFunction => NOT_FUNCTION,
            Reason::NotType => NOT_TYPE,
            Reason::Mismatch => MISMATCH,
            Reason::TooLarge => TOO_LARGE,
            Reason::OutOfBudget => OUT_OF_BUDGET,
            Reason::OutOfSpace => OUT_OF_SPACE,
            Reason::NotInContext => NOT_IN_CONTEXT,
            Reason::Unbalanced => UNBALANCED,
        }
    }
}

// A number that is the code of no reason.
#[derive(Clone, Copy, Debug, PartialEq, Eq)]
pub struct UnknownCode(pub u32);

impl TryFrom<u32> for Reason {
    type Error = UnknownCode;

    ghost try_from_gives = { Decodes };

    #[tactic(auto, unfolding(aut68::specs::Procedure::Answer::code_of))]
    fn try_from(code: u32) -> Result<Self, UnknownCode> {
        match code {
            WORK_TOO_SMALL => Ok(Reason::WorkTooSmall),
            LIMIT_OUT_OF_RANGE => Ok(Reason::LimitOutOfRange),
            MALFORMED => Ok(Reason::Malformed),
            DUPLICATE => Ok(Reason::Duplicate),
            UNKNOWN_NAME => Ok(Reason::UnknownName),
            WRONG_ARITY => Ok(Reason::WrongArity),
            NOT_FUNCTION => Ok(Reason::NotFunction),
            NOT_TYPE => Ok(Reason::NotType),
            MISMATCH => Ok(Reason::Mismatch),
            TOO_LARGE => Ok(Reason::TooLarge),
            OUT_OF_BUDGET => Ok(Reason::OutOfBudget),
            OUT_OF_SPACE => Ok(Reason::OutOfSpace),
            NOT_IN_CONTEXT => Ok(Reason::NotInContext),
            UNBALANCED => Ok(Reason::Unbalanced),
            _ => Err(UnknownCode(code)),
        }
    }
}

// The reason with this code; the last one for a number that is no code.
#[tactic(auto, unfolding(aut68::specs::Procedure::Answer::code_of))]
pub fn reason_of(code: u32) -> Reason
    ensures { (x : Refusal) → code ≡ code_of x → refusal_of result ≡ x }
{
    Reason::try_from(code).unwrap_or(Reason::Unbalanced)
}
