// What a call on a book other than its check ends with, and its numbers; specs/Answers gives the numbers of each case.
ghost use Rattle.std.specs.Prelude.{◌≡◌};
ghost use Rattle.outcomes.specs.Answers.{code_of_answer, line_of_answer, steps_of_answer, length_of_answer, IsRefusal};

use crate::Refused;
use constants::Cause;

// The call wrote an answer of this length, with so many steps of its own.
#[derive(Clone, Copy, Debug, PartialEq, Eq)]
pub struct Given {
    pub steps: u32,
    pub length: u32,
}

// Why a call writes no answer: the book is refused, as its check ends; or it is admitted, and the call declines, with so many steps
// of its own.
#[derive(Clone, Copy, Debug, PartialEq, Eq)]
pub enum Unanswered {
    Refused(Refused),
    Declined { cause: Cause, steps: u32 },
}

impl From<Refused> for Unanswered {
    ghost from_gives = { IsRefusal };

    fn from(refused: Refused) -> Unanswered {
        Unanswered::Refused(refused)
    }
}

// What such a call ends with.
pub type Answer = Result<Given, Unanswered>;

// Code, line, steps, and the length of the answer; C callers get them so.
#[repr(C)]
#[derive(Clone, Copy, Debug, PartialEq, Eq)]
pub struct AnswerNumbers {
    pub code: u32,
    pub line: u32,
    pub steps: u32,
    pub length: u32,
}

impl From<Answer> for AnswerNumbers {
    ghost from_gives = { λ a n. (n.code ≡ code_of_answer a) × (n.line ≡ line_of_answer a) × (n.steps ≡ steps_of_answer a) × (n.length ≡ length_of_answer a) };

    fn from(answer: Answer) -> AnswerNumbers {
        match answer {
            Ok(given) => AnswerNumbers {
                code: 0,
                line: 0,
                steps: given.steps,
                length: given.length,
            },
            Err(Unanswered::Refused(refused)) => AnswerNumbers {
                code: u32::from(refused.reason),
                line: refused.line,
                steps: refused.steps,
                length: 0,
            },
            Err(Unanswered::Declined { cause, steps }) => AnswerNumbers {
                code: u32::from(cause),
                line: 0,
                steps,
                length: 0,
            },
        }
    }
}
