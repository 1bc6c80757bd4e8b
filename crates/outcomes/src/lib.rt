// Outcomes of the check of a book, and the published numbers for them; specs/Outcomes gives the numbers of each case. Other calls on
// a book: answers.rt.
#![tactic(auto)]

mod answers;

ghost use Rattle.std.specs.Prelude.{◌≡◌, ◌≢◌, ◌-◌};
ghost use Rattle.outcomes.specs.Outcomes.{code_of_outcome, line_of_outcome, steps_of_outcome};

pub use answers::{Answer, AnswerNumbers, Given, Unanswered};
use constants::Reason;

// A book is accepted: how many lines it has, and the head steps made over it.
#[derive(Clone, Copy, Debug, PartialEq, Eq)]
pub struct Accepted {
    pub lines: u32,
    pub steps: u32,
}

// A book is refused: why; the refused line, 0 for a book refused ahead of its lines; the head steps made until then.
#[derive(Clone, Copy, Debug, PartialEq, Eq)]
pub struct Refused {
    pub reason: Reason,
    pub line: u32,
    pub steps: u32,
}

// What the check of a book ends with.
pub type Outcome = Result<Accepted, Refused>;

// The published numbers of an outcome.
#[derive(Clone, Copy, Debug, PartialEq, Eq)]
pub struct Numbers {
    pub code: u32,
    pub line: u32,
    pub steps: u32,
}

impl From<Outcome> for Numbers {
    ghost from_gives = { λ o n. (n.code ≡ code_of_outcome o) × (n.line ≡ line_of_outcome o) × (n.steps ≡ steps_of_outcome o) };

    fn from(outcome: Outcome) -> Numbers {
        match outcome {
            Ok(accepted) => Numbers {
                code: 0,
                line: accepted.lines,
                steps: accepted.steps,
            },
            Err(refused) => Numbers {
                code: u32::from(refused.reason),
                line: refused.line,
                steps: refused.steps,
            },
        }
    }
}

// How many lines are recorded at an outcome: all of an accepted book, those before the line of a refused one.
pub fn recorded(r: Numbers) -> u32
    ensures { (r.code ≡ 0 → result ≡ r.line) × (r.code ≢ 0 → result ≡ r.line - 1) }
{
    if r.code == 0 {
        r.line
    } else {
        r.line.saturating_sub(1)
    }
}

// The steps: what is gone of the budget.
pub fn spent(budget: u32, rest: u32) -> u32
    ensures { result ≡ budget - rest }
{
    budget.saturating_sub(rest)
}
