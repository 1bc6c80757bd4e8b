// Two strings of cells judged over the lines of a book. Both are tested first; whole strings that are not too large are put below the sides
// of a comparison, where a category's first two levels would be. specs/Posts has the contracts.
#![tactic(auto)]

ghost use Rattle.std.specs.Prelude.{◌≡◌};
ghost use Rattle.aut68.specs.Procedure.Answer.{code_of};
ghost use Rattle.aut68.specs.Procedure.Calls.{decline_code};
ghost use Rattle.constants.specs.Reasons.{refusal_of, decline_of};
ghost use Rattle.constants.specs.Refusals.{code_in};
ghost use Rattle.judging.specs.Posts.{ComparesOne, Named, JudgedPost, second_in};
ghost use Rattle.outcomes.specs.Answers.{code_of_answer, line_of_answer, steps_of_answer, length_of_answer};

use cells::level_at;
use comparison::{compare, compare_parts_first};
use constants::{Cause, Cell, NESTING, Reason};
use copies::load;
use outcomes::{Answer, Given, Unanswered, spent};
use strings::is_whole;

// The first comparison, or the second, parts first.
#[derive(Clone, Copy, Debug, PartialEq, Eq)]
pub enum Comparison {
    First,
    PartsFirst,
}

// The comparison of the expressions at a and b of w.
#[tactic(auto, unfolding(crate::specs::Posts::levels_of))]
fn compare_by(
    table: &[u32],
    terms: &[Cell],
    w: &mut [Cell],
    limit: usize,
    budget: &mut u32,
    a: usize,
    b: usize,
    comparison: Comparison,
) -> Result<(), Reason>
    ensures { ComparesOne (second_in comparison) table.now terms.now w.old limit budget.old a b w.new (code_in result) budget.new }
{
    match comparison {
        Comparison::First => compare(table, terms, w, limit, budget, a, b, NESTING),
        Comparison::PartsFirst => {
            compare_parts_first(table, terms, w, limit, budget, a, b, NESTING)
        }
    }
}

// Why two strings have no answer, of the reasons that a comparison has: a mismatch, too large, out of budget.
#[tactic(auto, unfolding(aut68::specs::Procedure::Calls::decline_code, aut68::specs::Procedure::Answer::code_of))]
fn cause_of(reason: Reason) -> Cause
    ensures { Named (code_of (refusal_of reason)) (decline_code (decline_of result)) }
{
    match reason {
        Reason::Mismatch => Cause::Different,
        Reason::TooLarge => Cause::TooLarge,
        _ => Cause::OutOfBudget,
    }
}

// What a comparison says.
fn answer_of(compared: Result<(), Reason>, steps: u32) -> Answer
    ensures { Named (code_in compared) (code_of_answer result) × (line_of_answer result ≡ 0) × (steps_of_answer result ≡ steps) × (length_of_answer result ≡ 0) }
{
    match compared {
        Ok(()) => Ok(Given { steps, length: 0 }),
        Err(reason) => Err(Unanswered::Declined {
            cause: cause_of(reason),
            steps,
        }),
    }
}

// Two strings over the first `lines` lines: whole, not too large, compared (Judged). What w holds afterwards is left to the program.
#[tactic(auto, using(crate::proofs::Judging::left_not_whole, crate::proofs::Judging::right_not_whole, crate::proofs::Judging::judged_large))]
pub fn judge(
    table: &[u32],
    terms: &[Cell],
    w: &mut [Cell],
    limit: usize,
    lines: usize,
    left: &[Cell],
    right: &[Cell],
    budget: u32,
    comparison: Comparison,
) -> Answer
    ensures { JudgedPost (second_in comparison) table.now terms.now w.old limit lines left.now right.now budget (code_of_answer result) (line_of_answer result) (steps_of_answer result) (length_of_answer result) }
{
    if !is_whole(table, lines, left, w) || !is_whole(table, lines, right, w) {
        return Err(Unanswered::Declined {
            cause: Cause::NotWhole,
            steps: 0,
        });
    }
    if left.len() > limit || right.len() > limit {
        return Err(Unanswered::Declined {
            cause: Cause::TooLarge,
            steps: 0,
        });
    }
    let a = level_at(limit, 0);
    let b = level_at(limit, 1);
    load(left, 0, left.len(), w, a);
    load(right, 0, right.len(), w, b);
    let mut rest = budget;
    let compared = compare_by(table, terms, w, limit, &mut rest, a, b, comparison);
    answer_of(compared, spent(budget, rest))
}
