// What a line rests on.
#![tactic(auto)]

ghost use Rattle.aut68.specs.Language.{aut68};
ghost use Rattle.aut68.specs.Stores.{stores};
ghost use Rattle.aut68.specs.Resting.{TellsRests};
ghost use Rattle.outcomes.specs.Answers.{code_of_answer, line_of_answer, steps_of_answer, length_of_answer};

use books::admit;
use constants::{Cause, Cell, WORK_UNITS};
use outcomes::{Answer, Given, Unanswered};
use reaching::put_beneath;

// Tells what a line of a book rests on: the `PN` lines reached from it by following names, itself included, ascending, each once, in the
// first cells of the answer. The book is checked first, as `check_book` does it, and a refusal is passed on. Line 0 or above the last, a
// list that does not fit: nothing is written in the answer.
pub fn rests_on(
    book: &[u8],
    budget: u32,
    limit: u32,
    table: &mut [u32],
    terms: &mut [Cell],
    work: &mut [Cell],
    index: &mut [u32],
    line: u32,
    answer: &mut [u32],
) -> Answer
    ensures { TellsRests aut68 book.now budget limit (stores table.old terms.old work.old index.old) line answer.old (code_of_answer result) (line_of_answer result) (steps_of_answer result) (length_of_answer result) (stores table.new terms.new work.new index.new) answer.new }
{
    let a = admit(book, budget, limit, table, terms, work, index)?;
    if line == 0 {
        return Err(Unanswered::Declined {
            cause: Cause::NoSuchLine,
            steps: 0,
        });
    }
    if line > a.lines {
        return Err(Unanswered::Declined {
            cause: Cause::NoSuchLine,
            steps: 0,
        });
    }
    let n = WORK_UNITS * (limit as usize);
    let count = put_beneath(table, terms, line as usize, &mut work[..n], answer);
    if count > answer.len() {
        return Err(Unanswered::Declined {
            cause: Cause::AnswerTooLong,
            steps: 0,
        });
    }
    Ok(Given {
        steps: 0,
        length: count as u32,
    })
}
