// A list of pairs of strings compared over a book. The book is checked first, once, as `check_book` does it, and a refusal is passed on;
// crate `pairs` says what the sheet then holds.
#![tactic(auto)]

ghost use Rattle.aut68.specs.Stores.{stores};
ghost use Rattle.pairs.specs.Sheet.{ComparesSheet, counted};
ghost use Rattle.outcomes.specs.Answers.{code_of_answer, line_of_answer, steps_of_answer, length_of_answer};
ghost use Rattle.std.specs.Prelude.{◌≡◌, ◌≤◌, ◌<◌};

use books::admit;
use constants::{Cause, Cell, WORK_UNITS};
use copies::clear;
use outcomes::{Answer, AnswerNumbers, Given, Unanswered};
use pairs::{Pair, compare_pairs};

// A number of pairs, as far as 32 bits go.
fn count(pairs: usize) -> u32
    ensures { result ≡ counted pairs }
{
    match u32::try_from(pairs) {
        Ok(n) => n,
        Err(_) => u32::MAX,
    }
}

// How many pairs of a list are compared: all, or none where the sheet has fewer places.
fn compared(pairs: usize, places: usize) -> usize
    ensures { (places < pairs → result ≡ 0) × (pairs ≤ places → result ≡ pairs) }
{
    if places < pairs {
        return 0; // and not those that fit
    }
    pairs
}

// Compares pairs of strings over the lines of a book, by the first comparison, each on its own budget, and puts the outcome of each into
// its place on the sheet: those of as many calls of `compare_strings`, in the same order. 15, and none is written, if the sheet is shorter
// than the list; past the list it keeps its places.
pub fn compare_sheet(
    book: &[u8],
    budget: u32,
    limit: u32,
    table: &mut [u32],
    terms: &mut [Cell],
    work: &mut [Cell],
    index: &mut [u32],
    cells: &[Cell],
    pairs: &[Pair],
    sheet: &mut [AnswerNumbers],
) -> Answer
    ensures { ComparesSheet book.now budget limit (stores table.old terms.old work.old index.old) cells.now pairs.now sheet.old (code_of_answer result) (line_of_answer result) (steps_of_answer result) (length_of_answer result) (stores table.new terms.new work.new index.new) sheet.new }
{
    let a = admit(book, budget, limit, table, terms, work, index)?;
    let n = compared(pairs.len(), sheet.len());
    compare_pairs(table, terms, work, limit, a.lines, cells, pairs, sheet, n);
    if n < pairs.len() {
        return Err(Unanswered::Declined {
            cause: Cause::StoreTooSmall,
            steps: 0,
        });
    }
    if n == 0 {
        return Ok(Given {
            steps: 0,
            length: 0,
        });
    }
    clear(work, WORK_UNITS * limit as usize);
    Ok(Given {
        steps: 0,
        length: count(n),
    })
}
