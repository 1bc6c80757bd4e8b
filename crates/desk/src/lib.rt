// Two strings of cells compared over a book. The book is checked first, as `check_book` does it, and a refusal is passed on.
#![tactic(auto)]

ghost use Rattle.std.specs.Prelude.{true, false};
ghost use Rattle.aut68.specs.Stores.{stores};
ghost use Rattle.aut68.specs.Desk.{ComparesStrings};
ghost use Rattle.judging.specs.Posts.{second_in};
ghost use Rattle.outcomes.specs.Answers.{code_of_answer, line_of_answer, steps_of_answer, length_of_answer};

use books::admit;
use constants::{Cell, WORK_UNITS};
use copies::clear;
use judging::{Comparison, judge};
use outcomes::Answer;

// The first comparison of two strings of cells, or the second, over the lines of a book.
fn compare_over(
    book: &[u8],
    budget: u32,
    limit: u32,
    table: &mut [u32],
    terms: &mut [Cell],
    work: &mut [Cell],
    index: &mut [u32],
    left: &[Cell],
    right: &[Cell],
    own: u32,
    comparison: Comparison,
) -> Answer
    ensures { ComparesStrings (second_in comparison) book.now budget limit (stores table.old terms.old work.old index.old) left.now right.now own (code_of_answer result) (line_of_answer result) (steps_of_answer result) (length_of_answer result) (stores table.new terms.new work.new index.new) }
{
    let a = admit(book, budget, limit, table, terms, work, index)?;
    let most = limit as usize;
    let n = WORK_UNITS * most;
    let lines = a.lines as usize;
    let r = judge(
        table,
        terms,
        &mut work[..n],
        most,
        lines,
        left,
        right,
        own,
        comparison,
    );
    clear(work, n);
    r
}

// Compares two strings of cells, each one whole expression or `type` alone, over the lines of a book, with the budget `own`: 0, they have a
// common expression; 9, they have none; 10 or 11, not decided. A string that is not whole: 18, and nothing is compared.
pub fn compare_strings(
    book: &[u8],
    budget: u32,
    limit: u32,
    table: &mut [u32],
    terms: &mut [Cell],
    work: &mut [Cell],
    index: &mut [u32],
    left: &[Cell],
    right: &[Cell],
    own: u32,
) -> Answer
    ensures { ComparesStrings false book.now budget limit (stores table.old terms.old work.old index.old) left.now right.now own (code_of_answer result) (line_of_answer result) (steps_of_answer result) (length_of_answer result) (stores table.new terms.new work.new index.new) }
{
    compare_over(
        book,
        budget,
        limit,
        table,
        terms,
        work,
        index,
        left,
        right,
        own,
        Comparison::First,
    )
}

// The same by the second comparison, parts first.
pub fn compare_strings_parts_first(
    book: &[u8],
    budget: u32,
    limit: u32,
    table: &mut [u32],
    terms: &mut [Cell],
    work: &mut [Cell],
    index: &mut [u32],
    left: &[Cell],
    right: &[Cell],
    own: u32,
) -> Answer
    ensures { ComparesStrings true book.now budget limit (stores table.old terms.old work.old index.old) left.now right.now own (code_of_answer result) (line_of_answer result) (steps_of_answer result) (length_of_answer result) (stores table.new terms.new work.new index.new) }
{
    compare_over(
        book,
        budget,
        limit,
        table,
        terms,
        work,
        index,
        left,
        right,
        own,
        Comparison::PartsFirst,
    )
}
