// A book printed on pages.
#![tactic(auto)]

ghost use Rattle.aut68.specs.Language.{aut68};
ghost use Rattle.aut68.specs.Stores.{stores};
ghost use Rattle.aut68.specs.Printing.{PrintsPages};
ghost use Rattle.outcomes.specs.Answers.{code_of_answer, line_of_answer, steps_of_answer, length_of_answer};

use books::admit;
use constants::{Cause, Cell, PAGE_ROW};
use outcomes::{Answer, Given, Unanswered};
use page_rows::{count_rows, put_pages};

// Prints a book, in the first bytes of the page store. The book is checked first, as `check_book` does it, and a refusal is passed on.
// The pages do not fit: nothing is written there.
pub fn print_pages(
    book: &[u8],
    budget: u32,
    limit: u32,
    table: &mut [u32],
    terms: &mut [Cell],
    work: &mut [Cell],
    index: &mut [u32],
    page: &mut [u8],
) -> Answer
    ensures { PrintsPages aut68 book.now budget limit (stores table.old terms.old work.old index.old) page.old (code_of_answer result) (line_of_answer result) (steps_of_answer result) (length_of_answer result) (stores table.new terms.new work.new index.new) page.new }
{
    admit(book, budget, limit, table, terms, work, index)?;
    let rows = count_rows(book);
    if rows > page.len() / PAGE_ROW {
        return Err(Unanswered::Declined {
            cause: Cause::StoreTooSmall,
            steps: 0,
        });
    }
    put_pages(book, page);
    let bytes = PAGE_ROW * rows;
    Ok(Given {
        steps: 0,
        length: bytes as u32,
    })
}
