// A whole book.
ghost use Rattle.aut68.specs.Language.{aut68};
ghost use Rattle.aut68.specs.Stores.{stores};
ghost use Rattle.aut68.specs.Demands.{Checks};
ghost use Rattle.outcomes.specs.Outcomes.{code_of_outcome, line_of_outcome, steps_of_outcome};

use books::admit;
use constants::Cell;
use outcomes::Outcome;

// Checks a book (run). Limit out of range, working store too small: every cell is as it was. Else: the rows, the term cells and the
// index entries of the lines before the refused one are written, the first WORK_UNITS × limit working cells are zero, and every other
// cell is as it was.
#[tactic(auto, using(theorems::proofs::Checks::checks))]
pub fn check_book(
    book: &[u8],
    budget: u32,
    limit: u32,
    table: &mut [u32],
    terms: &mut [Cell],
    work: &mut [Cell],
    index: &mut [u32],
) -> Outcome
    ensures { Checks aut68 book.now budget limit (stores table.old terms.old work.old index.old) (code_of_outcome result) (line_of_outcome result) (steps_of_outcome result) (stores table.new terms.new work.new index.new) }
{
    admit(book, budget, limit, table, terms, work, index)
}
