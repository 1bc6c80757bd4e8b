// Admission: a whole book under the limits that its caller gives. Calls on an accepted book begin with it.
ghost use Rattle.std.specs.Prelude.{◌≡◌};
ghost use Rattle.aut68.specs.Language.{aut68};
ghost use Rattle.aut68.specs.Stores.{stores, limits_of};
ghost use Rattle.aut68.specs.Procedure.Run.{run};
ghost use Rattle.aut68.specs.Demands.{Determined};
ghost use Rattle.outcomes.specs.Outcomes.{code_of_outcome, line_of_outcome, steps_of_outcome};

use crate::lines::check_lines;
use constants::{BOOK_LIMIT, Cell, LARGEST_LIMIT, Reason, SMALLEST_LIMIT, WORK_UNITS};
use copies::clear;
use outcomes::{Accepted, Outcome, Refused, spent};

// Refused ahead of its lines.
fn ahead_of_lines(reason: Reason) -> Outcome
    ensures { result ≡ Err (record { reason = reason; line = 0; steps = 0 }) }
{
    Err(Refused {
        reason,
        line: 0,
        steps: 0,
    })
}

// Checks a book (run). Limit out of range, working store too small: every cell is as it was. Else: the rows, the term cells and the
// index entries of the lines before the refused one are written, the first WORK_UNITS × limit working cells are zero, and every other
// cell is as it was. records/Runs has what table and term store then hold of the lines.
pub fn admit(
    book: &[u8],
    budget: u32,
    limit: u32,
    table: &mut [u32],
    terms: &mut [Cell],
    work: &mut [Cell],
    index: &mut [u32],
) -> Outcome
    ensures { Determined (run aut68 book.now (limits_of budget limit (stores table.old terms.old work.old index.old))) limit (stores table.old terms.old work.old index.old) (code_of_outcome result) (line_of_outcome result) (steps_of_outcome result) (stores table.new terms.new work.new index.new) }
{
    let most = limit as usize;
    if most < SMALLEST_LIMIT {
        return ahead_of_lines(Reason::LimitOutOfRange);
    }
    if most > LARGEST_LIMIT {
        return ahead_of_lines(Reason::LimitOutOfRange);
    }
    let n = WORK_UNITS * most;
    if work.len() < n {
        return ahead_of_lines(Reason::WorkTooSmall);
    }
    if book.len() > BOOK_LIMIT {
        clear(work, n);
        return ahead_of_lines(Reason::OutOfSpace);
    }
    let e = check_lines(book, table, terms, index, &mut work[..n], most, budget);
    clear(work, n);
    let lines = e.lines as u32;
    let steps = spent(budget, e.budget);
    match e.checked {
        Ok(()) => Ok(Accepted { lines, steps }),
        Err(reason) => Err(Refused {
            reason,
            line: lines + 1,
            steps,
        }),
    }
}
