// The second comparison, parts first: where a side has a head step, the parts of two sides of one shape are compared before it is taken.
//
// The sides stay where they are during such an attempt: what it opens lies above them.
ghost use Rattle.constants.specs.Refusals.{code_in};
ghost use Rattle.comparison.specs.Posts.{ComparesFirst, AttemptsParts};

use cells::{side_at, skip};
use constants::{Cell, LARGEST_LIMIT, NESTING, Reason};
use sides::{Progress, identical, open_pair, shapes_of, turn};

// The expressions at a and b of w, a pair that may go `deeper` levels deeper (parts_first_at): NESTING for a first pair; with none it is
// too large.
#[cycle(attempt_compare_parts_first)]
pub fn compare_parts_first(
    table: &[u32],
    terms: &[Cell],
    w: &mut [Cell],
    limit: usize,
    budget: &mut u32,
    a: usize,
    b: usize,
    deeper: usize,
) -> Result<(), Reason>
    ensures { ComparesFirst table.now terms.now w.old limit budget.old a b deeper w.new (code_in result) budget.new }
{
    if deeper == 0 || deeper > NESTING || limit > LARGEST_LIMIT {
        return Err(Reason::TooLarge);
    }
    let l = side_at(limit, deeper);
    let r = l + limit;
    let Some(mut sizes) = open_pair(table, w, a, b, l, r) else {
        return Ok(());
    };
    loop {
        if identical(w, l, sizes.left, r, sizes.right) {
            return Ok(());
        }
        let Err(reason) = attempt(table, terms, w, limit, budget, l, r, deeper - 1) else {
            return Ok(());
        };
        if reason != Reason::Mismatch {
            return Err(reason);
        }
        match turn(table, terms, w, limit, budget, l, r, sizes)? {
            Progress::Identical => return Ok(()),
            Progress::Normal => return Err(Reason::Mismatch),
            Progress::Stepped(next) => sizes = next,
        }
    }
}

// The parts of the sides at l and r, from left to right, one level deeper (compare_parts, by the second comparison): a mismatch where the
// shapes differ.
// Kept: beside compare_parts, which calls the first comparison; tried as one function over a trait of both: a cycle through it gets no proof.
#[cycle(attempt_compare_parts_first)]
fn attempt(
    table: &[u32],
    terms: &[Cell],
    w: &mut [Cell],
    limit: usize,
    budget: &mut u32,
    l: usize,
    r: usize,
    deeper: usize,
) -> Result<(), Reason>
    ensures { AttemptsParts table.now terms.now w.old limit budget.old l r deeper w.new (code_in result) budget.new }
{
    let Some(parts) = shapes_of(table, w, l, r) else {
        return Err(Reason::Mismatch);
    };
    let mut i = l + 1;
    let mut j = r + 1;
    for _part in 0..parts {
        compare_parts_first(table, terms, w, limit, budget, i, j, deeper)?;
        i = skip(table, w, i, 1);
        j = skip(table, w, j, 1);
    }
    Ok(())
}
