// Comparison of a found category, on the left, with a wanted one; and a second comparison, in another order.
//
// The sides at depth 1 to NESTING have two units each. A pair at one depth is made of parts of the pair above it, so opening it
// copies upwards, and nothing at a lesser depth changes.
#![tactic(auto)]

mod parts_first;

ghost use Rattle.constants.specs.Refusals.{code_in};
ghost use Rattle.comparison.specs.Posts.{Compares, ComparesParts};

use cells::{side_at, skip};
use constants::{Cell, LARGEST_LIMIT, NESTING, Reason};
pub use parts_first::compare_parts_first;
use sides::{Settled, settle, shapes_of};

// The expressions at a and b of w, a pair that may go `deeper` levels deeper (compare_at): NESTING for a first pair; with none it is
// too large.
#[cycle(compare_compare_parts)]
pub fn compare(
    table: &[u32],
    terms: &[Cell],
    w: &mut [Cell],
    limit: usize,
    budget: &mut u32,
    a: usize,
    b: usize,
    deeper: usize,
) -> Result<(), Reason>
    ensures { Compares table.now terms.now w.old limit budget.old a b deeper w.new (code_in result) budget.new }
{
    if deeper == 0 || deeper > NESTING || limit > LARGEST_LIMIT {
        return Err(Reason::TooLarge);
    }
    let l = side_at(limit, deeper);
    let r = l + limit;
    match settle(table, terms, w, limit, budget, a, b, l, r)? {
        Settled::Identical => Ok(()),
        Settled::Normal => compare_parts(table, terms, w, limit, budget, l, r, deeper - 1),
    }
}

// The parts of the sides at l and r, from left to right, one level deeper (compare_parts): a mismatch where the shapes differ.
#[cycle(compare_compare_parts)]
fn compare_parts(
    table: &[u32],
    terms: &[Cell],
    w: &mut [Cell],
    limit: usize,
    budget: &mut u32,
    l: usize,
    r: usize,
    deeper: usize,
) -> Result<(), Reason>
    ensures { ComparesParts table.now terms.now w.old limit budget.old l r deeper w.new (code_in result) budget.new }
{
    let Some(parts) = shapes_of(table, w, l, r) else {
        return Err(Reason::Mismatch);
    };
    let mut i = l + 1;
    let mut j = r + 1;
    for _part in 0..parts {
        compare(table, terms, w, limit, budget, i, j, deeper)?;
        i = skip(table, w, i, 1);
        j = skip(table, w, j, 1);
    }
    Ok(())
}
