// The checks of the line at hand, whose cells are the last of the term store.
ghost use Rattle.std.specs.Prelude.{◌≡◌, ℕ};
ghost use Rattle.constants.specs.Refusals.{code_in};
ghost use Rattle.categories.specs.Posts.{CheckWrittenPost, CheckMiddlePost, CheckCellsPost};

use crate::category;
use cells::{level_at, no_bindings};
use constants::{Cell, Reason};
use copies::load;
use levels::found_type;
use typing::compare_units;

// The written category, at index `at` of the terms: it is `type`, or its category is.
fn check_written(
    table: &[u32],
    terms: &[Cell],
    at: usize,
    w: &mut [Cell],
    limit: usize,
    budget: &mut u32,
) -> Result<(), Reason>
    ensures { CheckWrittenPost table.now terms.now at w.old limit budget.old w.new (code_in result) budget.new }
{
    let Some(&x) = terms.get(at) else {
        return Err(Reason::NotType);
    };
    if x == 0 {
        return Ok(());
    }
    let scope = no_bindings();
    category(table, terms, &terms[at..], scope, w, limit, budget, 0)?;
    found_type(w, limit, 0)
}

// The middle, in the cells start..at: its category must equal the written one, which lies from `at` to the store's end.
fn check_middle(
    table: &[u32],
    terms: &[Cell],
    start: usize,
    at: usize,
    w: &mut [Cell],
    limit: usize,
    budget: &mut u32,
) -> Result<(), Reason>
    ensures { CheckMiddlePost table.now terms.now start at w.old limit budget.old w.new (code_in result) budget.new }
{
    if start >= at {
        return Ok(());
    }
    if at > terms.len() {
        return Err(Reason::TooLarge);
    }
    let scope = no_bindings();
    category(table, terms, &terms[start..], scope, w, limit, budget, 0)?;
    let n = terms.len() - at;
    let to = level_at(limit, 1);
    load(terms, at, n, w, to);
    compare_units(table, terms, w, limit, budget, 0, 1)
}

// The line whose middle lies in the term cells start..at (none for `EB` and `PN`) and whose category lies from `at` to the
// store's end: the written category, then the middle's and their comparison.
pub fn check_cells(
    table: &[u32],
    terms: &[Cell],
    start: usize,
    at: usize,
    w: &mut [Cell],
    limit: usize,
    budget: &mut u32,
) -> Result<(), Reason>
    ensures { CheckCellsPost table.now terms.now start at w.old limit budget.old w.new (code_in result) budget.new }
{
    check_written(table, terms, at, w, limit, budget)?;
    check_middle(table, terms, start, at, w, limit, budget)
}
