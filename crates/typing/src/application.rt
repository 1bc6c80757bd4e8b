// What is found for `<A>B`, from what was found for its parts.
ghost use Rattle.std.specs.Prelude.{ℕ, ◌+◌, ◌≤◌, ◌<◌, length};
ghost use Rattle.cells.specs.Layout.{levels};
ghost use Rattle.constants.specs.Refusals.{code_in};
ghost use Rattle.levels.specs.Finds.{found_size, found_extent};
ghost use Rattle.typing.specs.ApplicationPosts.{AppliedPost};

use cells::{level_at, result_at, scratch_at};
use comparison::compare;
use constants::{Cell, NESTING, Reason};
use copies::load;
use levels::{Found, made};
use reduction::Function;
use terms::substitute;

// The category of `<A>B` at the start of e, B of `extent` cells at index b, from the function that B's category reaches, at this
// level, and A's category, at the next: their comparison, then the body with A put in.
pub fn applied(
    table: &[u32],
    terms: &[Cell],
    e: &[Cell],
    b: usize,
    extent: usize,
    w: &mut [Cell],
    limit: usize,
    budget: &mut u32,
    level: usize,
    function: Function,
) -> Result<Found, Reason>
    requires { (level + 1 < levels) × (1 ≤ b) × (b + extent ≤ length e.now) }
    ensures { (size : ℕ) → AppliedPost table.now terms.now e.now b extent w.old limit level function.domain function.body 0 size budget.old
        w.new (code_in result) (found_size result) (found_extent result) budget.new }
{
    let a = level_at(limit, level + 1);
    compare(table, terms, w, limit, budget, a, function.domain, NESTING)?;
    let scratch = scratch_at(limit);
    let to = result_at(limit);
    load(e, 1, b - 1, w, scratch);
    let n = substitute(table, w, function.body, scratch, to, limit);
    made(w, limit, level, n, b + extent)
}
