// The function that a category reaches, and what is found for `[x,P]T`, from what was found for T.
ghost use Rattle.std.specs.Prelude.{ℕ, ◌+◌, ◌≤◌, ◌<◌, length};
ghost use Rattle.cells.specs.Layout.{levels};
ghost use Rattle.constants.specs.Refusals.{code_in};
ghost use Rattle.levels.specs.BinderPosts.{FunctionOfPost, OverBindingPost};
ghost use Rattle.levels.specs.Finds.{found_size, found_extent};
ghost use Rattle.reduction.specs.FunctionPosts.{function_in};

use crate::found::{Found, is_type, made};
use cells::{level_at, result_at};
use constants::{Cell, LARGEST_LIMIT, Reason};
use copies::{load, move_cells};
use reduction::{Function, to_function};

// Head steps of the category, of `size` cells, that was found at a level until it is an abstraction.
pub fn function_of(
    table: &[u32],
    terms: &[Cell],
    w: &mut [Cell],
    limit: usize,
    size: usize,
    budget: &mut u32,
    level: usize,
) -> Result<Function, Reason>
    requires { level < levels }
    ensures { FunctionOfPost table.now terms.now w.old limit 0 size budget.old level
        w.new (code_in result) (function_in result).domain (function_in result).body budget.new }
{
    let at = level_at(limit, level);
    to_function(table, terms, w, limit, budget, at, size)
}

// The category of `[x,P]T` from T's, which was found at this level: `type` if that is, else `[x,P]`, the first t cells of e,
// before it.
pub fn over_binding(
    e: &[Cell],
    t: usize,
    w: &mut [Cell],
    limit: usize,
    level: usize,
    found: Found,
) -> Result<Found, Reason>
    requires { (level < levels) × (t + found.extent ≤ length e.now) }
    ensures { (budget : ℕ) → OverBindingPost e.now t w.old limit level 0 found.size found.extent budget
        w.new (code_in result) (found_size result) (found_extent result) budget }
{
    let Found { size, extent } = found;
    if is_type(w, limit, level) {
        return Ok(Found {
            size,
            extent: t + extent,
        });
    }
    if limit > LARGEST_LIMIT || t > limit || size > limit - t {
        return Err(Reason::TooLarge);
    }
    let to = result_at(limit);
    let from = level_at(limit, level);
    load(e, 0, t, w, to);
    move_cells(w, from, to + t, size);
    made(w, limit, level, Some(t + size), t + extent)
}
