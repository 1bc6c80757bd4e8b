// The category on a line, and that of a bound variable.
ghost use Rattle.std.specs.Prelude.{ℕ, ◌<◌};
ghost use Rattle.cells.specs.Layout.{levels};
ghost use Rattle.constants.specs.Refusals.{code_in};
ghost use Rattle.levels.specs.Finds.{found_size, found_extent};
ghost use Rattle.levels.specs.LeafPosts.{StoredPost, BoundPost};

use crate::found::{Found, made};
use cells::{Scope, field, level_at, result_at, scratch_at};
use constants::{CATEGORY_END, CATEGORY_START, Cell, NESTING, Reason};
use copies::load;
use terms::raise;

// The category on line v: that of its variable, or of its constant without arguments.
pub fn stored(
    table: &[u32],
    terms: &[Cell],
    w: &mut [Cell],
    limit: usize,
    level: usize,
    v: usize,
) -> Result<Found, Reason>
    requires { level < levels }
    ensures { (budget : ℕ) → StoredPost table.now terms.now w.old limit budget level v w.new (code_in result) (found_size result) (found_extent result) budget }
{
    let from = field(table, v, CATEGORY_START);
    let end = field(table, v, CATEGORY_END);
    if end < from || end - from > limit {
        return Err(Reason::TooLarge);
    }
    let size = end - from;
    let to = level_at(limit, level);
    load(terms, from, size, w, to);
    Ok(Found { size, extent: 1 })
}

// The category of the bound variable with v bindings between: its domain, moved under v + 1 bindings.
pub fn bound(
    table: &[u32],
    terms: &[Cell],
    scope: Scope,
    w: &mut [Cell],
    limit: usize,
    level: usize,
    v: usize,
) -> Result<Found, Reason>
    requires { level < levels }
    ensures { (budget : ℕ) → BoundPost table.now terms.now scope w.old limit budget level v w.new (code_in result) (found_size result) (found_extent result) budget }
{
    let bindings = scope.bound;
    if bindings > NESTING || v >= bindings {
        return Err(Reason::UnknownName);
    }
    let i = bindings - 1 - v;
    let from = scope.starts[i] as usize;
    let len = scope.lens[i] as usize;
    let scratch = scratch_at(limit);
    let to = result_at(limit);
    load(terms, from, len, w, scratch);
    let n = raise(table, w, scratch, v + 1, to, limit);
    made(w, limit, level, n, 1)
}
