// The comparison of what was found at two levels.
ghost use Rattle.std.specs.Prelude.{ℕ, ◌<◌};
ghost use Rattle.cells.specs.Layout.{levels};
ghost use Rattle.constants.specs.Refusals.{code_in};
ghost use Rattle.typing.specs.ComparisonPosts.{ComparePost};

use cells::level_at;
use comparison::compare;
use constants::{Cell, NESTING, Reason};

// The comparison of what was found at level l with what was found at level r.
pub fn compare_units(
    table: &[u32],
    terms: &[Cell],
    w: &mut [Cell],
    limit: usize,
    budget: &mut u32,
    l: usize,
    r: usize,
) -> Result<(), Reason>
    requires { (l < levels) × (r < levels) }
    ensures { ComparePost table.now terms.now w.old limit budget.old l r w.new (code_in result) budget.new }
{
    let a = level_at(limit, l);
    let b = level_at(limit, r);
    compare(table, terms, w, limit, budget, a, b, NESTING)
}
