// An argument of a constant: its category against the wanted one.
ghost use Rattle.std.specs.Prelude.{◌≡◌, ℕ, ◌+◌, ◌<◌, IfOk};
ghost use Rattle.aut68.specs.Lines.{row_cell};
ghost use Rattle.aut68.specs.Sizes.{at_category, at_end};
ghost use Rattle.cells.specs.Layout.{levels};
ghost use Rattle.constants.specs.Refusals.{code_in};
ghost use Rattle.levels.specs.Finds.{found_size, found_extent};
ghost use Rattle.terms.specs.Made.{InstancePost};
ghost use Rattle.typing.specs.FittingPosts.{WantedPost, StoredFitsPost, ArgumentFitsPost};

use crate::comparisons::compare_units;
use cells::{field, level_at};
use constants::{CATEGORY_END, CATEGORY_START, Cell, Reason};
use instances::instantiate;
use levels::{Found, stored};
use matching::is_instance;

// The wanted category of an argument: that of the context variable on a line, with the arguments before put in, `count` of them, which
// lie from `base` on, each where `starts` says.
#[derive(Clone, Copy)]
pub struct Wanted<'a> {
    pub line: usize,
    pub base: usize,
    pub count: usize,
    pub starts: &'a [Cell; 64],
}

impl Wanted<'_> {
    // Is it seen at once that the wanted category is the n cells of f from `at` on?
    fn seen_at(
        self,
        table: &[u32],
        terms: &[Cell],
        w: &[Cell],
        f: &[Cell],
        at: usize,
        n: usize,
    ) -> bool
        ensures { InstancePost table.now terms.now (row_cell table.now self.entry.line at_category) (row_cell table.now self.entry.line at_end)
            w.now self.entry.base self.entry.count self.entry.starts.now f.now at n result }
    {
        let from = field(table, self.line, CATEGORY_START);
        let stop = field(table, self.line, CATEGORY_END);
        is_instance(
            table,
            terms,
            from,
            stop,
            w,
            self.base,
            self.count,
            self.starts,
            f,
            at,
            n,
        )
    }
}

// The wanted category of an argument, two levels deeper; its comparison with what was found one level deeper.
fn compare_wanted(
    table: &[u32],
    terms: &[Cell],
    w: &mut [Cell],
    limit: usize,
    budget: &mut u32,
    level: usize,
    wanted: Wanted,
) -> Result<(), Reason>
    requires { level + 2 < levels }
    ensures { WantedPost table.now terms.now w.old limit budget.old level
        wanted.entry.line wanted.entry.base wanted.entry.count wanted.entry.starts.now w.new (code_in result) budget.new }
{
    let Wanted {
        line,
        base,
        count,
        starts,
    } = wanted;
    let from = field(table, line, CATEGORY_START);
    let to = level_at(limit, level + 2);
    let made = instantiate(table, terms, from, w, base, count, starts, to, limit);
    if made.is_none() {
        return Err(Reason::TooLarge);
    }
    compare_units(table, terms, w, limit, budget, level + 1, level + 2)
}

// An argument of a constant whose category is stored on line v: that category and the wanted one, compared. Returns how many cells the
// argument has: one.
pub fn stored_fits(
    table: &[u32],
    terms: &[Cell],
    w: &mut [Cell],
    limit: usize,
    budget: &mut u32,
    level: usize,
    v: usize,
    wanted: Wanted,
) -> Result<usize, Reason>
    requires { level + 2 < levels }
    ensures { StoredFitsPost table.now terms.now w.old limit budget.old level v
        wanted.entry.line wanted.entry.base wanted.entry.count wanted.entry.starts.now w.new (code_in result) budget.new
        × IfOk result (λ extent. extent ≡ 1) }
{
    let at = field(table, v, CATEGORY_START);
    let end = field(table, v, CATEGORY_END);
    if end >= at && end - at <= limit && wanted.seen_at(table, terms, w, terms, at, end - at) {
        return Ok(1);
    }
    stored(table, terms, w, limit, level + 1, v)?;
    compare_wanted(table, terms, w, limit, budget, level, wanted)?;
    Ok(1)
}

// An argument of a constant whose category was found at the next level: that category and the wanted one, compared; or the refusal of
// the search. Returns how many cells the argument has.
pub fn argument_fits(
    table: &[u32],
    terms: &[Cell],
    w: &mut [Cell],
    limit: usize,
    budget: &mut u32,
    found: Result<Found, Reason>,
    level: usize,
    wanted: Wanted,
) -> Result<usize, Reason>
    requires { level + 2 < levels }
    ensures { ArgumentFitsPost table.now terms.now w.old limit (code_in found) (found_size found) budget.old level
        wanted.entry.line wanted.entry.base wanted.entry.count wanted.entry.starts.now
        w.new (code_in result) budget.new
        × IfOk result (λ extent. extent ≡ found_extent found) }
{
    let Found { size, extent } = found?;
    let at = level_at(limit, level + 1);
    if wanted.seen_at(table, terms, w, w, at, size) {
        return Ok(extent);
    }
    compare_wanted(table, terms, w, limit, budget, level, wanted)?;
    Ok(extent)
}
