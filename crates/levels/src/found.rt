// What is found at a level, and what must be `type`.
ghost use Rattle.std.specs.Prelude.{ℕ, ◌<◌};
ghost use Rattle.cells.specs.Layout.{levels};
ghost use Rattle.constants.specs.Refusals.{code_in};
ghost use Rattle.levels.specs.Finds.{found_size, found_extent};
ghost use Rattle.levels.specs.FoundPosts.{MadePost, IsTypePost, FoundTypePost};
ghost use Rattle.terms.specs.Made.{size_in};

use cells::{level_at, result_at};
use constants::{Cell, Reason};
use copies::move_cells;

// A category of `size` cells, of an expression of `extent` cells.
#[derive(Clone, Copy, Debug, PartialEq, Eq)]
pub struct Found {
    pub size: usize,
    pub extent: usize,
}

// What was made in the result unit, of n cells or of more than there is room for, becomes what is found at a level, for an expression
// of `extent` cells; too large where it has more than `limit` cells.
pub fn made(
    w: &mut [Cell],
    limit: usize,
    level: usize,
    n: Option<usize>,
    extent: usize,
) -> Result<Found, Reason>
    requires { level < levels }
    ensures { (budget : ℕ) → MadePost w.old limit budget level (size_in n) extent w.new (code_in result) (found_size result) (found_extent result) budget }
{
    match n {
        Some(size) if size <= limit => {
            let from = result_at(limit);
            let to = level_at(limit, level);
            move_cells(w, from, to, size);
            Ok(Found { size, extent })
        }
        _ => Err(Reason::TooLarge),
    }
}

// Is what was found at a level `type`?
pub fn is_type(w: &[Cell], limit: usize, level: usize) -> bool
    requires { level < levels }
    ensures { IsTypePost w.now limit level result }
{
    let at = level_at(limit, level);
    at < w.len() && w[at] == 0
}

// What was found at a level must be `type`.
#[tactic(auto, using(crate::proofs::Types::type_passed, crate::proofs::Types::type_missed), unfolding(aut68::specs::Procedure::Answer::code_of))]
pub fn found_type(w: &[Cell], limit: usize, level: usize) -> Result<(), Reason>
    requires { level < levels }
    ensures { (size budget : ℕ) → FoundTypePost w.now limit level 0 size budget (code_in result) budget }
{
    if is_type(w, limit, level) {
        Ok(())
    } else {
        Err(Reason::NotType)
    }
}
