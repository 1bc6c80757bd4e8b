// A constant's arguments: an argument kept, whether its category is stored; the constant's category.
ghost use Rattle.std.specs.Prelude.{ℕ, ◌+◌, ◌≤◌, ◌<◌, ◌^◌, length};
ghost use Rattle.cells.specs.Layout.{levels};
ghost use Rattle.constants.specs.Refusals.{code_in};
ghost use Rattle.levels.specs.Finds.{found_size, found_extent};
ghost use Rattle.levels.specs.ArgumentPosts.{KeptArgument, NextStart, ConstantPost, IsStoredPost};

use crate::found::{Found, made};
use cells::{field, level_at, result_at};
use constants::{CATEGORY_START, CELL_FACTOR, CELL_VALUES, CONTEXT_LENGTH, Cell, Reason};
use copies::load;
use instances::instantiate;

// A copy of the n cells of s from `at` on, as far behind `base` in w.
#[tactic(auto, using(crate::proofs::Instances::kept_copied))]
pub fn keep_argument(s: &[Cell], at: usize, n: usize, w: &mut [Cell], base: usize)
    requires { at ≤ length s.now }
    ensures { KeptArgument s.now at n w.old base w.new }
{
    if base <= w.len() {
        load(s, at, n, w, base + at);
    }
}

// Place i of `starts`, where an argument ends: `at`, if there is such a place and the number fits.
pub fn enter_start(starts: &mut [Cell; 64], i: usize, at: usize)
    ensures { NextStart starts.old i at starts.new }
{
    if i < 64 && at < CELL_VALUES {
        starts[i] = at as Cell;
    }
}

// Is the category of an expression with the first cell x stored on its line: is it a variable, or a constant without arguments?
pub fn is_stored(table: &[u32], x: Cell) -> bool
    ensures { IsStoredPost table.now x result }
{
    match x % CELL_FACTOR {
        1 => true,
        3 => field(table, (x / CELL_FACTOR) as usize, CONTEXT_LENGTH) == 0,
        _ => false,
    }
}

// The category of the constant of line v, whose arguments, of `extent` cells, passed and lie in the level's unit: the one on its
// line, they put in.
pub fn constant(
    table: &[u32],
    terms: &[Cell],
    w: &mut [Cell],
    limit: usize,
    extent: usize,
    starts: &[Cell; 64],
    level: usize,
    v: usize,
) -> Result<Found, Reason>
    requires { (level < levels) × (extent < 2 ^ 63) }
    ensures { (budget : ℕ) → ConstantPost table.now terms.now w.old limit 0 extent starts.now budget level v
        w.new (code_in result) (found_size result) (found_extent result) budget }
{
    let from = field(table, v, CATEGORY_START);
    let count = field(table, v, CONTEXT_LENGTH);
    let base = level_at(limit, level);
    let to = result_at(limit);
    let n = instantiate(table, terms, from, w, base, count, starts, to, limit);
    made(w, limit, level, n, extent + 1)
}
