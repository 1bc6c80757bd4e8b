// The head step itself.
ghost use Rattle.std.specs.Prelude.{◌≡◌, ℕ, ◌≤◌};
ghost use Rattle.aut68.specs.Sizes.{largest_limit};
ghost use Rattle.reduction.specs.Posts.{ArgumentsAtPost, ContractedPost, UnfoldedPost, InPlacePost, RedexPost, StepPost};

use cells::{field, result_at, skip};
use constants::{CATEGORY_START, CELL_VALUES, CONTEXT_LENGTH, Cell, LARGEST_LIMIT, MIDDLE_START};
use copies::{load, move_cells};
use heads::{Head, HeadStep};
use instances::instantiate;
use terms::substitute;

// Where each of the `count` arguments that lie from `at` on in w starts, counted from there, and where the last one ends: as far as
// there are places for it. The first place is not written: it has 0.
fn arguments_at(table: &[u32], w: &[Cell], at: usize, count: usize, starts: &mut [Cell; 64])
    ensures { ArgumentsAtPost table.now w.now at count starts.old starts.new }
{
    let mut next = at;
    for i in 1..64 {
        if i > count {
            return;
        }
        next = skip(table, w, next, 1);
        if next < at || next - at >= CELL_VALUES {
            return;
        }
        starts[i] = (next - at) as Cell;
    }
}

// <A>[x,P]T at index `at` of w becomes T with A for x, in the result unit, in at most `room` cells. Returns its size.
fn contracted(table: &[u32], w: &mut [Cell], limit: usize, at: usize, room: usize) -> Option<usize>
    requires { limit ≤ largest_limit }
    ensures { ContractedPost table.now w.old w.new limit at room result }
{
    if at >= w.len() {
        return None;
    }
    let a = at + 1;
    let f = skip(table, w, a, 1);
    if f >= w.len() {
        return None;
    }
    let t = skip(table, w, f + 1, 1);
    substitute(table, w, t, a, result_at(limit), room)
}

// The abbreviation of line v, with its arguments behind its cell at `at`, becomes its middle with them put in, in the result
// unit, in at most `room` cells. Returns its size.
fn unfolded(
    table: &[u32],
    terms: &[Cell],
    w: &mut [Cell],
    limit: usize,
    at: usize,
    v: usize,
    room: usize,
) -> Option<usize>
    requires { limit ≤ largest_limit }
    ensures { UnfoldedPost table.now terms.now w.old w.new limit at v room result }
{
    if at >= w.len() {
        return None;
    }
    let from = field(table, v, MIDDLE_START);
    let count = field(table, v, CONTEXT_LENGTH);
    let mut starts = [0; 64];
    arguments_at(table, w, at + 1, count, &mut starts);
    instantiate(
        table,
        terms,
        from,
        w,
        at + 1,
        count,
        &starts,
        result_at(limit),
        room,
    )
}

// The redex of h, contracted or unfolded, in the result unit.
fn redex(
    table: &[u32],
    terms: &[Cell],
    w: &mut [Cell],
    limit: usize,
    h: Head,
    room: usize,
) -> Option<usize>
    requires { limit ≤ largest_limit }
    ensures { RedexPost table.now terms.now w.old w.new limit h room result }
{
    match h.step {
        HeadStep::Contraction => contracted(table, w, limit, h.at, room),
        HeadStep::Unfolding { line } => unfolded(table, terms, w, limit, h.at, line, room),
    }
}

// The abbreviation of line v, which takes no arguments, with its cell at `at`, becomes its middle, in place, if that has at most
// `room` cells. Returns its size.
fn unfolded_in_place(
    table: &[u32],
    terms: &[Cell],
    w: &mut [Cell],
    at: usize,
    v: usize,
    room: usize,
) -> Option<usize>
    ensures { InPlacePost table.now terms.now w.old w.new at v room result }
{
    let from = field(table, v, MIDDLE_START);
    let end = field(table, v, CATEGORY_START);
    if end < from || end - from > room {
        return None;
    }
    let n = end - from;
    load(terms, from, n, w, at);
    Some(n)
}

// The head step h of an expression of at most `limit` cells, in place. Returns the new size; None where it would have more than
// `limit` cells, with the expression as it was.
pub fn step(table: &[u32], terms: &[Cell], w: &mut [Cell], limit: usize, h: Head) -> Option<usize>
    ensures { StepPost table.now terms.now w.old w.new limit h result }
{
    if limit > LARGEST_LIMIT || h.kept > limit {
        return None;
    }
    let room = limit - h.kept;
    if let HeadStep::Unfolding { line } = h.step {
        if field(table, line, CONTEXT_LENGTH) == 0 {
            let n = unfolded_in_place(table, terms, w, h.at, line, room)?;
            return Some(h.kept + n);
        }
    }
    let n = redex(table, terms, w, limit, h, room)?;
    move_cells(w, result_at(limit), h.at, n);
    Some(h.kept + n)
}
