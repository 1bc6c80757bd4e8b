// Instantiation: an expression with the arguments put in. They lie in the store w that is written to, the expression in another.
ghost use Rattle.std.specs.Prelude.{◌≤◌, length, take};
ghost use Rattle.aut68.specs.Sizes.{cell_values};
ghost use Rattle.terms.specs.Made.{InstantiatePost, WithinRoom, size_in};
ghost use Rattle.terms.specs.Grafts.{Instantiates, GraftPost};

use crate::arguments::argument_for;
use cells::kids;
use constants::{CELL_FACTOR, Cell};
use terms::{Change, Ends, Leaf, graft_by};

// The expression at `from` of s, from under `cut` bindings, with the arguments put in, at `to`. None where the store ends before the
// result does.
// Kept: a walk of its own; as a mode of the walk that lifts and substitutes it costs every cell a fifth more.
pub fn instantiate_in(
    table: &[u32],
    s: &[Cell],
    w: &mut [Cell],
    end: usize,
    from: usize,
    to: usize,
    cut: usize,
    base: usize,
    count: usize,
    starts: &[Cell; 64],
) -> Option<Ends>
    requires { (end ≤ to) × (to ≤ length w.old) × (cut ≤ from) }
    ensures { GraftPost cell_values (Instantiates table.now base count starts.now) table.now (take end w.old)
        s.now w.old w.new from to cut result }
{
    if from > s.len() {
        return None;
    }
    let mut i = from;
    let mut at = to;
    let mut pending = 1;
    while pending > 0 {
        if pending > s.len() - i {
            return None;
        }
        if at >= w.len() {
            return None;
        }
        let x = s[i];
        let k = x % CELL_FACTOR;
        if k == 5 {
            w[at] = x;
            let domain = instantiate_in(table, s, w, end, i + 1, at + 1, cut, base, count, starts)?;
            let body = instantiate_in(
                table,
                s,
                w,
                end,
                domain.from,
                domain.to,
                cut + 1,
                base,
                count,
                starts,
            )?;
            i = body.from;
            at = body.to;
            pending -= 1;
        } else if k < 3 {
            match argument_for(table, w, x, base, count, starts) {
                Leaf::One(cell) => {
                    w[at] = cell;
                    i += 1;
                    at += 1;
                }
                Leaf::Expression(start) => {
                    let put = graft_by(table, w, end, start, at, 0, Change::Lift(cut))?;
                    i += 1;
                    at = put.to;
                }
                Leaf::TooHigh => return None,
            }
            pending -= 1;
        } else {
            w[at] = x;
            pending = pending - 1 + kids(table, x);
            i += 1;
            at += 1;
        }
    }
    Some(Ends { from: i, to: at })
}

// The expression at index e of s, with the arguments for the context variables, all at once.
pub fn instantiate(
    table: &[u32],
    s: &[Cell],
    e: usize,
    w: &mut [Cell],
    base: usize,
    count: usize,
    starts: &[Cell; 64],
    to: usize,
    room: usize,
) -> Option<usize>
    ensures { InstantiatePost table.now s.now w.old w.new e base count starts.now to room (size_in result) × WithinRoom room result }
{
    if to > w.len() || room > w.len() - to {
        return None;
    }
    let ends = instantiate_in(
        table,
        s,
        &mut w[..to + room],
        to,
        e,
        to,
        0,
        base,
        count,
        starts,
    )?;
    Some(ends.to - to)
}
