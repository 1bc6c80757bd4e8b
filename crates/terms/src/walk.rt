// The walk: over a forest of pending expressions, a leaf, a cell that stays, or an abstraction a turn. Lifting and substitution are one
// walk: what it reads and what it puts in lie below `end` in the store w that is written to.
ghost use Rattle.std.specs.Prelude.{◌≤◌, length, take};
ghost use Rattle.aut68.specs.Sizes.{cell_values};
ghost use Rattle.terms.specs.Grafts.{Stands, GraftPost};

use crate::leaves::{Change, Leaf, bound_for};
use cells::kids;
use constants::{CELL_FACTOR, Cell};

// Where a walk stopped reading and writing.
#[derive(Clone, Copy)]
pub struct Ends {
    pub from: usize,
    pub to: usize,
}

// The expression at `from` below `end`, from under `cut` bindings, lifted or with an expression put in, at `to`. None where the store
// ends before the result does.
pub fn graft(
    table: &[u32],
    w: &mut [Cell],
    end: usize,
    from: usize,
    to: usize,
    cut: usize,
    change: Change,
) -> Option<Ends>
    requires { (end ≤ to) × (to ≤ length w.old) × (cut ≤ from) }
    ensures { GraftPost cell_values (Stands table.now change) table.now (take end w.old) (take end w.old)
        w.old w.new from to cut result }
{
    if from > end {
        return None;
    }
    let mut i = from;
    let mut at = to;
    let mut pending = 1;
    while pending > 0 {
        if pending > end - i {
            return None;
        }
        if at >= w.len() {
            return None;
        }
        let x = w[i];
        let k = x % CELL_FACTOR;
        if k == 5 {
            w[at] = x;
            let domain = graft(table, w, end, i + 1, at + 1, cut, change)?;
            let body = graft(table, w, end, domain.from, domain.to, cut + 1, change)?;
            i = body.from;
            at = body.to;
            pending -= 1;
        } else if k < 3 {
            match bound_for(x, cut, change) {
                Leaf::One(cell) => {
                    w[at] = cell;
                    i += 1;
                    at += 1;
                }
                Leaf::Expression(start) => {
                    let put = graft(table, w, end, start, at, 0, Change::Lift(cut))?;
                    i += 1;
                    at = put.to;
                }
                Leaf::TooHigh => return None,
            }
            pending -= 1;
        } else {
            w[at] = x;
            pending = pending - 1 + kids(table, x);
            i += 1;
            at += 1;
        }
    }
    Some(Ends { from: i, to: at })
}
