// The walk, its change told by numbers.
ghost use Rattle.std.specs.Prelude.{◌≤◌, length, take};
ghost use Rattle.aut68.specs.Sizes.{cell_values};
ghost use Rattle.terms.specs.Grafts.{Stands, GraftPost};
ghost use Rattle.terms.specs.Numbered.{change_of};

use crate::leaves::Change;
use crate::walk::{self, Ends};
use constants::Cell;

// The walk of a kind and a number: of kind 0 it lifts by `number`, of any other it puts in the expression at index `number`.
pub fn graft(
    table: &[u32],
    w: &mut [Cell],
    end: usize,
    from: usize,
    to: usize,
    cut: usize,
    kind: usize,
    number: usize,
) -> Option<Ends>
    requires { (end ≤ to) × (to ≤ length w.old) × (cut ≤ from) }
    ensures { GraftPost cell_values (Stands table.now (change_of kind number)) table.now (take end w.old) (take end w.old)
        w.old w.new from to cut result }
{
    let change = match kind {
        0 => Change::Lift(number),
        _ => Change::Substitute(number),
    };
    walk::graft(table, w, end, from, to, cut, change)
}
