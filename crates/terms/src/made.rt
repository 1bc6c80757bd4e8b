// What is made: an expression lifted, or with another for the variable of a binding. Each function returns its size; the result is
// written from `to` on in at most `room` cells of w, and None says that it has more.
ghost use Rattle.std.specs.Prelude.{take};
ghost use Rattle.aut68.specs.Sizes.{cell_values};
ghost use Rattle.terms.specs.Made.{RaisePost, SubstitutePost, WithinRoom, size_in};
ghost use Rattle.terms.specs.Grafts.{Stands, WholePost};

use crate::leaves::Change;
use crate::walk::graft;
use constants::Cell;

// The expression at e, lifted or with another put in.
fn make(
    table: &[u32],
    w: &mut [Cell],
    e: usize,
    change: Change,
    to: usize,
    room: usize,
) -> Option<usize>
    ensures { WholePost cell_values (Stands table.now change) table.now (take to w.old)
        w.old w.new e to room (size_in result) × WithinRoom room result }
{
    if to > w.len() || room > w.len() - to {
        return None;
    }
    let ends = graft(table, &mut w[..to + room], to, e, to, 0, change)?;
    Some(ends.to - to)
}

// The expression at e, moved under d more bindings.
pub fn raise(
    table: &[u32],
    w: &mut [Cell],
    e: usize,
    d: usize,
    to: usize,
    room: usize,
) -> Option<usize>
    ensures { RaisePost table.now w.old w.new e d to room (size_in result) × WithinRoom room result }
{
    make(table, w, e, Change::Lift(d), to, room)
}

// The expression at t, with the one at a for the variable of the binding just outside it.
pub fn substitute(
    table: &[u32],
    w: &mut [Cell],
    t: usize,
    a: usize,
    to: usize,
    room: usize,
) -> Option<usize>
    ensures { SubstitutePost table.now w.old w.new t a to room (size_in result) × WithinRoom room result }
{
    make(table, w, t, Change::Substitute(a), to, room)
}
