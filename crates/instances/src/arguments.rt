// Arguments: expressions that lie one after the other from `base` on in the working store. starts: where each starts, counted from
// there, and where the last one ends; for the first 64 of these places.
ghost use Rattle.std.specs.Prelude.{ℕ, ◌%◌, ◌<◌, take};
ghost use Rattle.aut68.specs.Sizes.{cell_factor, cell_values};
ghost use Rattle.terms.specs.Grafts.{Instantiates, LeafPost, StartPost};

use cells::{field, skip};
use constants::{CELL_FACTOR, CONTEXT_LENGTH, Cell};
use terms::Leaf;

// Where argument i starts.
pub fn argument_at(table: &[u32], w: &[Cell], base: usize, starts: &[Cell; 64], i: usize) -> usize
    ensures { (count : ℕ) → StartPost table.now w.now base count starts.now i result }
{
    if base > w.len() {
        return w.len();
    }
    if i < 64 {
        return base + starts[i] as usize;
    }
    let last = base + starts[63] as usize;
    skip(table, w, last, i - 63)
}

// What stands for the leaf x where the `count` arguments from `base` on are put in for the context variables: for a line's variable the
// one with the number of its own context's length.
pub fn argument_for(
    table: &[u32],
    w: &[Cell],
    x: Cell,
    base: usize,
    count: usize,
    starts: &[Cell; 64],
) -> Leaf
    requires { x % cell_factor < 3 }
    ensures { (end cut : ℕ) → LeafPost cell_values (Instantiates table.now base count starts.now (take end w.now))
        table.now (take end w.now) x cut result }
{
    if x % CELL_FACTOR != 1 {
        return Leaf::One(x);
    }
    let i = field(table, (x / CELL_FACTOR) as usize, CONTEXT_LENGTH);
    if i >= count {
        return Leaf::One(x);
    }
    Leaf::Expression(argument_at(table, w, base, starts, i))
}
