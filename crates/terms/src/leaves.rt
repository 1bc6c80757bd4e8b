// What stands for a leaf (`type`, a variable, a bound variable) of an expression that is lifted or into which something is put.
ghost use Rattle.std.specs.Prelude.{List, ℕ, ◌%◌, ◌<◌};
ghost use Rattle.aut68.specs.Sizes.{cell_factor, cell_values};
ghost use Rattle.terms.specs.Grafts.{Stands, LeafPost, PutFor};

use constants::{CELL_FACTOR, CELL_VALUES, Cell};

// What becomes of the variables that are bound outside the expression.
#[derive(Clone, Copy)]
pub enum Change {
    // Each number is that much higher.
    Lift(usize),

    // The expression at that index stands for the variable of the binding just outside.
    Substitute(usize),
}

// What stands for a leaf.
#[derive(Clone, Copy)]
pub enum Leaf {
    // This cell.
    One(Cell),

    // The expression at that index, lifted.
    Expression(usize),

    // A bound variable whose number is too high for a cell.
    TooHigh,
}

// What stands for the leaf x under `cut` bindings.
pub fn bound_for(x: Cell, cut: usize, change: Change) -> Leaf
    requires { x % cell_factor < 3 }
    ensures leaf { (tb low : List ℕ) → LeafPost cell_values (Stands tb change low) tb low x cut result }
    ensures put { PutFor result change }
{
    let number = (x / CELL_FACTOR) as usize;
    if x % CELL_FACTOR != 2 || number < cut {
        return Leaf::One(x);
    }
    match change {
        Change::Lift(by) => {
            if by > CELL_VALUES {
                return Leaf::TooHigh;
            }
            let higher = x as usize + (CELL_FACTOR as usize) * by;
            if higher >= CELL_VALUES {
                return Leaf::TooHigh;
            }
            Leaf::One(higher as Cell)
        }
        Change::Substitute(from) => {
            if number > cut {
                return Leaf::One(x - CELL_FACTOR);
            }
            Leaf::Expression(from)
        }
    }
}
