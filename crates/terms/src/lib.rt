// Lifting and substitution of expressions in cells.
//
// What is put in lies below the result, and so does the expression itself. A walk goes over a forest of pending expressions: a cell that
// is no abstraction is one turn; an abstraction calls the walk again, its body one binding deeper, and an expression that stands for a
// leaf calls it to be lifted. A result is written in order, as far as its room goes.
#![tactic(auto)]

mod leaves;
mod made;
mod numbered;
mod walk;

pub use leaves::{Change, Leaf};
pub use made::{raise, substitute};
pub use numbered::graft;
pub use walk::{Ends, graft as graft_by};
