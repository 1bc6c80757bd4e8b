// Is this the instance of that expression? Cells are compared with an expression whose arguments are put in while it is read, and the
// instance is not made.
#![tactic(auto)]

mod matching;

pub use matching::is_instance;
