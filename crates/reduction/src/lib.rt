// The head step of an expression that lies in a unit of the working store; head steps until it is an abstraction.
//
// In prefix order the head redex of <A1>..<An>H is the last thing in the cells: what is before it stays, and only the tail
// is made anew, in the result unit, and moved back. An abbreviation that takes no arguments becomes its middle where it stands.
#![tactic(auto)]

mod functions;
mod numbered;
mod steps;

pub use functions::{Function, to_function};
pub use numbered::{NumberedHead, step};
pub use steps::step as take_step;
