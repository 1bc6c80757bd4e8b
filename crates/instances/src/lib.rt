// Expressions with arguments put in for their context variables.
//
// The arguments lie below the result, the expression in another store. It is walked as for lifting and substitution; an argument that
// stands for a variable is lifted.
#![tactic(auto)]

mod arguments;
mod instantiation;

pub use instantiation::instantiate;
