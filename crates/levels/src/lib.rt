// What is found at a level of the working store: the category on a line, that of a bound variable, of a constant from its arguments
// and of `[x,P]T` from T's, and whether it is `type`; the function that it reaches; the variables of a line's context.
//
// The category of an expression at a level lies at the start of that level's unit.
#![tactic(auto)]

mod arguments;
mod binders;
mod contexts;
mod found;
mod leaves;

pub use arguments::{constant, enter_start, is_stored, keep_argument};
pub use binders::{function_of, over_binding};
pub use contexts::{context_of, context_variable};
pub use found::{Found, found_type, is_type, made};
pub use leaves::{bound, stored};
