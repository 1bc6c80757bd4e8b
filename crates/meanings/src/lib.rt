// What names mean: bindings, lines, variables of the context.
#![tactic(auto)]

mod contexts;
mod meanings;

pub use contexts::{in_context, note_context};
pub use meanings::{Lookup, Meaning, Sought, binding, look_up, meaning_of};
