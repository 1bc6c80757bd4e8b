// Expressions of a line: form, names and cells in one walk over the bytes.
//
// The form comes first in what is answered: the walk goes on behind a name that means nothing, and only remembers it; a form
// that is malformed or nested too deep ends it at once.
#![tactic(auto)]

mod numbered;
mod parts;
mod walk;

pub use numbered::{Numbered, expression};
pub use parts::{Reading, put, title, word};
pub use walk::expression as read_expression;
