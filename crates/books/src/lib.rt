// The check of a book: its pieces one after the other; and the whole call. specs/Loop has the contracts.
#![tactic(auto)]

mod admission;
mod lines;

pub use admission::admit;
pub use lines::{Ended, check_linked};
