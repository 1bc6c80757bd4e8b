// Completed constants: which arguments were left out, and their cells put in front of those written. specs/Posts has the contracts.
#![tactic(auto)]

mod completion;

pub use completion::{last_left_out, put_in};
