// The check of an ordinary line of a book: its row, cells and entry, if it passes. specs/Progress has the contracts.
#![tactic(auto)]

mod lines;

pub use lines::{Progress, check_line};
