// Reading a line: its form, its names, its cells. specs/Posts has the contracts.
#![tactic(auto)]

mod body;
mod lines;

pub use body::LineKind;
pub use lines::{Line, read_line};
