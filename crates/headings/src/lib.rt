// Lines of a book: where each ends, its heading, and paragraph lines. specs/Posts has the contracts, specs/ReadLine what stands behind a heading.
#![tactic(auto)]

mod before_middle;
mod ends;
mod signs;

pub use before_middle::{Head, heading};
pub use ends::line_end;
pub use signs::{Sign, sign_line, sign_of};
