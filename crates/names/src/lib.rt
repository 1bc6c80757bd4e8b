// Lines by their identifiers and paragraphs, and the identifiers of recorded lines.
#![tactic(auto)]

mod chains;
mod hints;
mod names;

pub use chains::search;
pub use hints::{hash, key, link, put_head, unlink};
pub use names::{Part, find, identifier, identifier_place, part_is};
