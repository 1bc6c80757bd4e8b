// Entries of the index: which lines a line names, and how they are put there. specs/Posts has the contracts.
#![tactic(auto)]

mod collecting;
mod entries;

pub use entries::{line_names, put_entry};
