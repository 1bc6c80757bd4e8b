// Cells in ascending order, each once. specs/Posts has the contracts.
#![tactic(auto)]

mod sorting;

pub use sorting::sort;
