// Runs of cells copied, moved, exchanged, compared and cleared. Crate cells has what the contracts say of them.
#![tactic(auto)]

mod copies;

pub use copies::{clear, exchange, load, move_cells, same_cells, same_run, whole};
