// Cells and rows: the layout of the working store, what a row says, scopes.
#![tactic(auto)]

mod layout;
mod rows;
mod scope;

pub use layout::{
    CONTEXT_UNIT, LEVELS, LINE_UNIT, READER_UNITS, level_at, line_at, names_at, result_at,
    scratch_at, side_at,
};
pub use rows::{extent, field, kids, names_line, skip};
pub use scope::{Scope, bind, nest, no_bindings};
