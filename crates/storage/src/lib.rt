// Room for a line's row and cells, and its row in the table.
#![tactic(auto)]

mod rows;

pub use rows::{Room, has_room, put_row, sum};
