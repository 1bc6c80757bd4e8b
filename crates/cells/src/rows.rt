// Rows of the table, and what they say of the cells.
ghost use Rattle.std.specs.Prelude.{◌≡◌, ◌<◌, ◌^◌};
ghost use Rattle.aut68.specs.Lines.{row_cell};
ghost use Rattle.aut68.specs.Sizes.{row_width};
ghost use Rattle.cells.specs.Cells.{parts_after};
ghost use Rattle.cells.specs.Numbers.{names_line};
ghost use Rattle.cells.specs.Posts.{Skipped, Extent};

use constants::{CELL_FACTOR, CONTEXT_LENGTH, Cell, ROW_WIDTH};

// Cell k of the row of line v; `constants` names them. 0 where v is 0 or the table has no such cell.
// Kept: the number 0 for no cell, since row_cell, which the contracts cite, says it so.
pub fn field(table: &[u32], v: usize, k: usize) -> usize
    requires { k < row_width }
    ensures { (result ≡ row_cell table.now v k) × (result < 2 ^ 32) }
{
    if v == 0 || v - 1 > table.len() / ROW_WIDTH {
        return 0;
    }
    match table.get(ROW_WIDTH * (v - 1) + k) {
        Some(&cell) => cell as usize,
        None => 0,
    }
}

// How many expressions follow the cell x as its parts: a constant's context length, 2 for an application or an abstraction.
// Kept: kinds of cells are numbers, since cells are published with them.
#[tactic(auto, unfolding(crate::specs::Cells::parts_after))]
pub fn kids(table: &[u32], x: Cell) -> usize
    ensures { (result ≡ parts_after table.now x) × (result < 2 ^ 32) }
{
    match x % CELL_FACTOR {
        3 => field(table, (x / CELL_FACTOR) as usize, CONTEXT_LENGTH),
        4 | 5 => 2,
        _ => 0,
    }
}

// Does the cell x name a line: is it a variable or a constant?
#[tactic(auto, unfolding(crate::specs::Numbers::names_line))]
pub fn names_line(x: Cell) -> bool
    ensures { result ≡ names_line x }
{
    matches!(x % CELL_FACTOR, 1 | 3)
}

// The end of the n expressions that lie one after the other from index `from` of s. Where no n expressions lie there it is
// some index of s or its end; `from` past the end is its own answer for n = 0, and the end of s for any other n.
pub fn skip(table: &[u32], s: &[Cell], from: usize, n: usize) -> usize
    ensures { Skipped table.now s.now from n result }
{
    let mut i = from;
    let mut pending = n;
    while pending > 0 {
        if i >= s.len() || pending > s.len() - i {
            return s.len();
        }
        pending = pending - 1 + kids(table, s[i]);
        i += 1;
    }
    i
}

// The size of the expression at index `at` of s; 0 where `at` is past the end.
// Kept: the number 0, since open_pair moves so many cells, none of them past the end.
pub fn extent(table: &[u32], s: &[Cell], at: usize) -> usize
    ensures { Extent table.now s.now at result }
{
    if at >= s.len() {
        return 0;
    }
    let end = skip(table, s, at, 1);
    end - at
}
