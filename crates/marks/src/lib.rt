// Marks on lines: a bit for each line's number, in the cells of a store. specs/Marks says what they are.
#![tactic(auto)]

ghost use Rattle.std.specs.Prelude.{◌≡◌};
ghost use Rattle.marks.specs.Marks.{marked, MarkPost};

use constants::Cell;

// How many marks a cell has.
const CELL_MARKS: usize = 32;

// Is the number v marked?
pub fn is_marked(w: &[Cell], v: usize) -> bool
    ensures { result ≡ marked w.now v }
{
    match w.get(v / CELL_MARKS) {
        Some(&cell) => cell >> (v % CELL_MARKS) & 1 == 1,
        None => false,
    }
}

// Marks the number v, if the store has a bit for it.
pub fn mark(w: &mut [Cell], v: usize)
    ensures { MarkPost w.old w.new v }
{
    let at = v / CELL_MARKS;
    if at < w.len() {
        w[at] |= 1 << (v % CELL_MARKS);
    }
}
