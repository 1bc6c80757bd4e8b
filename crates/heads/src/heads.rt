// Which head step an expression has.
ghost use Rattle.std.specs.Prelude.{◌≡◌, ℕ, ◌+◌};
ghost use Rattle.heads.specs.Posts.{CellStep, HeadPost, kind_of_step, line_of_step, kind_in, at_in, kept_in, line_in};

use cells::{field, skip};
use constants::{CELL_FACTOR, Cell, KIND};

// A contraction, or the unfolding of the constant of a line.
#[derive(Clone, Copy, Debug, PartialEq, Eq)]
pub enum HeadStep {
    Contraction,
    Unfolding { line: usize },
}

// at: where the redex starts; kept: the cells before it.
#[derive(Clone, Copy, Debug, PartialEq, Eq)]
pub struct Head {
    pub at: usize,
    pub kept: usize,
    pub step: HeadStep,
}

// The head step of an expression that is no application, by its first cell x: an abbreviation is unfolded.
// Kept: kinds of cells and of lines as numbers, as the term store and the rows, which C callers read, have them.
fn step_of_cell(table: &[u32], x: Cell) -> Option<HeadStep>
    ensures { CellStep table.now x (kind_of_step result) (line_of_step result) }
{
    if x % CELL_FACTOR != 3 {
        return None;
    }
    let line = (x / CELL_FACTOR) as usize;
    if field(table, line, KIND) != 2 {
        return None;
    }
    Some(HeadStep::Unfolding { line })
}

// The head step of the expression of n cells at `at` of w: a contraction is looked for before the head is unfolded.
pub fn head_of(table: &[u32], w: &[Cell], at: usize, n: usize) -> Option<Head>
    ensures { HeadPost table.now w.now at n (kind_in result) (at_in at result) (kept_in result) (line_in result) }
{
    if at > w.len() || n > w.len() - at {
        return None;
    }
    let end = at + n;
    let mut i = at;
    while i < end {
        let x = w[i];
        let kept = i - at;
        if x != 4 {
            let step = step_of_cell(table, x)?;
            return Some(Head { at: i, kept, step });
        }
        let b = skip(table, w, i + 1, 1);
        if b >= end {
            return None;
        }
        if w[b] == 5 {
            return Some(Head {
                at: i,
                kept,
                step: HeadStep::Contraction,
            });
        }
        i = b;
    }
    None
}
