// The head step, its kind told by a number.
ghost use Rattle.reduction.specs.Numbered.{NumberedStepPost};

use crate::steps;
use constants::Cell;
use heads::{Head, HeadStep};

// kind 0: none; 1: a contraction; 2: an unfolding of the constant of `line`.
// at: where the redex starts; kept: the cells before it.
#[derive(Clone, Copy, Debug, PartialEq, Eq)]
pub struct NumberedHead {
    pub kind: u32,
    pub at: usize,
    pub kept: usize,
    pub line: usize,
}

// The head step h of an expression of at most `limit` cells, in place. Returns the new size; None where it would have more than
// `limit` cells, or h is none, with the expression as it was.
pub fn step(
    table: &[u32],
    terms: &[Cell],
    w: &mut [Cell],
    limit: usize,
    h: NumberedHead,
) -> Option<usize>
    ensures { NumberedStepPost table.now terms.now w.old w.new limit h result }
{
    let step = match h.kind {
        1 => HeadStep::Contraction,
        2 => HeadStep::Unfolding { line: h.line },
        _ => return None,
    };
    let head = Head {
        at: h.at,
        kept: h.kept,
        step,
    };
    steps::step(table, terms, w, limit, head)
}
