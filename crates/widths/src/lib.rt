// Shelves put into cells of another width; aut68's Widths has what the calls promise (`Converts`).
#![tactic(auto)]

ghost use Rattle.std.specs.Prelude.{◌≡◌, ◌≤◌, ◌<◌, ltb, length, drop, All, MatchResult};
ghost use Rattle.std.specs.List.{list_all};
ghost use Rattle.aut68.specs.Procedure.Run.{over};
ghost use Rattle.aut68.specs.Sizes.{cell_values, narrow_values};
ghost use Rattle.aut68.specs.Widths.{fits_width, Converts};
ghost use Rattle.outcomes.specs.Answers.{code_of_answer, line_of_answer, steps_of_answer, length_of_answer};
ghost use Rattle.widths.specs.Conversions.{most_cells, IsTooSmall, EachConverted};

use constants::{Cause, Cell, NARROW_VALUES, NarrowCell};
use outcomes::{Answer, Given, Unanswered};

// An answer tells its length in 32 bits.
const LARGEST_LENGTH: usize = u32::MAX as usize;

// The length of an answer of so many cells, where a target has room for them.
fn answer_length(cells: usize, room: usize) -> Result<u32, Unanswered>
    ensures { MatchResult result (λ length. (length ≡ cells) × (cells ≤ most_cells room)) (λ u. (most_cells room < cells) × IsTooSmall u) }
{
    if cells > room.min(LARGEST_LENGTH) {
        return Err(Unanswered::Declined {
            cause: Cause::StoreTooSmall,
            steps: 0,
        });
    }
    Ok(cells as u32)
}

// Is each cell below NARROW_VALUES?
fn fits_narrow(source: &[Cell]) -> bool
    ensures { result ≡ list_all (λ x. ltb x narrow_values) source.now }
{
    source.iter().all(|cell| *cell < NARROW_VALUES)
}

// Puts what `convert` makes of each cell of the source into the first cells of the target.
fn convert_cells<S: Copy, T: Copy, F: Fn(S) -> T>(source: &[S], target: &mut [T], convert: &F)
    requires room { length source.now ≤ length target.old }
    requires callable { All (F.pre convert.now) source.now }
    ensures long { length target.new ≡ length target.old }
    ensures converted { EachConverted (F.post convert.now) source.now target.new (length source.now) }
    ensures behind { drop (length source.now) target.new ≡ drop (length source.now) target.old }
{
    for i in 0..source.len() {
        target[i] = convert(source[i]);
    }
}

// Puts the cells of a shelf into wider ones, the first of the target.
pub fn widen(source: &[NarrowCell], target: &mut [Cell]) -> Answer
    ensures { Converts cell_values source.now target.old (code_of_answer result) (line_of_answer result) (steps_of_answer result) (length_of_answer result) target.new }
{
    let length = answer_length(source.len(), target.len())?;
    convert_cells(source, target, &|cell| Cell::from(cell));
    Ok(Given { steps: 0, length })
}

// Puts the cells of a shelf into narrower ones, the first of the target; none, if a cell does not fit.
pub fn narrow(source: &[Cell], target: &mut [NarrowCell]) -> Answer
    ensures { Converts narrow_values source.now target.old (code_of_answer result) (line_of_answer result) (steps_of_answer result) (length_of_answer result) target.new }
{
    let narrower = |cell: Cell|
        requires { cell < narrow_values }
    { cell as NarrowCell };
    let length = answer_length(source.len(), target.len())?;
    if !fits_narrow(source) {
        return Err(Unanswered::Declined {
            cause: Cause::CellTooLarge,
            steps: 0,
        });
    }
    convert_cells(source, target, &narrower);
    Ok(Given { steps: 0, length })
}
