// A list of pairs of strings judged over the lines of a book, by the first comparison, each on a budget of its own. specs/Sheet says what
// the sheet then holds, specs/Posts has the contracts.
#![tactic(auto)]

ghost use Rattle.std.specs.Prelude.{◌*◌, ◌≤◌, ◌<◌, length};
ghost use Rattle.aut68.specs.Sizes.{work_units};
ghost use Rattle.pairs.specs.Posts.{NotWhole, PairPost, PairsPost};

use constants::{Cause, Cell, WORK_UNITS};
use judging::{Comparison, judge};
use outcomes::{AnswerNumbers, Unanswered};

// Two strings in one lent slice of cells, by the start and the length of each, and the budget for their comparison; C callers lend them so.
#[repr(C)]
#[derive(Clone, Copy)]
pub struct Pair {
    pub left: u32,
    pub left_length: u32,
    pub right: u32,
    pub right_length: u32,
    pub budget: u32,
}

// The outcome of one pair, over the first `lines` lines. What the first 128 × L working cells hold afterwards is left to the program.
pub fn compare_pair(
    table: &[u32],
    terms: &[Cell],
    work: &mut [Cell],
    limit: u32,
    lines: u32,
    cells: &[Cell],
    p: Pair,
) -> AnswerNumbers
    requires { work_units * limit ≤ length work.old }
    ensures { PairPost table.now terms.now work.old limit lines cells.now p result work.new }
{
    let left = p.left as usize;
    let left_end = left + p.left_length as usize;
    let right = p.right as usize;
    let right_end = right + p.right_length as usize;
    if left_end > cells.len() {
        return not_whole();
    }
    if right_end > cells.len() {
        return not_whole();
    }
    let most = limit as usize;
    let n = WORK_UNITS * most;
    let a = judge(
        table,
        terms,
        &mut work[..n],
        most,
        lines as usize,
        &cells[left..left_end],
        &cells[right..right_end],
        p.budget,
        Comparison::First,
    );
    AnswerNumbers::from(a)
}

// The outcome of a pair with a string that reaches past the end of the cells.
fn not_whole() -> AnswerNumbers
    ensures { NotWhole result }
{
    AnswerNumbers::from(Err(Unanswered::Declined {
        cause: Cause::NotWhole,
        steps: 0,
    }))
}

// The outcomes of the first n pairs, in their order, into the first n places of the sheet.
pub fn compare_pairs(
    table: &[u32],
    terms: &[Cell],
    work: &mut [Cell],
    limit: u32,
    lines: u32,
    cells: &[Cell],
    pairs: &[Pair],
    sheet: &mut [AnswerNumbers],
    n: usize,
)
    requires { (0 < n → work_units * limit ≤ length work.old) × (n ≤ length pairs.now) × (n ≤ length sheet.old) }
    ensures { PairsPost table.now terms.now work.old limit lines cells.now pairs.now sheet.old n work.new sheet.new }
{
    for i in 0..n {
        sheet[i] = compare_pair(table, terms, work, limit, lines, cells, pairs[i]);
    }
}
