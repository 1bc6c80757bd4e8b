// Two sides: whether they are identical, or have one shape; put in place; head steps until they are identical or neither has one.
ghost use Rattle.std.specs.Prelude.{ℕ};
ghost use Rattle.heads.specs.Posts.{kind_in, line_in};
ghost use Rattle.sides.specs.Posts.{SaysIdentical, SaysSame, SaysShapes, Opens, Chooses, Takes, Turns, Settles};
ghost use Rattle.sides.specs.Posts.{differ_in, parts_in, same_in, left_in, right_in, side_in};

use cells::{extent, kids};
use constants::{Cell, Reason};
use copies::{move_cells, same_cells};
use heads::{Head, HeadStep, head_of};
use reduction::take_step;

// The next head step of two sides: the side that it is in, and where.
#[derive(Clone, Copy, Debug, PartialEq, Eq)]
pub enum NextStep {
    Left(Head),
    Right(Head),
}

// The sizes of two sides.
#[derive(Clone, Copy, Debug, PartialEq, Eq)]
pub struct Sizes {
    pub left: usize,
    pub right: usize,
}

// What a turn finds: identical sides, sides without a head step, or the sizes of the sides after a step.
#[derive(Clone, Copy, Debug, PartialEq, Eq)]
pub enum Progress {
    Identical,
    Normal,
    Stepped(Sizes),
}

// Where head steps end: at identical sides, or where neither side has one.
#[derive(Clone, Copy, Debug, PartialEq, Eq)]
pub enum Settled {
    Identical,
    Normal,
}

// Are the sides of n and m cells at l and r identical?
pub fn identical(w: &[Cell], l: usize, n: usize, r: usize, m: usize) -> bool
    ensures { SaysIdentical w.now l n r m result }
{
    n == m && same_cells(w, l, r, n)
}

// Are the expressions at a and b identical? They are compared where they lie.
// Kept: a walk over both, since their ends and then `==` of slices would pass over the cells twice.
pub fn same_expression(table: &[u32], w: &[Cell], a: usize, b: usize) -> bool
    ensures { SaysSame table.now w.now a b result }
{
    let mut i = a;
    let mut j = b;
    let mut pending = 1;
    while pending > 0 {
        if i >= w.len() || j >= w.len() || pending > w.len() - i {
            return false;
        }
        let x = w[i];
        if x != w[j] {
            return false;
        }
        pending = pending - 1 + kids(table, x);
        i += 1;
        j += 1;
    }
    true
}

// How many parts each of the sides at l and r has, by their first cells; None where these differ.
pub fn shapes_of(table: &[u32], w: &[Cell], l: usize, r: usize) -> Option<usize>
    ensures { SaysShapes table.now w.now l r (differ_in result) (parts_in result) }
{
    if l >= w.len() || r >= w.len() {
        return None;
    }
    let x = w[l];
    if x != w[r] {
        return None;
    }
    Some(kids(table, x))
}

// The expressions at a and b, put at l and r as the sides: None where they are identical.
pub fn open_pair(
    table: &[u32],
    w: &mut [Cell],
    a: usize,
    b: usize,
    l: usize,
    r: usize,
) -> Option<Sizes>
    ensures { Opens table.now w.old a b l r w.new (same_in result) (left_in result) (right_in result) }
{
    if same_expression(table, w, a, b) {
        return None;
    }
    let left = extent(table, w, a);
    let right = extent(table, w, b);
    move_cells(w, a, l, left);
    move_cells(w, b, r, right);
    Some(Sizes { left, right })
}

// The next head step, by that of each side (choose): a contraction before an unfolding, the left one of two contractions, the unfolding
// of the larger line, the left one of two of one line.
pub fn choose(left: Option<Head>, right: Option<Head>) -> Option<NextStep>
    ensures { Chooses (kind_in left) (line_in left) (kind_in right) (line_in right) (side_in result) × Takes left right result }
{
    let Some(first) = left else {
        let second = right?;
        return Some(NextStep::Right(second));
    };
    let Some(second) = right else {
        return Some(NextStep::Left(first));
    };
    let HeadStep::Unfolding { line } = first.step else {
        return Some(NextStep::Left(first));
    };
    let HeadStep::Unfolding { line: other } = second.step else {
        return Some(NextStep::Right(second));
    };
    if line < other {
        return Some(NextStep::Right(second));
    }
    Some(NextStep::Left(first))
}

// One head step in the sides at l and r, if one is next. Refused where it is past the budget, or would leave more than
// `limit` cells: it is then neither made nor counted.
pub fn turn(
    table: &[u32],
    terms: &[Cell],
    w: &mut [Cell],
    limit: usize,
    budget: &mut u32,
    l: usize,
    r: usize,
    sizes: Sizes,
) -> Result<Progress, Reason>
    ensures { Turns table.now terms.now w.old limit budget.old l sizes.left r sizes.right w.new result budget.new }
{
    if identical(w, l, sizes.left, r, sizes.right) {
        return Ok(Progress::Identical);
    }
    let first = head_of(table, w, l, sizes.left);
    let second = head_of(table, w, r, sizes.right);
    let Some(next) = choose(first, second) else {
        return Ok(Progress::Normal);
    };
    if *budget == 0 {
        return Err(Reason::OutOfBudget);
    }
    match next {
        NextStep::Left(head) => {
            let left = take_step(table, terms, w, limit, head).ok_or(Reason::TooLarge)?;
            *budget -= 1;
            Ok(Progress::Stepped(Sizes { left, ..sizes }))
        }
        NextStep::Right(head) => {
            let right = take_step(table, terms, w, limit, head).ok_or(Reason::TooLarge)?;
            *budget -= 1;
            Ok(Progress::Stepped(Sizes { right, ..sizes }))
        }
    }
}

// The expressions at a and b, put at l and r as the sides unless they are identical; then head steps until the sides are
// identical or neither has one (sides, up to the parts). The budget falls.
pub fn settle(
    table: &[u32],
    terms: &[Cell],
    w: &mut [Cell],
    limit: usize,
    budget: &mut u32,
    a: usize,
    b: usize,
    l: usize,
    r: usize,
) -> Result<Settled, Reason>
    ensures { Settles table.now terms.now w.old limit budget.old a b l r w.new result budget.new }
{
    let Some(mut sizes) = open_pair(table, w, a, b, l, r) else {
        return Ok(Settled::Identical);
    };
    loop {
        match turn(table, terms, w, limit, budget, l, r, sizes)? {
            Progress::Identical => return Ok(Settled::Identical),
            Progress::Normal => return Ok(Settled::Normal),
            Progress::Stepped(next) => sizes = next,
        }
    }
}
