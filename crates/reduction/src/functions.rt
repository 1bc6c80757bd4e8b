// Head steps until an expression is an abstraction.
ghost use Rattle.std.specs.Prelude.{◌≡◌, ℕ};
ghost use Rattle.constants.specs.Refusals.{code_in, number_in};
ghost use Rattle.reduction.specs.FunctionPosts.{ShapePost, FormPost, FunctionPost, function_in};

use crate::steps::step;
use cells::skip;
use constants::{Cell, Reason};
use heads::head_of;

// Where the domain and the body start, if the expression at `at` of w is an abstraction.
fn abstraction_at(table: &[u32], w: &[Cell], at: usize) -> Option<(usize, usize)>
    ensures { ShapePost table.now w.now at result }
{
    if at < w.len() && w[at] == 5 {
        let domain = at + 1;
        let body = skip(table, w, domain, 1);
        return Some((domain, body));
    }
    None
}

// Head steps of the expression of `size` cells at `at` until there is none: the size then. Refused where a step is past the budget, or
// would leave more than `limit` cells: neither is then made or counted.
fn head_form(
    table: &[u32],
    terms: &[Cell],
    w: &mut [Cell],
    limit: usize,
    budget: &mut u32,
    at: usize,
    size: usize,
) -> Result<usize, Reason>
    ensures { FormPost table.now terms.now w.old w.new limit budget.old at size (code_in result) (number_in result) budget.new }
{
    let mut n = size;
    while let Some(h) = head_of(table, w, at, n) {
        if *budget == 0 {
            return Err(Reason::OutOfBudget);
        }
        n = step(table, terms, w, limit, h).ok_or(Reason::TooLarge)?;
        *budget -= 1;
    }
    Ok(n)
}

// An abstraction, by its size and where its domain and body start.
#[derive(Clone, Copy, Debug, PartialEq, Eq)]
pub struct Function {
    pub size: usize,
    pub domain: usize,
    pub body: usize,
}

// Head steps of the expression of `size` cells at `at` until it is an abstraction.
pub fn to_function(
    table: &[u32],
    terms: &[Cell],
    w: &mut [Cell],
    limit: usize,
    budget: &mut u32,
    at: usize,
    size: usize,
) -> Result<Function, Reason>
    ensures { FunctionPost table.now terms.now w.old w.new limit budget.old at size (code_in result) (function_in result) budget.new }
{
    let size = head_form(table, terms, w, limit, budget, at, size)?;
    let Some((domain, body)) = abstraction_at(table, w, at) else {
        return Err(Reason::NotFunction);
    };
    Ok(Function { size, domain, body })
}
