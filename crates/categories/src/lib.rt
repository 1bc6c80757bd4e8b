// Categories of the line at hand, as the procedure finds them.
//
// The line's cells are in the term store; a subexpression is handed on as the part of the store that starts with it. The
// category of an expression at a level is left at the start of that level's unit. `<A>B` finds A's category one level deeper;
// a constant finds each argument's category one level deeper, makes the wanted one two levels deeper, if it is not seen at once
// that it is the found one, and copies the argument to its level's unit. An argument and A are one nesting deeper than their
// expression, so levels stay below NESTING.
//
// The functions that call each other are category, arguments, application and abstraction, the remaining cells falling; what they
// do with what was found is in the crates `levels` and `typing`.
#![tactic(auto)]

ghost use Rattle.std.specs.Prelude.{◌≡◌, ℕ, ◌≤◌, ◌<◌, length, get_or};
ghost use Rattle.aut68.specs.Sizes.{nesting};
ghost use Rattle.constants.specs.Refusals.{code_in, number_in};
ghost use Rattle.levels.specs.Finds.{found_size, found_extent};
ghost use Rattle.categories.specs.Posts.{CategoryPost, ArgumentsPost, ApplicationPost, AbstractionPost};

mod checks;

use cells::{Scope, bind, field, level_at, skip};
pub use checks::check_cells;
use constants::{CELL_FACTOR, CONTEXT_LENGTH, Cell, NESTING, Reason};
use levels::{
    Found, bound, constant, context_of, context_variable, enter_start, found_type, function_of,
    is_stored, keep_argument, over_binding, stored,
};
use typing::{Wanted, applied, argument_fits, stored_fits};

// The category of the expression at the start of e, which is the rest of the store from there on.
#[cycle(abstraction_application_arguments_category)]
pub fn category(
    table: &[u32],
    terms: &[Cell],
    e: &[Cell],
    scope: Scope,
    w: &mut [Cell],
    limit: usize,
    budget: &mut u32,
    level: usize,
) -> Result<Found, Reason>
    requires { length e.now ≤ length terms.now }
    ensures { CategoryPost table.now terms.now e.now scope w.old limit budget.old level
        w.new (code_in result) (found_size result) (found_extent result) budget.new }
{
    if level >= NESTING {
        return Err(Reason::TooLarge);
    }
    if e.is_empty() {
        return Err(Reason::NotType);
    }
    let x = e[0];
    let v = (x / CELL_FACTOR) as usize;
    match x % CELL_FACTOR {
        1 => stored(table, terms, w, limit, level, v),
        2 => bound(table, terms, scope, w, limit, level, v),
        3 if field(table, v, CONTEXT_LENGTH) == 0 => stored(table, terms, w, limit, level, v),
        3 => {
            let mut starts = [0; 64];
            let extent = arguments(
                table,
                terms,
                &e[1..],
                scope,
                w,
                limit,
                budget,
                level,
                v,
                &mut starts,
            )?;
            constant(table, terms, w, limit, extent, &starts, level, v)
        }
        4 => application(table, terms, e, scope, w, limit, budget, level),
        5 => abstraction(table, terms, e, scope, w, limit, budget, level),
        _ => Err(Reason::NotType),
    }
}

// The arguments at the start of s of the constant of line v, from left to right, each copied to the level's unit when it has
// passed, and where it ends entered in `starts`, whose first place has 0. Where an argument's category is stored it is compared
// there. Returns how many cells they have.
#[cycle(abstraction_application_arguments_category)]
fn arguments(
    table: &[u32],
    terms: &[Cell],
    s: &[Cell],
    scope: Scope,
    w: &mut [Cell],
    limit: usize,
    budget: &mut u32,
    level: usize,
    v: usize,
    starts: &mut [Cell; 64],
) -> Result<usize, Reason>
    requires { (length s.now ≤ length terms.now) × (level < nesting) × (length starts.old ≡ 64) × (get_or starts.old 0 0 ≡ 0) }
    ensures { ArgumentsPost table.now terms.now s.now scope w.old limit budget.old level v
        w.new (code_in result) (number_in result) starts.new budget.new }
{
    let count = field(table, v, CONTEXT_LENGTH);
    let mut context = [0; 64];
    context_of(table, v, count, &mut context);
    let base = level_at(limit, level);
    let mut at = 0;
    for i in 0..count {
        let line = context_variable(table, v, &context, i);
        let Some(&x) = s.get(at) else {
            return Err(Reason::NotType);
        };
        let wanted = Wanted {
            line,
            base,
            count: i,
            starts,
        };
        let n = if is_stored(table, x) {
            let u = (x / CELL_FACTOR) as usize;
            stored_fits(table, terms, w, limit, budget, level, u, wanted)?
        } else {
            let found = category(table, terms, &s[at..], scope, w, limit, budget, level + 1);
            argument_fits(table, terms, w, limit, budget, found, level, wanted)?
        };
        keep_argument(s, at, n, w, base);
        at += n;
        enter_start(starts, i + 1, at);
    }
    Ok(at)
}

// The category of `<A>B` at the start of e: B's, by head steps an abstraction; A's, compared with its domain; its body with
// A put in.
#[cycle(abstraction_application_arguments_category)]
fn application(
    table: &[u32],
    terms: &[Cell],
    e: &[Cell],
    scope: Scope,
    w: &mut [Cell],
    limit: usize,
    budget: &mut u32,
    level: usize,
) -> Result<Found, Reason>
    requires { (length e.now ≤ length terms.now) × (1 ≤ length e.now) × (level < nesting) }
    ensures { ApplicationPost table.now terms.now e.now scope w.old limit budget.old level
        w.new (code_in result) (found_size result) (found_extent result) budget.new }
{
    let b = skip(table, e, 1, 1);
    let found = category(table, terms, &e[b..], scope, w, limit, budget, level)?;
    let function = function_of(table, terms, w, limit, found.size, budget, level)?;
    category(table, terms, &e[1..], scope, w, limit, budget, level + 1)?;
    applied(
        table,
        terms,
        e,
        b,
        found.extent,
        w,
        limit,
        budget,
        level,
        function,
    )
}

// The category of `[x,P]T` at the start of e: P's must be `type`; T's under one binding more; `type` if that is `type`, else
// `[x,P]` before it.
#[cycle(abstraction_application_arguments_category)]
fn abstraction(
    table: &[u32],
    terms: &[Cell],
    e: &[Cell],
    scope: Scope,
    w: &mut [Cell],
    limit: usize,
    budget: &mut u32,
    level: usize,
) -> Result<Found, Reason>
    requires { (length e.now ≤ length terms.now) × (1 ≤ length e.now) × (level < nesting) }
    ensures { AbstractionPost table.now terms.now e.now scope w.old limit budget.old level
        w.new (code_in result) (found_size result) (found_extent result) budget.new }
{
    let domain = category(table, terms, &e[1..], scope, w, limit, budget, level)?;
    found_type(w, limit, level)?;
    let t = domain.extent + 1;
    let start = terms.len() - e.len() + 1;
    let inner = bind(scope, start, domain.extent);
    let found = category(table, terms, &e[t..], inner, w, limit, budget, level)?;
    over_binding(e, t, w, limit, level, found)
}
