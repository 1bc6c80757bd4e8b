// The walk over an expression: functions that call each other, one for each form. specs/Posts has the contracts. All but one are inlined,
// since a call hands a scope and an answer through memory.
ghost use Rattle.std.specs.Prelude.{◌+◌, ◌-◌, ◌≤◌, ◌<◌, length};
ghost use Rattle.aut68.specs.Sizes.{nesting};
ghost use Rattle.expressions.specs.Walk.{fault_in, walked};
ghost use Rattle.expressions.specs.Posts.{expression_in, named_in, application_in, abstraction_in, go_on, ExpressionRead, ArgumentsRead};

use crate::parts::{Reading, bound, cell_of, completed, name_meaning, opens, put};
use cells::{Scope, bind, nest};
use constants::{Cell, NESTING, Reason};
use kinds::Kind;
use meanings::Lookup;
use symbols::{kind_at, name_at, spaces, symbol, used_at};

// The expression that stands next (an_expression, resolve), with the bindings and the nesting levels around it as the scope.
// It goes on at byte `from` and cell `to`, with the first fault so far. An error is a refusal of the form, Malformed or TooLarge.
// Falls: NESTING - depth.
#[cycle(abstraction_application_arguments_expression_named)]
pub fn expression(
    line: &[u8],
    around: &Lookup,
    w: &mut [Cell],
    from: usize,
    to: usize,
    fault: Option<Reason>,
    scope: Scope,
) -> Result<Reading, Reason>
    requires { (to ≤ length w.old + 1) × (from ≤ length line.now) }
    ensures { ExpressionRead (expression_in scope) around.now.kinds.now line.now scope
        around.now.book.now around.now.table.now around.now.lines around.now.indicator w.old w.new (go_on from to (fault_in fault)) (walked from to result) }
{
    let at = spaces(line, from);
    let k = kind_at(line, around.kinds, at);
    if scope.depth >= NESTING {
        if opens(k) {
            return Err(Reason::TooLarge);
        }
        return Err(Reason::Malformed);
    }
    match k {
        Kind::Less => application(line, around, w, from, to, fault, scope),
        Kind::Bracket => abstraction(line, around, w, from, to, fault, scope),
        _ => named(line, around, w, from, to, fault, scope),
    }
}

// A name with its arguments, if any (named): the name's meaning, its cell, the arguments, those left out.
#[cycle(abstraction_application_arguments_expression_named)]
#[inline(always)]
fn named(
    line: &[u8],
    around: &Lookup,
    w: &mut [Cell],
    from: usize,
    to: usize,
    fault: Option<Reason>,
    scope: Scope,
) -> Result<Reading, Reason>
    requires { (to ≤ length w.old + 1) × (from ≤ length line.now) × (scope.depth < nesting) }
    ensures { ExpressionRead (named_in scope) around.now.kinds.now line.now scope
        around.now.book.now around.now.table.now around.now.lines around.now.indicator w.old w.new (go_on from to (fault_in fault)) (walked from to result) }
{
    let Some(n) = used_at(line, around.kinds, from) else {
        return Err(Reason::Malformed);
    };
    let next = n.name.start + n.name.len;
    let b = bound(line, &scope, n);
    let m = name_meaning(line, around, w, fault, b, n);
    let found = m.err();
    let cell = put(w, to, cell_of(m));
    let Some(open) = symbol(line, around.kinds, next, Kind::Open) else {
        let alone = Reading {
            at: next,
            to: cell,
            fault: found,
            count: 0,
        };
        return Ok(completed(around, w, cell, scope.depth, alone, m));
    };
    let inner = nest(scope);
    let a = arguments(line, around, w, open, cell, found, inner)?;
    Ok(completed(around, w, cell, scope.depth, a, m))
}

// One argument or more, up to the `)` (arguments); the scope is theirs.
// Falls: NESTING + 1 - depth; in the loop the bytes ahead.
#[cycle(abstraction_application_arguments_expression_named)]
#[inline(always)]
fn arguments(
    line: &[u8],
    around: &Lookup,
    w: &mut [Cell],
    from: usize,
    to: usize,
    fault: Option<Reason>,
    inner: Scope,
) -> Result<Reading, Reason>
    requires { (to ≤ length w.old + 1) × (from ≤ length line.now) }
    ensures { ArgumentsRead around.now.kinds.now line.now inner
        around.now.book.now around.now.table.now around.now.lines around.now.indicator w.old w.new (go_on from to (fault_in fault)) (walked from to result) }
{
    let mut at = from;
    let mut cell = to;
    let mut found = fault;
    let mut count = 0;
    loop {
        let a = expression(line, around, w, at, cell, found, inner)?;
        cell = a.to;
        found = a.fault;
        count += 1;
        let Some(comma) = symbol(line, around.kinds, a.at, Kind::Comma) else {
            let Some(close) = symbol(line, around.kinds, a.at, Kind::Close) else {
                return Err(Reason::Malformed);
            };
            return Ok(Reading {
                at: close,
                count,
                ..a
            });
        };
        at = comma;
    }
}

// `<A>B` (application): its cell, A, and B.
#[cycle(abstraction_application_arguments_expression_named)]
#[inline(always)]
fn application(
    line: &[u8],
    around: &Lookup,
    w: &mut [Cell],
    from: usize,
    to: usize,
    fault: Option<Reason>,
    scope: Scope,
) -> Result<Reading, Reason>
    requires { (to ≤ length w.old + 1) × (from ≤ length line.now) × (scope.depth < nesting) }
    ensures { ExpressionRead (application_in scope) around.now.kinds.now line.now scope
        around.now.book.now around.now.table.now around.now.lines around.now.indicator w.old w.new (go_on from to (fault_in fault)) (walked from to result) }
{
    let Some(open) = symbol(line, around.kinds, from, Kind::Less) else {
        return Err(Reason::Malformed);
    };
    let cell = put(w, to, 4);
    let inner = nest(scope);
    let a = expression(line, around, w, open, cell, fault, inner)?;
    let Some(close) = symbol(line, around.kinds, a.at, Kind::Greater) else {
        return Err(Reason::Malformed);
    };
    expression(line, around, w, close, a.to, a.fault, inner)
}

// `[x,A]B` (abstraction): its cell, A, and B with x bound.
#[cycle(abstraction_application_arguments_expression_named)]
#[inline(always)]
fn abstraction(
    line: &[u8],
    around: &Lookup,
    w: &mut [Cell],
    from: usize,
    to: usize,
    fault: Option<Reason>,
    scope: Scope,
) -> Result<Reading, Reason>
    requires { (to ≤ length w.old + 1) × (from ≤ length line.now) × (scope.depth < nesting) }
    ensures { ExpressionRead (abstraction_in scope) around.now.kinds.now line.now scope
        around.now.book.now around.now.table.now around.now.lines around.now.indicator w.old w.new (go_on from to (fault_in fault)) (walked from to result) }
{
    let Some(open) = symbol(line, around.kinds, from, Kind::Bracket) else {
        return Err(Reason::Malformed);
    };
    let Ok(x) = name_at(line, around.kinds, open) else {
        return Err(Reason::Malformed);
    };
    let Some(comma) = symbol(line, around.kinds, x.start + x.len, Kind::Comma) else {
        return Err(Reason::Malformed);
    };
    let cell = put(w, to, 5);
    let level = nest(scope);
    let a = expression(line, around, w, comma, cell, fault, level)?;
    let Some(close) = symbol(line, around.kinds, a.at, Kind::Unbracket) else {
        return Err(Reason::Malformed);
    };
    let inner = bind(scope, x.start, x.len);
    expression(line, around, w, close, a.to, a.fault, inner)
}
