// Expressions read where the first fault so far is a number.
ghost use Rattle.std.specs.Prelude.{◌+◌, ◌≤◌, length};
ghost use Rattle.expressions.specs.Walk.{numbered};
ghost use Rattle.expressions.specs.Posts.{expression_in, go_on, ExpressionRead};

use crate::walk;
use cells::Scope;
use constants::{Cell, Reason};
use meanings::Lookup;

// A Reading with the number of its fault; 0 for none.
#[derive(Clone, Copy)]
pub struct Numbered {
    pub at: usize,
    pub to: usize,
    pub fault: u32,
    pub count: usize,
}

// The expression that stands next, with the number of the first fault so far. Any number but 0 is handed on as it is: behind a fault no
// name is looked up, so it is all one which reason stands for it.
pub fn expression(
    line: &[u8],
    around: &Lookup,
    w: &mut [Cell],
    from: usize,
    to: usize,
    fault: u32,
    scope: Scope,
) -> Result<Numbered, Reason>
    requires { (to ≤ length w.old + 1) × (from ≤ length line.now) }
    ensures { ExpressionRead (expression_in scope) around.now.kinds.now line.now scope
        around.now.book.now around.now.table.now around.now.lines around.now.indicator w.old w.new (go_on from to fault) (numbered from to result) }
{
    let before = if fault == 0 {
        None
    } else {
        Some(Reason::UnknownName)
    };
    let a = walk::expression(line, around, w, from, to, before, scope)?;
    let found = a.fault.map_or(0, u32::from);
    Ok(Numbered {
        at: a.at,
        to: a.to,
        fault: if fault == 0 { found } else { fault },
        count: a.count,
    })
}
