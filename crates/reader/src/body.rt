// `middle:category` and byte 10.
ghost use Rattle.std.specs.Prelude.{◌≡◌, ◌+◌, ◌≤◌, length};
ghost use Rattle.expressions.specs.Walk.{fault_in, walked};
ghost use Rattle.expressions.specs.Posts.{go_on};
ghost use Rattle.reader.specs.Posts.{number_of, body_in, MiddleKind, MiddleRead, CategoryRead, BodyRead};

use constants::{Cell, Reason};
use expressions::{Reading, put, read_expression};
use kinds::Kind;
use meanings::Lookup;
use symbols::{same_word, spaces, symbol, word_end};

// The kind of a line, by its middle: EB, PN, or an expression.
#[derive(Clone, Copy)]
pub enum LineKind {
    Variable,
    Primitive,
    Abbreviation,
}

// Its number in the table.
impl From<LineKind> for usize {
    ghost from_gives = { λ kind n. n ≡ number_of kind };

    fn from(kind: LineKind) -> usize {
        match kind {
            LineKind::Variable => 0,
            LineKind::Primitive => 1,
            LineKind::Abbreviation => 2,
        }
    }
}

// The middle's kind by the word that stands next (a_middle).
pub fn middle_kind(line: &[u8], kinds: &[u8; 256], at: usize) -> LineKind
    requires { at ≤ length line.now }
    ensures { MiddleKind kinds.now line.now at (number_of result) }
{
    let start = spaces(line, at);
    let end = word_end(line, kinds, start);
    let word = &line[start..end];
    if same_word(word, b"EB") {
        return LineKind::Variable;
    }
    if same_word(word, b"PN") {
        return LineKind::Primitive;
    }
    LineKind::Abbreviation
}

// The middle (a_middle), its cells from index `to` on. EB or PN: past the word, no cells.
fn middle(
    line: &[u8],
    around: &Lookup,
    w: &mut [Cell],
    at: usize,
    to: usize,
    kind: LineKind,
) -> Result<Reading, Reason>
    requires { (at ≤ length line.now) × (to ≤ length w.old) }
    ensures { MiddleRead around.now.kinds.now line.now around.now.book.now around.now.table.now around.now.lines around.now.indicator w.old w.new at to (number_of kind) (walked at to result) }
{
    if let LineKind::Abbreviation = kind {
        let scope = cells::no_bindings();
        return read_expression(line, around, w, at, to, None, scope);
    }
    let start = spaces(line, at);
    let end = word_end(line, around.kinds, start);
    Ok(Reading {
        at: end,
        to,
        fault: None,
        count: 0,
    })
}

// The written category (an_expression at its end) from byte `from` on, its cells from index `to` on, with the first fault so far.
fn category(
    line: &[u8],
    around: &Lookup,
    w: &mut [Cell],
    from: usize,
    to: usize,
    fault: Option<Reason>,
) -> Result<Reading, Reason>
    requires { (to ≤ length w.old + 1) × (from ≤ length line.now) }
    ensures { CategoryRead around.now.kinds.now line.now around.now.book.now around.now.table.now around.now.lines around.now.indicator w.old w.new (go_on from to (fault_in fault)) (walked from to result) }
{
    let start = spaces(line, from);
    let end = word_end(line, around.kinds, start);
    if same_word(&line[start..end], b"type") {
        let next = put(w, to, 0);
        return Ok(Reading {
            at: end,
            to: next,
            fault,
            count: 0,
        });
    }
    let scope = cells::no_bindings();
    read_expression(line, around, w, from, to, fault, scope)
}

// What was read of middle and category: the cells behind those of each, and the first fault of a name.
#[derive(Clone, Copy)]
pub struct BodyCells {
    pub middle: usize,
    pub category: usize,
    pub fault: Option<Reason>,
}

// Middle and category: `middle:category` and byte 10, the line's last, from `at` on. The middle's cells from `to` on, the category's
// behind them.
pub fn body(
    line: &[u8],
    around: &Lookup,
    w: &mut [Cell],
    at: usize,
    to: usize,
    kind: LineKind,
) -> Result<BodyCells, Reason>
    requires { (at ≤ length line.now) × (to ≤ length w.old) }
    ensures { BodyRead around.now.kinds.now line.now around.now.book.now around.now.table.now around.now.lines around.now.indicator w.old w.new at to (number_of kind) (body_in line.now at to result) }
{
    let m = middle(line, around, w, at, to, kind)?;
    let Some(colon) = symbol(line, around.kinds, m.at, Kind::Colon) else {
        return Err(Reason::Malformed);
    };
    let c = category(line, around, w, colon, m.to, m.fault)?;
    let Some(next) = symbol(line, around.kinds, c.at, Kind::Newline) else {
        return Err(Reason::Malformed);
    };
    if next != line.len() {
        return Err(Reason::Malformed);
    }
    Ok(BodyCells {
        middle: m.to,
        category: c.to,
        fault: c.fault,
    })
}
