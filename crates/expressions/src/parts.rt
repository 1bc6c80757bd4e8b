// The parts of a walk over an expression that call no other: how far it came, a cell written, a name looked up, its arguments
// completed. They are inlined, since a call hands an answer through memory.
ghost use Rattle.std.specs.Prelude.{◌≡◌, ◌≢◌, ◌+◌, ◌≤◌, ◌<◌, length, IfSome};
ghost use Rattle.std.proofs.Math.Seq.{slice};
ghost use Rattle.aut68.specs.Sizes.{nesting};
ghost use Rattle.kinds.specs.Kinds.{opens_kind};
ghost use Rattle.kinds.specs.Numbers.{number};
ghost use Rattle.symbols.specs.Symbols.{title_in, size_in};
ghost use Rattle.meanings.specs.Bindings.{place_in};
ghost use Rattle.meanings.specs.Meanings.{cell_in};
ghost use Rattle.meanings.specs.Posts.{BindingFound};
ghost use Rattle.expressions.specs.Walk.{CellPut, fault_in, read_to};
ghost use Rattle.expressions.specs.Posts.{NameSought, Completed, place_of, used_of, meaning_in};

use cells::Scope;
use completion::{last_left_out, put_in};
use constants::{CELL_FACTOR, Cell, NESTING, Reason};
use kinds::Kind;
use meanings::{Lookup, Meaning, binding, meaning_of};
use symbols::{Name, UsedName};

// How far a walk came. at: the next byte. to: the next cell; one past the store's end, and staying there, where the store had no room
// or something was put in too deep. fault: the first refusal of a name. count: the arguments read, for an argument string.
#[derive(Clone, Copy)]
pub struct Reading {
    pub at: usize,
    pub to: usize,
    pub fault: Option<Reason>,
    pub count: usize,
}

// Does a byte of this kind open an expression (opens_expression)?
#[inline(always)]
pub fn opens(k: Kind) -> bool
    ensures { result ≡ opens_kind (number k) }
{
    matches!(k, Kind::Name | Kind::Less | Kind::Bracket)
}

// Writes the cell x at index `to`, and gives the next index; one past the store's end where there is no room.
// Kept: the walk hands this index on at each cell, so an Option would be taken apart at each of them.
#[inline(always)]
pub fn put(w: &mut [Cell], to: usize, x: Cell) -> usize
    ensures { CellPut w.old w.new to x result }
{
    if to < w.len() {
        w[to] = x;
        return to + 1;
    }
    w.len() + 1
}

// The bytes of a name.
#[inline(always)]
pub fn word(line: &[u8], n: Name) -> &[u8]
    requires { n.start + n.len ≤ length line.now }
    ensures { result.now ≡ slice n.start (n.start + n.len) line.now }
{
    &line[n.start..n.start + n.len]
}

// Those of the paragraph's name ahead of the point; none if there is no point.
#[inline(always)]
pub fn title(line: &[u8], u: UsedName) -> &[u8]
    requires { title_in u.paragraph + size_in u.paragraph ≤ length line.now }
    ensures { result.now ≡ slice (title_in u.paragraph) (title_in u.paragraph + size_in u.paragraph) line.now }
{
    match u.paragraph {
        Some(p) => word(line, p),
        None => &line[..0],
    }
}

// The binding of the used name u. A name behind a point has none.
#[inline(always)]
pub fn bound(line: &[u8], scope: &Scope, u: UsedName) -> Option<usize>
    requires within { u.name.start + u.name.len ≤ length line.now }
    requires titled { IfSome u.paragraph (λ p. p.len ≢ 0) }
    ensures { BindingFound line.now scope.now (used_of line.now (place_of u)) (place_in result) }
{
    match u.paragraph {
        Some(_) => None,
        None => binding(line, scope, word(line, u.name)),
    }
}

// The meaning of the used name u whose binding is b, by what w notes of lines, paragraphs and the context. It is not looked up where a
// fault came before, since it is not asked for then.
#[inline(always)]
pub fn name_meaning(
    line: &[u8],
    around: &Lookup,
    w: &[Cell],
    fault: Option<Reason>,
    b: Option<usize>,
    u: UsedName,
) -> Result<Meaning, Reason>
    requires { (u.name.start + u.name.len ≤ length line.now) × (title_in u.paragraph + size_in u.paragraph ≤ length line.now) }
    ensures { NameSought around.now.kinds.now line.now (place_in b) around.now.book.now around.now.table.now around.now.lines around.now.indicator w.now (fault_in fault) (place_of u) (meaning_in result) }
{
    if let Some(reason) = fault {
        return Err(reason);
    }
    meaning_of(b, around, w, title(line, u), word(line, u.name))
}

// The cell of a name that means m; 0 where it means nothing.
#[inline(always)]
pub fn cell_of(m: Result<Meaning, Reason>) -> Cell
    ensures { result ≡ cell_in m }
{
    match m {
        Ok(m) => m.cell,
        Err(_) => 0,
    }
}

// The arguments a of a name that means m, at nesting depth `depth`, their cells from `first` on: those left out put in front, with a
// wrong count as the fault where that cannot be (left_out). It stands at its name, so it goes before a fault in the arguments.
#[inline(always)]
pub fn completed(
    around: &Lookup,
    w: &mut [Cell],
    first: usize,
    depth: usize,
    a: Reading,
    m: Result<Meaning, Reason>,
) -> Reading
    requires { depth < nesting }
    ensures { Completed around.now.table.now around.now.indicator w.old w.new first depth (read_to a) (meaning_in m) (read_to result) }
{
    let Ok(m) = m else {
        return a;
    };
    if a.count == m.wanted {
        return a;
    }
    let miscounted = Reading {
        fault: Some(Reason::WrongArity),
        ..a
    };
    if a.count > m.wanted {
        return miscounted;
    }
    let v = (m.cell / CELL_FACTOR) as usize;
    let Some(last) = last_left_out(around.table, w, around.indicator, v, a.count) else {
        return miscounted;
    };
    if depth + 1 >= NESTING {
        return Reading {
            to: w.len() + 1,
            ..a
        };
    }
    let to = put_in(around.table, w, first, a.to, last);
    Reading { to, ..a }
}
