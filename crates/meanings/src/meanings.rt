// What names mean: bound names, lines, variables of the context. specs/Meanings has the contracts.
ghost use Rattle.aut68.specs.Source.{plain};
ghost use Rattle.constants.specs.Refusals.{code_in};
ghost use Rattle.meanings.specs.Bindings.{place_in};
ghost use Rattle.meanings.specs.Posts.{BindingFound};
ghost use Rattle.meanings.specs.Meanings.{SoughtFound, MeaningFound, cell_in, wanted_in};

use crate::contexts::in_context;
use cells::{Scope, field};
use constants::{CELL_FACTOR, CONTEXT_LENGTH, Cell, KIND, LINE_LIMIT, NESTING, Reason};
use names::part_is;
use paragraphs::find_plain_first;

// How many bindings stand between a plain name and its own, the innermost of that name (place_from); None: it is not bound.
pub fn binding(line: &[u8], scope: &Scope, word: &[u8]) -> Option<usize>
    ensures { BindingFound line.now scope.now (plain word.now) (place_in result) }
{
    let bindings = scope.bound;
    if bindings > NESTING {
        return None;
    }
    for i in (0..bindings).rev() {
        if part_is(line, scope.starts[i] as usize, scope.lens[i] as usize, word) {
            return Some(bindings - 1 - i);
        }
    }
    None
}

// What the names of a line are looked up in: the book, with the kinds of its bytes, the rows of the earlier lines, and the line of the
// line's own indicator.
#[derive(Clone, Copy)]
pub struct Lookup<'a> {
    pub book: &'a [u8],
    pub kinds: &'a [u8; 256],
    pub table: &'a [u32],
    pub lines: usize,
    pub indicator: usize,
}

// What a name that is not bound stands for.
#[derive(Clone, Copy)]
pub enum Sought {
    // The EB line with that identifier; it is in the context.
    Variable(usize),
    // The PN line or abbreviation with that identifier.
    Constant(usize),
    // No line has it.
    NoLine,
    // An EB line that is not in the context.
    NotInForce(usize),
}

// What a used name that is not bound stands for (look_up), by what w notes of lines, paragraphs and the context. The title is empty for
// a plain name.
pub fn look_up(around: &Lookup, w: &[Cell], title: &[u8], word: &[u8]) -> Sought
    ensures { SoughtFound around.now.kinds.now around.now.book.now around.now.table.now around.now.lines around.now.indicator w.now title.now word.now result }
{
    let Some(v) = find_plain_first(
        around.book,
        around.kinds,
        around.table,
        around.lines,
        w,
        title,
        word,
    ) else {
        return Sought::NoLine;
    };
    if v >= LINE_LIMIT {
        return Sought::NoLine;
    }
    if field(around.table, v, KIND) != 0 {
        return Sought::Constant(v);
    }
    if in_context(around.table, w, around.indicator, v) {
        return Sought::Variable(v);
    }
    Sought::NotInForce(v)
}

// What a name means: its cell, and how many arguments it takes.
#[derive(Clone, Copy)]
pub struct Meaning {
    pub cell: Cell,
    pub wanted: usize,
}

// The meaning of a used name (meaning) with b as its binding: that, else what stands for it.
pub fn meaning_of(
    b: Option<usize>,
    around: &Lookup,
    w: &[Cell],
    title: &[u8],
    word: &[u8],
) -> Result<Meaning, Reason>
    ensures { MeaningFound (place_in b) around.now.kinds.now around.now.book.now around.now.table.now around.now.lines around.now.indicator w.now title.now word.now (code_in result) (cell_in result) (wanted_in result) }
{
    match b {
        Some(bindings) if bindings < NESTING => Ok(Meaning {
            cell: CELL_FACTOR * (bindings as Cell) + 2,
            wanted: 0,
        }),
        _ => match look_up(around, w, title, word) {
            Sought::Variable(v) => Ok(Meaning {
                cell: CELL_FACTOR * (v as Cell) + 1,
                wanted: 0,
            }),
            Sought::Constant(v) => Ok(Meaning {
                cell: CELL_FACTOR * (v as Cell) + 3,
                wanted: field(around.table, v, CONTEXT_LENGTH),
            }),
            Sought::NoLine => Err(Reason::UnknownName),
            Sought::NotInForce(_) => Err(Reason::NotInContext),
        },
    }
}
