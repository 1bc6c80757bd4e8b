// Marks on the lines reached from a line, and the `PN` lines among them.
ghost use Rattle.std.specs.Prelude.{◌≡◌, ◌∷◌, [], ◌<◌};
ghost use Rattle.std.proofs.Math.Seq.{slice};
ghost use Rattle.aut68.specs.Index.{mentioned_as_indicator};
ghost use Rattle.cells.specs.Numbers.{numbers_in};
ghost use Rattle.reaching.specs.Adding.{AddsMarks};
ghost use Rattle.reaching.specs.RowNames.{row_names};
ghost use Rattle.reaching.specs.Primitives.{is_marked_primitive, one_if};
ghost use Rattle.reaching.specs.Posts.{VisitPost, ReachedPost, MarkedPost, BeneathPost};

use cells::{field, names_line};
use constants::{CATEGORY_END, CELL_FACTOR, Cell, INDICATOR, KIND, MIDDLE_START};
use marks::{is_marked, mark};

// The kind of a `PN` line.
// Kept: a number, as the row in the table, which C callers read, has it.
const PRIMITIVE: usize = 1;

// Marks the line that the cell x names, if it names one.
fn mark_cell(x: Cell, w: &mut [Cell])
    ensures { AddsMarks (numbers_in (x ∷ [])) w.old w.new }
{
    if names_line(x) {
        mark(w, (x / CELL_FACTOR) as usize);
    }
}

// Marks the lines that the cells of the term store from `from` on and before `to` name.
fn mark_cells(terms: &[Cell], from: usize, to: usize, w: &mut [Cell])
    ensures { AddsMarks (numbers_in (slice from to terms.now)) w.old w.new }
{
    for i in from..to.min(terms.len()) {
        mark_cell(terms[i], w);
    }
}

// Marks line v, unless it is 0.
fn mark_indicator(v: usize, w: &mut [Cell])
    ensures { AddsMarks (mentioned_as_indicator v) w.old w.new }
{
    if v > 0 {
        mark(w, v);
    }
}

// Marks the lines that line v names: its indicator, and those of its cells.
fn mark_names(table: &[u32], terms: &[Cell], v: usize, w: &mut [Cell])
    ensures { AddsMarks (row_names table.now terms.now v) w.old w.new }
{
    mark_indicator(field(table, v, INDICATOR), w);
    let from = field(table, v, MIDDLE_START);
    let to = field(table, v, CATEGORY_END);
    mark_cells(terms, from, to, w);
}

// Is line v a `PN` line that is marked?
fn is_marked_primitive(table: &[u32], w: &[Cell], v: usize) -> bool
    ensures { result ≡ is_marked_primitive table.now w.now v }
{
    is_marked(w, v) && field(table, v, KIND) == PRIMITIVE
}

// Marks the lines that line v names, if it is marked itself. Is it a marked `PN` line?
fn visit(table: &[u32], terms: &[Cell], v: usize, w: &mut [Cell]) -> bool
    ensures { VisitPost table.now terms.now v w.old (one_if result) w.new }
{
    if !is_marked(w, v) {
        return false;
    }
    mark_names(table, terms, v, w);
    field(table, v, KIND) == PRIMITIVE
}

// Marks the lines reached from `line`, in a store without marks; how many of them are `PN` lines.
fn mark_reached(table: &[u32], terms: &[Cell], line: usize, w: &mut [Cell]) -> usize
    ensures { ReachedPost table.now terms.now line w.old result w.new }
{
    mark(w, line);
    let mut count = 0;
    for v in (1..=line).rev() {
        if visit(table, terms, v, w) {
            count += 1;
        }
    }
    count
}

// Writes the marked `PN` lines up to `line` in the first cells of the answer, ascending; what does not fit is left out.
fn put_marked(table: &[u32], line: usize, w: &[Cell], answer: &mut [u32])
    requires { line < 4294967296 }
    ensures { MarkedPost table.now line w.now answer.old answer.new }
{
    let mut n = 0;
    for v in 1..=line {
        if is_marked_primitive(table, w, v) && n < answer.len() {
            answer[n] = v as u32;
            n += 1;
        }
    }
}

// Writes the `PN` lines reached from `line` in the first cells of the answer, ascending, unless they do not fit; how many they are. w is
// there for marks, and is all zeros before and after.
pub fn put_beneath(
    table: &[u32],
    terms: &[Cell],
    line: usize,
    w: &mut [Cell],
    answer: &mut [u32],
) -> usize
    requires { line < 4294967296 }
    ensures { BeneathPost table.now terms.now line w.old answer.old result w.new answer.new }
{
    let count = mark_reached(table, terms, line, w);
    if count <= answer.len() {
        put_marked(table, line, w, answer);
    }
    w.fill(0);
    count
}
