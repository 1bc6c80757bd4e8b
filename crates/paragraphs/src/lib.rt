// Lines and paragraphs by their names, from the innermost open paragraph outward. specs/Posts has the contracts.
#![tactic(auto)]

ghost use Rattle.std.specs.Prelude.{◌+◌, length, get_or};
ghost use Rattle.aut68.specs.Procedure.Lookup.{paragraph_in, closed_in};
ghost use Rattle.names.specs.Search.{Gives};
ghost use Rattle.notes.specs.Note.{depth_cell};
ghost use Rattle.paragraphs.specs.Posts.{LineInLevel, FoundIn, Outward, ClosedFound, PlainFound, UsedFound, TakenTold, CurrentTold};

use constants::Cell;
use names::{find, hash};
use notes::{COUNT, DEPTH, UPTO, capacity, cell_at, from_at, is_open, noted_in, number_at};
use walks::walk;

// The number of the innermost open paragraph; 0 outside.
pub fn current(w: &[Cell]) -> usize
    ensures { CurrentTold w.now result }
{
    number_at(w, cell_at(w, DEPTH))
}

// The line with this name, h being its hash, in the i-th open paragraph from outside, outside itself for 0.
fn line_in(
    book: &[u8],
    table: &[u32],
    lines: usize,
    w: &[Cell],
    word: &[u8],
    h: usize,
    i: usize,
) -> Option<usize>
    ensures { LineInLevel book.now table.now lines w.now word.now h i result }
{
    find(book, table, lines, w, word, h, number_at(w, i))
}

// The paragraph with this name, h being its hash, that was opened in the i-th open paragraph from outside (paragraph_in). A paragraph
// that is not noted is looked for in the book.
fn paragraph_in(
    book: &[u8],
    kinds: &[u8; 256],
    w: &[Cell],
    word: &[u8],
    h: usize,
    i: usize,
) -> Option<usize>
    ensures { Gives (FoundIn paragraph_in kinds.now book.now w.now word.now h i) result }
{
    let q = number_at(w, i);
    let count = cell_at(w, COUNT);
    if count == q {
        return None;
    }
    let noted = noted_in(book, w, word, h, q);
    if noted.is_some() || count <= capacity(w.len()) {
        return noted;
    }
    walk(book, kinds, from_at(w, i), cell_at(w, UPTO), q, word)
}

// The same among closed ones (closed_in).
fn closed_in(
    book: &[u8],
    kinds: &[u8; 256],
    w: &[Cell],
    word: &[u8],
    h: usize,
    i: usize,
) -> Option<usize>
    ensures { Gives (FoundIn closed_in kinds.now book.now w.now word.now h i) result }
{
    let n = paragraph_in(book, kinds, w, word, h, i)?;
    if is_open(w, n) {
        return None;
    }
    Some(n)
}

// The first that is found in an open paragraph, from the innermost outward, or outside (seek).
fn seek<F: Fn(usize) -> Option<usize>>(w: &[Cell], found_in: F) -> Option<usize>
    requires { F.IsAlwaysCallable found_in }
    ensures { Outward (F.post found_in) (get_or w.now (depth_cell (length w.now)) 0 + 1) result }
{
    for i in (0..cell_at(w, DEPTH) + 1).rev() {
        if let Some(n) = found_in(i) {
            return Some(n);
        }
    }
    None
}

// The closed paragraph that a name means, sought outward.
fn closed(book: &[u8], kinds: &[u8; 256], w: &[Cell], word: &[u8]) -> Option<usize>
    ensures { Gives (ClosedFound kinds.now book.now w.now word.now) result }
{
    let h = hash(word);
    seek(w, |i| closed_in(book, kinds, w, word, h, i))
}

// The line that a plain name means, sought outward.
fn plain(book: &[u8], table: &[u32], lines: usize, w: &[Cell], word: &[u8]) -> Option<usize>
    ensures { Gives (PlainFound book.now table.now lines w.now word.now) result }
{
    let h = hash(word);
    seek(w, |i| line_in(book, table, lines, w, word, h, i))
}

// The line that a used name means (number_of): a plain one where the title is empty.
// Kept: an empty title for none, since no name is empty; `Some` of an empty one would be a third case.
pub fn find_used(
    book: &[u8],
    kinds: &[u8; 256],
    table: &[u32],
    lines: usize,
    w: &[Cell],
    title: &[u8],
    word: &[u8],
) -> Option<usize>
    ensures { Gives (UsedFound kinds.now book.now table.now lines w.now title.now word.now) result }
{
    if title.is_empty() {
        return plain(book, table, lines, w, word);
    }
    let n = closed(book, kinds, w, title)?;
    find(book, table, lines, w, word, hash(word), n)
}

// The same for the reading of expressions, where most names are plain and outside every paragraph: those are found by one call, which
// a function that only hands its slices on would slow down.
pub fn find_plain_first(
    book: &[u8],
    kinds: &[u8; 256],
    table: &[u32],
    lines: usize,
    w: &[Cell],
    title: &[u8],
    word: &[u8],
) -> Option<usize>
    ensures { Gives (UsedFound kinds.now book.now table.now lines w.now title.now word.now) result }
{
    if title.is_empty() && cell_at(w, DEPTH) == 0 {
        return find(book, table, lines, w, word, hash(word), 0);
    }
    find_used(book, kinds, table, lines, w, title, word)
}

// Has a line or a paragraph of the innermost open paragraph the name (unused)?
pub fn is_taken(
    book: &[u8],
    kinds: &[u8; 256],
    table: &[u32],
    lines: usize,
    w: &[Cell],
    word: &[u8],
) -> bool
    ensures { TakenTold kinds.now book.now table.now lines w.now word.now result }
{
    let h = hash(word);
    let i = cell_at(w, DEPTH);
    line_in(book, table, lines, w, word, h, i).is_some()
        || paragraph_in(book, kinds, w, word, h, i).is_some()
}
