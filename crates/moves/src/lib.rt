// Paragraph lines: what they make of the place. specs/Posts has the contracts.
#![tactic(auto)]

ghost use Rattle.std.specs.Prelude.{List, [], ℕ, ◌+◌, ◌≤◌, ◌<◌, length};
ghost use Rattle.aut68.specs.Bytes.{Bytes};
ghost use Rattle.aut68.specs.Sizes.{cell_values, book_limit, open_limit};
ghost use Rattle.constants.specs.Refusals.{code_in};
ghost use Rattle.moves.specs.Posts.{OpenNamed, OneOpened, InnermostTold, open_in, NamePost, MovedPost};

use constants::{Cell, OPEN_LIMIT, Reason};
use headings::{Sign, sign_line};
use names::part_is;
use noting::{note_closing, note_opening};
use paragraphs::is_taken;

// Where the name of an open paragraph stands in the book.
#[derive(Clone, Copy)]
pub struct Title {
    pub start: u32,
    pub len: u32,
}

// The open paragraphs, by value: the name of each, the outermost first.
#[derive(Clone, Copy)]
pub struct Open {
    pub titles: [Title; OPEN_LIMIT],
    pub depth: usize,
}

// None is open.
pub fn none_open() -> Open
    ensures { (book : Bytes) → OpenNamed book result [] }
{
    Open {
        titles: [Title { start: 0, len: 0 }; OPEN_LIMIT],
        depth: 0,
    }
}

// One more, its name the part of the book with this start and this length.
fn opened(o: Open, start: usize, len: usize) -> Open
    requires { (o.depth < open_limit) × (start < cell_values) × (len < cell_values) }
    ensures { OneOpened o start len result }
{
    let mut more = o;
    more.titles[o.depth] = Title {
        start: start as u32,
        len: len as u32,
    };
    more.depth = o.depth + 1;
    more
}

// Is the word the name of the innermost?
fn is_innermost(book: &[u8], o: Open, word: &[u8]) -> bool
    ensures { InnermostTold book.now o word.now result }
{
    let d = o.depth;
    if d == 0 || d > OPEN_LIMIT {
        return false;
    }
    let title = o.titles[d - 1];
    part_is(book, title.start as usize, title.len as usize, word)
}

// The line opens the paragraph whose name is that part of the book (check_opening).
fn open_line(
    book: &[u8],
    kinds: &[u8; 256],
    table: &[u32],
    lines: usize,
    w: &mut [Cell],
    start: usize,
    len: usize,
    next: usize,
    o: Open,
) -> Result<Open, Reason>
    requires { (start + len ≤ length book.now) × (next ≤ length book.now) × (length book.now ≤ book_limit) }
    ensures { NamePost 43 kinds.now book.now table.now lines w.old w.new start len next o (code_in result) (open_in o result) }
{
    let end = start + len;
    if is_taken(book, kinds, table, lines, w, &book[start..end]) {
        return Err(Reason::Duplicate);
    }
    let d = o.depth;
    if d >= OPEN_LIMIT {
        return Err(Reason::OutOfSpace);
    }
    note_opening(book, w, start, len, d, next);
    Ok(opened(o, start, len))
}

// It closes the paragraph with that name (check_closing).
fn close_line(
    book: &[u8],
    w: &mut [Cell],
    start: usize,
    len: usize,
    next: usize,
    o: Open,
) -> Result<Open, Reason>
    requires { (start + len ≤ length book.now) × (next ≤ length book.now) × (length book.now ≤ book_limit) }
    ensures { (ks tb : List ℕ) (lines : ℕ) → NamePost 45 ks book.now tb lines w.old w.new start len next o (code_in result) (open_in o result) }
{
    let end = start + len;
    if !is_innermost(book, o, &book[start..end]) {
        return Err(Reason::Unbalanced);
    }
    let d = o.depth - 1;
    note_closing(w, d, next);
    Ok(Open { depth: d, ..o })
}

// The paragraph line from `at` up to `next`, its sign of kind k, behind the first `lines` lines (check_piece): the note of the place
// follows it.
pub fn paragraph_line(
    book: &[u8],
    kinds: &[u8; 256],
    table: &[u32],
    lines: usize,
    w: &mut [Cell],
    at: usize,
    next: usize,
    k: u8,
    o: Open,
) -> Result<Open, Reason>
    requires { (at ≤ next) × (next ≤ length book.now) × (length book.now ≤ book_limit) }
    ensures { MovedPost kinds.now book.now table.now lines w.old w.new at next k o (code_in result) (open_in o result) }
{
    let Some(name) = sign_line(&book[at..next], kinds, k) else {
        return Err(Reason::Malformed);
    };
    let start = at + name.start;
    if k == u8::from(Sign::Closes) {
        return close_line(book, w, start, name.len, next, o);
    }
    open_line(book, kinds, table, lines, w, start, name.len, next, o)
}
