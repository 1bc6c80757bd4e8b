// Lines by their identifiers and paragraphs, and identifiers by their lines. specs/Posts has the contracts.
ghost use Rattle.std.specs.Prelude.{◌≡◌, ◌≤◌, length};
ghost use Rattle.aut68.specs.Lines.{identifier_part, part_of};
ghost use Rattle.aut68.specs.Bytes.{same_bytes};
ghost use Rattle.cells.specs.Links.{link_of};
ghost use Rattle.names.specs.Known.{PartLent, identifier_start, IdentifierPlaced};
ghost use Rattle.names.specs.Hints.{line_is};
ghost use Rattle.names.specs.Search.{Gives};
ghost use Rattle.names.specs.Posts.{LineFound};

use crate::chains::search;
use crate::hints::{LINK_FACTOR, head};
use cells::field;
use constants::{Cell, NAME_LENGTH, NAME_START, PARAGRAPH, ROW_WIDTH};
use symbols::same_bytes;

// Is the word the n bytes of s from `first` on? No, where they are not whole in s.
#[tactic(auto, using(crate::proofs::PartLaws::parts_compared))]
pub fn part_is(s: &[u8], first: usize, n: usize, word: &[u8]) -> bool
    ensures { 1 ≤ length word.now → result ≡ same_bytes word.now (part_of s.now first n) }
{
    if n != word.len() || first > s.len() || n > s.len() - first {
        return false;
    }
    same_bytes(word, &s[first..first + n])
}

// Is the word the identifier of line v, and q its paragraph?
#[tactic(auto, using(crate::proofs::FindLaws::is_not, crate::proofs::FindLaws::is_compared_lem))]
fn line_is(book: &[u8], table: &[u32], v: usize, word: &[u8], q: usize) -> bool
    ensures { 1 ≤ length word.now → result ≡ line_is book.now table.now word.now q v }
{
    let paragraph = field(table, v, PARAGRAPH);
    if paragraph != q {
        return false;
    }
    let start = field(table, v, NAME_START);
    let size = field(table, v, NAME_LENGTH);
    part_is(book, start, size % LINK_FACTOR, word)
}

// The line that the row of line v links to.
#[tactic(auto, using(crate::proofs::LinkLaws::link_is_lem))]
fn link_of(table: &[u32], v: usize) -> usize
    ensures { result ≡ link_of table.now v }
{
    field(table, v, NAME_LENGTH) / LINK_FACTOR
}

// The line, of the first `lines` of the table, whose identifier is the word, of the hash h, and whose paragraph is q (number_in), by
// the hints in w.
pub fn find(
    book: &[u8],
    table: &[u32],
    lines: usize,
    w: &[Cell],
    word: &[u8],
    h: usize,
    q: usize,
) -> Option<usize>
    ensures { Gives (LineFound book.now table.now lines w.now word.now h q) result }
{
    search(
        head(w, h, q),
        lines,
        |v| line_is(book, table, v, word, q),
        |v| link_of(table, v),
    )
}

// A part of the book: its first byte, and how many it has.
#[derive(Clone, Copy)]
pub struct Part {
    pub start: usize,
    pub len: usize,
}

// Where the identifier of a line stands in the book; the empty part at its start if the line is 0, its row is not whole in the
// table, or the row points outside the book.
// Kept: the empty part for none, as the C interface gives it.
pub fn identifier_place(book: &[u8], table: &[u32], line: u32) -> Part
    ensures { IdentifierPlaced book.now table.now line result.start result.len }
{
    let v = line as usize;
    if v == 0 || ROW_WIDTH * v > table.len() {
        return Part { start: 0, len: 0 };
    }
    let start = field(table, v, NAME_START);
    let len = field(table, v, NAME_LENGTH);
    if start + len > book.len() {
        return Part { start: 0, len: 0 };
    }
    Part { start, len }
}

// The identifier of a line, as that part of the book.
pub fn identifier<'a>(book: &'a [u8], table: &[u32], line: u32) -> &'a [u8]
    ensures { PartLent book.entry result (identifier_start book.now table.now line) (identifier_part book.now table.now line) }
{
    let Part { start, len } = identifier_place(book, table, line);
    &book[start..start + len]
}
