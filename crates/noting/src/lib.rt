// The note of paragraphs, written: notes' specs/Note has its layout, specs/Posts the contracts.
#![tactic(auto)]

ghost use Rattle.std.specs.Prelude.{List, ℕ, ◌+◌, ◌≤◌, ◌<◌, length};
ghost use Rattle.aut68.specs.Sizes.{cell_values, book_limit, open_limit};
ghost use Rattle.noting.specs.Posts.{Put, EntryPost, OpeningPost, ClosingPost};

use constants::{CELL_VALUES, Cell};
use names::hash;
use notes::{
    AROUNDS, CHAIN_FACTOR, COUNT, DEPTH, FROMS, HEADS, NUMBERS, PLACE_FACTOR, TITLES, UPTO,
    capacity, cell_at, chain, number_at,
};

// Puts x in the i-th cell behind the middle of the store, if there is one.
#[tactic(auto, using(crate::proofs::PutLaws::put_set))]
fn put_cell(w: &mut [Cell], i: usize, x: usize)
    ensures { Put (length w.old) i x w.old w.new }
{
    let half = w.len() / 2;
    if i >= w.len() - half || x >= CELL_VALUES {
        return;
    }
    w[half + i] = x as Cell;
}

// The entry of the n-th paragraph, opened in q, whose name is the part of the book; it is the first of its chain. None, where there
// is no room for it.
fn note_entry(book: &[u8], w: &mut [Cell], start: usize, len: usize, n: usize, q: usize)
    requires { (start + len ≤ length book.now) × (length book.now ≤ book_limit) × (0 < n) × (q < cell_values) }
    ensures { EntryPost book.now start len n q w.old w.new }
{
    let most = capacity(w.len());
    if n > most {
        return;
    }
    let h = hash(&book[start..start + len]);
    let head = HEADS + chain(w.len(), h, q);
    let was = cell_at(w, head);
    put_cell(w, head, n);
    put_cell(w, TITLES + most + 2 * n, start + PLACE_FACTOR * len);
    put_cell(w, AROUNDS + most + 2 * n, q + CHAIN_FACTOR * was);
}

// A paragraph is opened inside d others, its name the part of the book; the check goes on at byte `next`.
pub fn note_opening(book: &[u8], w: &mut [Cell], start: usize, len: usize, d: usize, next: usize)
    requires { (start + len ≤ length book.now) × (length book.now ≤ book_limit) × (d < open_limit) × (next ≤ length book.now) }
    ensures { OpeningPost book.now start len d next w.old w.new }
{
    let n = cell_at(w, COUNT) + 1;
    let q = number_at(w, d);
    note_entry(book, w, start, len, n, q);
    put_cell(w, NUMBERS + d, n);
    put_cell(w, FROMS + d, next);
    put_cell(w, DEPTH, d + 1);
    put_cell(w, COUNT, n);
    put_cell(w, UPTO, next);
}

// The innermost open paragraph is closed, d are left; the check goes on at byte `next`.
pub fn note_closing(w: &mut [Cell], d: usize, next: usize)
    ensures { (book : List ℕ) → ClosingPost book d next w.old w.new }
{
    put_cell(w, DEPTH, d);
    put_cell(w, UPTO, next);
}
