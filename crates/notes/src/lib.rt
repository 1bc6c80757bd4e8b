// What the working store notes of paragraphs: specs/Note has the layout, specs/Posts the contracts.
#![tactic(auto)]

ghost use Rattle.std.specs.Prelude.{◌≡◌, ◌+◌, ◌/◌, ◌≤◌, ◌<◌, length, get_or};
ghost use Rattle.aut68.specs.Sizes.{cell_values};
ghost use Rattle.names.specs.Search.{Gives};
ghost use Rattle.notes.specs.Note.{numbers, froms, arounds, capacity, entry_at, chain_of, entry_is, next_at, noted};
ghost use Rattle.notes.specs.Posts.{OfLevel, NotedFound, OpenTold};

use cells::READER_UNITS;
use constants::{Cell, OPEN_LIMIT};
use names::{key, part_is, search};

// Where its cells lie, behind the middle of the store.
pub const DEPTH: usize = 1;

pub const COUNT: usize = 2;

pub const UPTO: usize = 3;

pub const NUMBERS: usize = 4;

pub const FROMS: usize = 36;

pub const HEADS: usize = 68;

// The entries, behind as many heads as there are entries.
pub const TITLES: usize = 67;

pub const AROUNDS: usize = 68;

// A place in the book and a length in one cell; two numbers below 65,536 in one.
pub const PLACE_FACTOR: usize = 16777216;

pub const CHAIN_FACTOR: usize = 65536;

// The i-th cell behind the middle of the store; 0 where there is none.
// Kept: 0, as a cell of the lent store that notes nothing has it.
pub fn cell_at(w: &[Cell], i: usize) -> usize
    ensures { (result ≡ get_or w.now (length w.now / 2 + i) 0) × (result < cell_values) }
{
    match w[w.len() / 2..].get(i) {
        Some(&cell) => cell as usize,
        None => 0,
    }
}

// What is noted of the i-th open paragraph from outside, from the cell `base` on; 0 for i = 0.
fn level_cell(w: &[Cell], base: usize, i: usize) -> usize
    requires { base ≤ froms }
    ensures { OfLevel base w.now i result }
{
    if i == 0 || i > OPEN_LIMIT {
        return 0;
    }
    cell_at(w, base + (i - 1))
}

// Its number; 0 outside.
pub fn number_at(w: &[Cell], i: usize) -> usize
    ensures { OfLevel numbers w.now i result }
{
    level_cell(w, NUMBERS, i)
}

// The byte behind its opening; 0 outside.
pub fn from_at(w: &[Cell], i: usize) -> usize
    ensures { OfLevel froms w.now i result }
{
    level_cell(w, FROMS, i)
}

// How many paragraphs have an entry in a store of n cells, at most ..
pub fn capacity(n: usize) -> usize
    ensures { result ≡ capacity n }
{
    (3 * (n / READER_UNITS)).saturating_sub(24)
}

// .. and of so many.
#[tactic(auto, using(crate::proofs::EntryLaws::noted_is))]
fn noted(n: usize, count: usize) -> usize
    ensures { result ≡ noted n count }
{
    count.min(capacity(n))
}

// The chain of a name with the hash h, opened in the paragraph q.
#[tactic(auto, using(crate::proofs::EntryLaws::chain_is_lem))]
pub fn chain(n: usize, h: usize, q: usize) -> usize
    ensures { (result ≡ chain_of n h q) × (result < cell_values) }
{
    key(h, q) % (capacity(n) + 1)
}

// A cell of the entry of paragraph k.
fn entry_cell(w: &[Cell], base: usize, k: usize) -> usize
    requires { base ≤ arounds }
    ensures { k ≤ capacity (length w.now) → result ≡ get_or w.now (entry_at (length w.now) base k) 0 }
{
    let most = capacity(w.len());
    if k > most {
        return 0;
    }
    cell_at(w, base + most + 2 * k)
}

// Has the paragraph k, by its entry, this name, and was it opened in q?
#[tactic(auto, using(crate::proofs::EntryLaws::entry_not, crate::proofs::EntryLaws::entry_compared))]
fn entry_is(book: &[u8], w: &[Cell], k: usize, word: &[u8], q: usize) -> bool
    ensures { 1 ≤ length word.now → k ≤ capacity (length w.now) → result ≡ entry_is book.now w.now word.now q k }
{
    let around = entry_cell(w, AROUNDS, k);
    if around % CHAIN_FACTOR != q {
        return false;
    }
    let title = entry_cell(w, TITLES, k);
    part_is(book, title % PLACE_FACTOR, title / PLACE_FACTOR, word)
}

// The next entry of the chain of paragraph k; 0: none.
// Kept: 0, as the cells of the lent store have it.
#[tactic(auto, using(crate::proofs::EntryLaws::next_is_lem))]
fn next_at(w: &[Cell], k: usize) -> usize
    ensures { k ≤ capacity (length w.now) → result ≡ next_at w.now k }
{
    entry_cell(w, AROUNDS, k) / CHAIN_FACTOR
}

// The paragraph with this name opened in q, among those that have an entry, by the hash h of the name.
pub fn noted_in(book: &[u8], w: &[Cell], word: &[u8], h: usize, q: usize) -> Option<usize>
    ensures { Gives (NotedFound book.now w.now word.now h q) result }
{
    let first = cell_at(w, HEADS + chain(w.len(), h, q));
    let most = noted(w.len(), cell_at(w, COUNT));
    search(
        first,
        most,
        |k| entry_is(book, w, k, word, q),
        |k| next_at(w, k),
    )
}

// Is the paragraph n open?
#[tactic(auto, using(crate::proofs::OpenLaws::among_all, crate::proofs::OpenLaws::among_none))]
pub fn is_open(w: &[Cell], n: usize) -> bool
    ensures { OpenTold w.now n result }
{
    for i in (0..cell_at(w, DEPTH)).rev() {
        if number_at(w, i + 1) == n {
            return true;
        }
    }
    false
}
