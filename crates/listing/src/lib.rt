// The listing of a book: a row for each recorded line, then the outcome. Program `list` writes that of standard input.
#![tactic(auto)]

use columns::{LineRow, OutcomeRow, ROW};
use constants::{Cell, OUT_OF_SPACE, ROW_WIDTH, WORK_UNITS};
use outcomes::{Numbers, recorded};
use programs::{BUDGET, BYTES, INDEX, LIMIT, LINES, TERMS, fail, read_book, write_first};
use std::fmt::Write as _;
use std::io::{Read, Write};
use std::{fmt, io};

// Rows from the start of a store on, `length` bytes so far. A text that it has no room for is refused whole.
#[derive(Drop)]
struct Rows<'a> {
    store: &'a mut [u8],
    length: usize,
}

impl fmt::Write for Rows<'_> {
    fn write_str(&mut self, text: &str) -> fmt::Result {
        let rest = self.store.get_mut(self.length..).ok_or(fmt::Error)?;
        let place = rest.get_mut(..text.len()).ok_or(fmt::Error)?;
        place.copy_from_slice(text.as_bytes());
        self.length += text.len();
        Ok(())
    }
}

// Writes the listing of a book.
fn write_listing(to: &mut Rows<'_>, book: &[u8]) -> fmt::Result {
    if book.len() > BYTES {
        let r = Numbers {
            code: OUT_OF_SPACE,
            line: 0,
            steps: 0,
        };
        return writeln!(to, "{}", OutcomeRow(r));
    }
    let mut table = [0u32; ROW_WIDTH * LINES];
    let mut terms: [Cell; TERMS] = [0; TERMS];
    let mut work: [Cell; WORK_UNITS * LIMIT] = [0; WORK_UNITS * LIMIT];
    let mut index = [0u32; INDEX];
    let o = verifier::check_book(
        book,
        BUDGET,
        LIMIT as u32,
        &mut table,
        &mut terms,
        &mut work,
        &mut index,
    );
    let r = Numbers::from(o);
    for line in 1..=recorded(r) as usize {
        writeln!(to, "{}", LineRow::of(&table, line))?;
    }
    writeln!(to, "{}", OutcomeRow(r))
}

// Lists the book that `from` has, on `to`, by one write. Where a read fails, standard error says why, and nothing is listed.
pub fn list_book<E: Eprint, R: Read, W: Write>(rt: &E, from: &mut R, to: &mut W) -> io::Result<()> {
    let mut book = [0u8; BYTES + 1];
    let n = match read_book(from, &mut book) {
        Ok(n) => n,
        Err(cut) => return fail(rt, "reading the book", cut.error),
    };
    let mut rows = [0u8; ROW * (LINES + 1)];
    let mut listing = Rows {
        store: &mut rows,
        length: 0,
    };
    write_listing(&mut listing, &book[..n])?;
    let length = listing.length;
    write_first(to, &rows, length)
}
