// Two strings of cells compared over a book.
use constants::Cell;
use outcomes::AnswerNumbers;
use reports::header::{Header, Question, Scanner};
use reports::report;
use reports::stores::{Kept, Stores};
use std::io;
use std::io::Write;

// The most cells of a string.
const STRING: usize = 64;

// A case of two strings: the cells of the right one, the cells of both, the book. The question gives the comparison and the cells of the
// left one.
pub fn compare<W: Write>(
    out: &mut W,
    h: Header,
    q: Question,
    numbers: Scanner<'_>,
    stores: Stores<'_>,
) -> io::Result<()> {
    let mut numbers = numbers;
    let m = q.room;
    let n = numbers.length();
    if m > STRING || n > STRING {
        return Ok(());
    }
    let mut left: [Cell; STRING] = [0; STRING];
    let mut right: [Cell; STRING] = [0; STRING];
    numbers.fill(&mut left[..m]);
    numbers.fill(&mut right[..n]);
    let book = numbers.rest;
    let Stores {
        table,
        terms,
        work,
        index,
    } = stores;
    let left = &left[..m];
    let right = &right[..n];
    let a = if q.line == 2 {
        desk::compare_strings_parts_first(
            book, h.budget, h.limit, table, terms, work, index, left, right, h.last,
        )
    } else {
        desk::compare_strings(
            book, h.budget, h.limit, table, terms, work, index, left, right, h.last,
        )
    };
    let kept = Kept {
        table,
        terms,
        work,
        index,
    };
    // Kept: `?` and `Ok`. As the last expression this call, over what moved out of a parameter, has no generated proof.
    report::compared(out, AnswerNumbers::from(a), book, kept, h.limit)?;
    Ok(())
}
