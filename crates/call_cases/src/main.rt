// The test program of calls other than the check. Each argument names a file with one case: a line of numbers, and the book behind it. All
// stores hold 7 in each cell before each call.
// - Seven numbers, the last the bytes of the page store: it writes what the call ends with, the pages, and how many bytes changed behind
//   them.
// - Nine, the eighth 1 or 2: two strings, by the first comparison or the second. The seventh is the budget of the call, the ninth the cells
//   of the left string; the next line has the cells of the right string, and the cells of both. It writes what the call ends with, and what
//   became of the stores.
// - Nine, the eighth 3: a list of pairs. The seventh is the places of the sheet, the ninth the pairs; the next line has the number of the
//   cells that they share, these cells, and five numbers for each of eight pairs. It writes the same, and eight places, of the sheet and
//   behind it.
#![tactic(auto)]

mod sheet_cases;
mod string_cases;

use constants::{Cell, ROW_WIDTH, WORK_UNITS};
use outcomes::AnswerNumbers;
use programs::{INDEX, LIMIT, LINES, TERMS, read_book};
use reports::header::{Header, Scanner};
use reports::stores::Stores;
use reports::{arguments, report};
use std::io;
use std::io::{Read, Write};

// The largest case's bytes, and the page store's.
const TEXT: usize = 4096;

const PAGE: usize = 16384;

// Prints the book on the first bytes of the page store, as many as the header gives, and reports.
fn print<W: Write>(
    out: &mut W,
    h: Header,
    book: &[u8],
    stores: Stores<'_>,
    page: &mut [u8],
) -> io::Result<()> {
    let Some(page) = page.get_mut(..h.last as usize) else {
        return Ok(());
    };
    let Stores {
        table,
        terms,
        work,
        index,
    } = stores;
    let a = printing::print_pages(book, h.budget, h.limit, table, terms, work, index, page);
    report::pages(out, AnswerNumbers::from(a), page)
}

// The case in an open file: the call that its header asks for, with the first cells of the stores, as many as the header gives.
fn case_in<R: Read, W: Write>(from: &mut R, out: &mut W) -> io::Result<()> {
    let mut text = [0u8; TEXT];
    let n = read_book(from, &mut text).unwrap_or_else(|cut| cut.bytes);
    let mut numbers = Scanner::new(&text[..n]);
    let h = Header::read(&mut numbers);
    let mut table = [7u32; ROW_WIDTH * LINES];
    let mut terms: [Cell; TERMS] = [7; TERMS];
    let mut work: [Cell; WORK_UNITS * LIMIT] = [7; WORK_UNITS * LIMIT];
    let mut index = [7u32; INDEX];
    let mut page = [7u8; PAGE];
    let all = Stores {
        table: &mut table,
        terms: &mut terms,
        work: &mut work,
        index: &mut index,
    };
    let Some(stores) = all.first(h.sizes) else {
        return Ok(());
    };
    match h.question {
        None => print(out, h, numbers.rest, stores, &mut page),
        Some(q) if q.line == 3 => sheet_cases::compare(out, h, q, numbers, stores),
        Some(q) => string_cases::compare(out, h, q, numbers, stores),
    }
}

fn main(rt: HostRuntime) -> io::Result<()> {
    arguments::each(&rt, |_, mut file| case_in(&mut file, &mut io::writer(&rt)))
}
