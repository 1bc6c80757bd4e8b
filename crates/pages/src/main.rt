// Prints the book that is on standard input, on pages. Of a book that is refused it prints nothing; its code, line and steps are then on
// standard error, as the listing has them.
#![tactic(auto)]

use columns::OutcomeRow;
use constants::{Cell, OUT_OF_SPACE, PAGE_ROW, ROW_WIDTH, TEXT_COLUMNS, WORK_UNITS};
use outcomes::{AnswerNumbers, Numbers};
use programs::{BUDGET, BYTES, INDEX, LIMIT, LINES, TERMS, fail, read_book, write_first};
use std::io;

// Room for the pages of every book of so many bytes and lines.
const PAGE: usize = PAGE_ROW * (LINES + BYTES / TEXT_COLUMNS);

// The pages of a book, at the start of page.
fn print(book: &[u8], page: &mut [u8]) -> AnswerNumbers {
    if book.len() > BYTES {
        return AnswerNumbers {
            code: OUT_OF_SPACE,
            line: 0,
            steps: 0,
            length: 0,
        };
    }
    let mut table = [0u32; ROW_WIDTH * LINES];
    let mut terms: [Cell; TERMS] = [0; TERMS];
    let mut work: [Cell; WORK_UNITS * LIMIT] = [0; WORK_UNITS * LIMIT];
    let mut index = [0u32; INDEX];
    let a = verifier::print_pages(
        book,
        BUDGET,
        LIMIT as u32,
        &mut table,
        &mut terms,
        &mut work,
        &mut index,
        page,
    );
    AnswerNumbers::from(a)
}

fn main(rt: HostRuntime) -> io::Result<()> {
    let mut book = [0u8; BYTES + 1];
    let n = match read_book(&mut rt.stdin(), &mut book) {
        Ok(n) => n,
        Err(cut) => return fail(&rt, "reading the book", cut.error),
    };
    let mut page = [0u8; PAGE];
    let a = print(&book[..n], &mut page);
    if a.code != 0 {
        let r = Numbers {
            code: a.code,
            line: a.line,
            steps: a.steps,
        };
        return eprintln!(rt; "{}", OutcomeRow(r));
    }
    write_first(&mut rt.stdout(), &page, a.length as usize)
}
