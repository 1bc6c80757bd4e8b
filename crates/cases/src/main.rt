// The test program. The first arguments name books, which it lists. Each other argument names a file with one case: a header line of
// seven numbers, or nine, then the book. For each case it writes the outcome, what is recorded, and what became of every other cell;
// where the header has nine numbers, then the same of a call that asks what a line rests on. All stores hold 7 in each cell before
// each call.
#![tactic(auto)]

use constants::{Cell, LARGEST_LIMIT, ROW_WIDTH, WORK_UNITS};
use outcomes::{AnswerNumbers, Numbers, recorded};
use programs::read_book;
use reports::header::{Header, Question, Scanner};
use reports::stores::{Kept, Stores};
use reports::{arguments, report};
use std::io;
use std::io::{Read, Write};

// How many books are listed.
const LISTED: usize = 3;

// The largest case's bytes.
const TEXT: usize = 131072;

// The cells of the stores: more than 8,192 lines have rows; the index is one longer than the listing program's; the working store has a
// cell more than the largest limit needs.
const TABLE: usize = ROW_WIDTH * 8193;

const TERMS: usize = 16384;

const WORK: usize = WORK_UNITS * LARGEST_LIMIT + 1;

const INDEX: usize = 16385;

const ANSWER: usize = 64;

// Reports what is recorded of n lines, and what became of every other cell.
fn report_stores<W: Write>(
    out: &mut W,
    h: Header,
    n: u32,
    book: &[u8],
    kept: Kept<'_>,
) -> io::Result<()> {
    let shown = n.min(h.last);
    report::rows(out, book, kept, shown)?;
    report::entries(out, kept, n, shown)?;
    report::other_names(out, book, kept, n)?;
    report::other_cells(out, kept, n, h.limit)
}

// Checks the book and reports.
fn check<W: Write>(out: &mut W, h: Header, book: &[u8], stores: Stores<'_>) -> io::Result<()> {
    let Stores {
        table,
        terms,
        work,
        index,
    } = stores;
    let o = verifier::check_book(book, h.budget, h.limit, table, terms, work, index);
    let r = Numbers::from(o);
    let kept = Kept {
        table,
        terms,
        work,
        index,
    };
    report::outcome(out, r)?;
    // Kept: `?` and `Ok`. As the last expression this call, over what moved out of a parameter, has no generated proof.
    report_stores(out, h, recorded(r), book, kept)?;
    Ok(())
}

// Asks what a line rests on, and reports.
fn ask<W: Write>(
    out: &mut W,
    h: Header,
    line: u32,
    book: &[u8],
    stores: Stores<'_>,
    answer: &mut [u32],
) -> io::Result<()> {
    let Stores {
        table,
        terms,
        work,
        index,
    } = stores;
    let a = verifier::rests_on(
        book, h.budget, h.limit, table, terms, work, index, line, answer,
    );
    let r = AnswerNumbers::from(a);
    let kept = Kept {
        table,
        terms,
        work,
        index,
    };
    report::answer(out, r, answer)?;
    // Kept: `?` and `Ok`. As the last expression this call, over what moved out of a parameter, has no generated proof.
    report_stores(out, h, report::admitted(r, book), book, kept)?;
    Ok(())
}

// One call on the book: the question, or the check where there is none. Its stores are as large as the header gives.
fn call<W: Write>(
    out: &mut W,
    h: Header,
    book: &[u8],
    question: Option<Question>,
) -> io::Result<()> {
    let mut table = [7u32; TABLE];
    let mut terms: [Cell; TERMS] = [7; TERMS];
    let mut work: [Cell; WORK] = [7; WORK];
    let mut index = [7u32; INDEX];
    let mut answer = [7u32; ANSWER];
    let all = Stores {
        table: &mut table,
        terms: &mut terms,
        work: &mut work,
        index: &mut index,
    };
    let Some(stores) = all.first(h.sizes) else {
        return Ok(());
    };
    match question {
        None => check(out, h, book, stores),
        Some(q) => {
            let answer = &mut answer[..q.room.min(ANSWER)];
            ask(out, h, q.line, book, stores, answer)
        }
    }
}

// The case in an open file: the check of its book, then the question.
fn case_in<R: Read, W: Write>(from: &mut R, out: &mut W) -> io::Result<()> {
    let mut text = [0u8; TEXT];
    let n = read_book(from, &mut text).unwrap_or_else(|cut| cut.bytes);
    let mut numbers = Scanner::new(&text[..n]);
    let h = Header::read(&mut numbers);
    let book = numbers.rest;
    if h.question.is_some_and(|q| q.room > ANSWER) {
        return Ok(());
    }
    call(out, h, book, None)?;
    if h.question.is_some() {
        call(out, h, book, h.question)?;
    }
    Ok(())
}

// The book or the case in the file that argument i names.
fn argument<R: Print + Eprint, F: Read>(rt: &R, i: usize, file: &mut F) -> io::Result<()> {
    let mut out = io::writer(rt);
    if i > LISTED {
        return case_in(file, &mut out);
    }
    listing::list_book(rt, file, &mut out)
}

fn main(rt: HostRuntime) -> io::Result<()> {
    arguments::each(&rt, |i, mut file| argument(&rt, i, &mut file))
}
