// Compares two expressions over the book that is on standard input. Arguments: the left expression, the right one and, if they have a context,
// its indicator, each of at most TEXT bytes. Each expression is read as the category of a line at the end of the book. Code, line and steps
// are written as in the last row of the listing. Of an expression that is refused when it is read: the code, no steps, and for the line the
// number of the book's lines and 1 for the left expression, 2 for the right one. Other arguments: a usage line on standard error, and nothing
// else.
#![tactic(auto)]

ghost use Rattle.std.specs.Prelude.{◌≤◌, IfOk, length};

use books::check_linked;
use cells::line_at;
use columns::OutcomeRow;
use constants::{Cell, ROW_WIDTH, Reason, WORK_UNITS};
use copies::load;
use kinds::kinds_of_bytes;
use outcomes::{AnswerNumbers, Numbers};
use programs::{BUDGET, BYTES, INDEX, LIMIT, LINES, TERMS, argument_count, fail, read_book};
use reader::read_line;
use std::env::FillError;
use std::io;
use std::io::Write;
use std::rt::Env;

// The most bytes of an argument.
const TEXT: usize = 4096;

// A line `indicator*number:=PN:expression` and byte 10, with spaces between the symbols, so that each stands at an index of its own.
const INDICATOR: usize = 0;

const STAR: usize = INDICATOR + TEXT;

const NUMBER: usize = STAR + 1;

const NUMBER_WIDTH: usize = 6;

const EXPRESSION: usize = NUMBER + NUMBER_WIDTH + 5;

const LAST: usize = EXPRESSION + TEXT;

const LINE: usize = LAST + 1;

// The signs of the line.
fn put_signs(line: &mut [u8; LINE]) {
    line[STAR..EXPRESSION].copy_from_slice(b"*     0:=PN:");
    line[LAST] = b'\n';
}

// Argument i, at the start of `text`; nothing where there is none.
fn put_argument<E: Env>(rt: &E, i: usize, text: &mut [u8]) {
    let _ = rt.arg(i, text);
}

// The texts of the line for argument i: its indicator and its expression.
fn put_texts<E: Env>(rt: &E, line: &mut [u8; LINE], i: usize) {
    put_argument(rt, 3, &mut line[INDICATOR..STAR]);
    put_argument(rt, i, &mut line[EXPRESSION..LAST]);
}

// The line as it is read behind the book, with x for its identifier: how many cells it has, or why it is refused.
fn read_as(
    line: &mut [u8; LINE],
    x: usize,
    kinds: &[u8; 256],
    book: &[u8],
    table: &[u32],
    lines: usize,
    work: &mut [Cell],
) -> Result<usize, Reason> {
    let mut number = &mut line[NUMBER..NUMBER + NUMBER_WIDTH];
    let _ = write!(number, "{x:>6}");
    let l = read_line(line, kinds, book, table, lines, work, LIMIT)?;
    Ok(l.size)
}

// The line as it is read behind the book, with the first number for its identifier that no line and no paragraph has. A book of BYTES bytes
// has fewer of them.
fn read_numbered(
    line: &mut [u8; LINE],
    book: &[u8],
    table: &[u32],
    lines: usize,
    work: &mut [Cell],
) -> Result<usize, Reason> {
    let kinds = kinds_of_bytes();
    for x in 0..BYTES {
        let r = read_as(line, x, &kinds, book, table, lines, work);
        if r != Err(Reason::Duplicate) {
            return r;
        }
    }
    read_as(line, BYTES, &kinds, book, table, lines, work)
}

// The expression that is argument i, its cells at the start of `string`: how many they are, or why it is refused.
fn read_argument<E: Env>(
    rt: &E,
    i: usize,
    book: &[u8],
    table: &[u32],
    lines: usize,
    work: &mut [Cell],
    string: &mut [Cell],
) -> Result<usize, Reason>
    ensures { IfOk result (λ size. size ≤ length string.new) }
{
    let mut line = [b' '; LINE];
    put_signs(&mut line);
    put_texts(rt, &mut line, i);
    let size = read_numbered(&mut line, book, table, lines, work)?;
    if size > string.len() {
        return Err(Reason::TooLarge);
    }
    load(work, line_at(LIMIT), size, string, 0);
    Ok(size)
}

// What the comparison of two strings ends with. A refusal of the book is passed on.
fn compare_strings(book: &[u8], left: &[Cell], right: &[Cell]) -> Numbers {
    let mut table = [0u32; ROW_WIDTH * LINES];
    let mut terms: [Cell; TERMS] = [0; TERMS];
    let mut work: [Cell; WORK_UNITS * LIMIT] = [0; WORK_UNITS * LIMIT];
    let mut index = [0u32; INDEX];
    let a = verifier::compare_strings(
        book,
        BUDGET,
        LIMIT as u32,
        &mut table,
        &mut terms,
        &mut work,
        &mut index,
        left,
        right,
        BUDGET,
    );
    let r = AnswerNumbers::from(a);
    Numbers {
        code: r.code,
        line: r.line,
        steps: r.steps,
    }
}

// An expression is refused at the line that is i behind so many lines; a book has at most LINES of them.
fn refused(reason: Reason, lines: usize, i: usize) -> Numbers {
    Numbers {
        code: u32::from(reason),
        line: u32::try_from(lines.saturating_add(i)).unwrap_or(0),
        steps: 0,
    }
}

// What the comparison of the expressions ends with, over a book of so many lines; the error is that of an expression.
fn compare_behind<E: Env>(
    rt: &E,
    book: &[u8],
    table: &[u32],
    lines: usize,
    work: &mut [Cell],
) -> Result<Numbers, Numbers> {
    let mut left: [Cell; LIMIT] = [0; LIMIT];
    let mut right: [Cell; LIMIT] = [0; LIMIT];
    let m = read_argument(rt, 1, book, table, lines, work, &mut left);
    let m = m.map_err(|reason| refused(reason, lines, 1))?;
    let n = read_argument(rt, 2, book, table, lines, work, &mut right);
    let n = n.map_err(|reason| refused(reason, lines, 2))?;
    Ok(compare_strings(book, &left[..m], &right[..n]))
}

// What the comparison of the expressions ends with.
fn compare<E: Env>(rt: &E, book: &[u8]) -> Numbers {
    if book.len() > BYTES {
        return refused(Reason::OutOfSpace, 0, 0);
    }
    let mut table = [0u32; ROW_WIDTH * LINES];
    let mut terms: [Cell; TERMS] = [0; TERMS];
    let mut work: [Cell; WORK_UNITS * LIMIT] = [0; WORK_UNITS * LIMIT];
    let mut index = [0u32; INDEX];
    let e = check_linked(
        book, &mut table, &mut terms, &mut index, &mut work, LIMIT, BUDGET,
    );
    if e.checked.is_err() {
        return compare_strings(book, &[], &[]);
    }
    compare_behind(rt, book, &table, e.lines, &mut work).unwrap_or_else(|refusal| refusal)
}

// Is argument i missing, or not too long?
fn fits<E: Env>(rt: &E, i: usize) -> bool {
    let mut text = [0u8; TEXT];
    !matches!(rt.arg(i, &mut text), Err(FillError::TooLong))
}

// Are there two or three arguments, none too long?
fn is_usage<E: Env>(rt: &E) -> bool {
    matches!(argument_count(rt), 3 | 4) && (1..=3).all(|i| fits(rt, i))
}

fn main(rt: HostRuntime) -> io::Result<()> {
    if !is_usage(&rt) {
        return eprintln!(rt; "usage: compare LEFT RIGHT [INDICATOR] < BOOK");
    }
    let mut book = [0u8; BYTES + 1];
    match read_book(&mut rt.stdin(), &mut book) {
        Ok(n) => println!(rt; "{}", OutcomeRow(compare(&rt, &book[..n]))),
        Err(cut) => fail(&rt, "reading the book", cut.error),
    }
}
