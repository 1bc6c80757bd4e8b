// What is written of a case.
use crate::stores::Kept;
use cells::field;
use constants::{
    CATEGORY_END, CATEGORY_START, LIMIT_OUT_OF_RANGE, MIDDLE_START, ROW_WIDTH, WORK_TOO_SMALL,
    WORK_UNITS,
};
use names::identifier;
use outcomes::{AnswerNumbers, Numbers};
use programs::write_first;
use std::io::Write;
use std::{fmt, io};

// What each cell of a store and each byte of a page holds before a call.
const BLANK: u8 = 7;

// Code, line, steps.
pub fn outcome<W: Write>(out: &mut W, r: Numbers) -> io::Result<()> {
    let Numbers { code, line, steps } = r;
    writeln!(out, "{code} {line} {steps}")
}

// Code, line, steps and length of a call other than the check.
#[derive(Clone, Copy)]
struct Answered(AnswerNumbers);

impl fmt::Display for Answered {
    fn fmt<W: fmt::Write>(&self, f: &mut fmt::Formatter<W>) -> fmt::Result {
        let AnswerNumbers {
            code,
            line,
            steps,
            length,
        } = self.0;
        write!(f, "{code} {line} {steps} {length}")
    }
}

// The cells from index `from` on, below `to`, each behind a space.
fn cells_between<W: Write>(out: &mut W, cells: &[u32], from: usize, to: usize) -> io::Result<()> {
    let end = to.min(cells.len());
    for x in cells.get(from..end).unwrap_or(&[]) {
        write!(out, " {x}")?;
    }
    Ok(())
}

// Line v: its number, its identifier, the cells of its row, `:` and the cells of its middle, `:` and those of its category.
fn row<W: Write>(out: &mut W, book: &[u8], kept: Kept<'_>, v: u32) -> io::Result<()> {
    let Kept { table, terms, .. } = kept;
    let line = v as usize;
    write!(out, "{v} ")?;
    out.write_all(identifier(book, table, v))?;
    for k in 0..ROW_WIDTH {
        write!(out, " {}", field(table, line, k))?;
    }
    let middle = field(table, line, MIDDLE_START);
    let category = field(table, line, CATEGORY_START);
    let end = field(table, line, CATEGORY_END);
    out.write_all(b" :")?;
    cells_between(out, terms, middle, category)?;
    out.write_all(b" :")?;
    cells_between(out, terms, category, end)?;
    writeln!(out)
}

// The first n lines.
pub fn rows<W: Write>(out: &mut W, book: &[u8], kept: Kept<'_>, n: u32) -> io::Result<()> {
    for v in 1..=n {
        row(out, book, kept, v)?;
    }
    Ok(())
}

// The lengths of the identifiers of line 0, of the line behind the n recorded ones, and of the last number of 32 bits.
pub fn other_names<W: Write>(out: &mut W, book: &[u8], kept: Kept<'_>, n: u32) -> io::Result<()> {
    let table = kept.table;
    write!(out, "names {}", identifier(book, table, 0).len())?;
    if let Some(behind) = n.checked_add(1) {
        write!(out, " {}", identifier(book, table, behind).len())?;
    }
    writeln!(out, " {}", identifier(book, table, u32::MAX).len())
}

// How many of these are not x.
fn others<T: PartialEq>(xs: &[T], x: &T) -> usize {
    xs.iter().filter(|y| *y != x).count()
}

// How many of them from index `from` on are not blank.
fn changed<T: PartialEq + From<u8> + Drop>(xs: &[T], from: usize) -> usize {
    others(xs.get(from..).unwrap_or(&[]), &T::from(BLANK))
}

// Where the entries of the first n lines end in the index; its length, if they do not end in it.
fn entries_end(index: &[u32], n: u32) -> usize {
    let mut at = 0;
    for _ in 0..n {
        let Some((&names, behind)) = index[at..].split_first() else {
            return index.len();
        };
        let names = names as usize;
        if names > behind.len() {
            return index.len();
        }
        at += 1 + names;
    }
    at
}

// The index: the entries of the first `shown` lines, and how many cells changed behind those of the n recorded ones.
pub fn entries<W: Write>(out: &mut W, kept: Kept<'_>, n: u32, shown: u32) -> io::Result<()> {
    let index = kept.index;
    out.write_all(b"index")?;
    cells_between(out, index, 0, entries_end(index, shown))?;
    writeln!(out, " : {}", changed(index, entries_end(index, n)))
}

// Cells of table and term store that changed behind those of the n recorded lines; of the first WORK_UNITS × limit working cells
// those that are not 0; working cells that changed behind them; all working cells that changed.
pub fn other_cells<W: Write>(out: &mut W, kept: Kept<'_>, n: u32, limit: u32) -> io::Result<()> {
    let Kept { table, work, .. } = kept;
    let lines = n as usize;
    let room = WORK_UNITS * limit as usize;
    writeln!(
        out,
        "cells {} {} {} {} {}",
        changed(table, ROW_WIDTH * lines),
        changed(kept.terms, field(table, lines, CATEGORY_END)),
        others(&work[..room.min(work.len())], &0),
        changed(work, room),
        changed(work, 0),
    )
}

// What a call wrote: its numbers; the cells of the answer; how many cells changed behind them.
pub fn written<W: Write>(out: &mut W, r: AnswerNumbers, cells: &[u32]) -> io::Result<()> {
    let length = r.length as usize;
    write!(out, "{} :", Answered(r))?;
    cells_between(out, cells, 0, length)?;
    writeln!(out, " : {}", changed(cells, length))
}

// What a line rests on.
pub fn answer<W: Write>(out: &mut W, r: AnswerNumbers, cells: &[u32]) -> io::Result<()> {
    out.write_all(b"rests ")?;
    written(out, r, cells)
}

// A printed book: the numbers of the call; the bytes of the pages; how many bytes changed behind them.
pub fn pages<W: Write>(out: &mut W, r: AnswerNumbers, page: &[u8]) -> io::Result<()> {
    let length = r.length as usize;
    writeln!(out, "{}", Answered(r))?;
    write_first(out, page, length)?;
    writeln!(out, "changed {}", changed(page, length))
}

// A paragraph line begins with a sign, behind spaces.
fn is_paragraph(line: &[u8]) -> bool {
    matches!(line.iter().find(|b| **b != b' '), Some(b'+' | b'-'))
}

// How many ended lines of the book are no paragraph lines; 2^32 - 1 if there are more.
fn ordinary_lines(book: &[u8]) -> u32 {
    let lines = book
        .split_inclusive(|b| *b == b'\n')
        .filter(|line| line.ends_with(b"\n") && !is_paragraph(line))
        .count();
    u32::try_from(lines).unwrap_or(u32::MAX)
}

// How many lines of the book are recorded when a call ends so: those before the refused one; none of a book that was refused ahead of
// its lines; else all.
pub fn admitted(r: AnswerNumbers, book: &[u8]) -> u32 {
    if r.line > 0 {
        return r.line - 1;
    }
    match r.code {
        WORK_TOO_SMALL | LIMIT_OUT_OF_RANGE => 0,
        _ => ordinary_lines(book),
    }
}

// What a comparison ends with, and what became of the stores behind the lines that were admitted.
pub fn compared<W: Write>(
    out: &mut W,
    r: AnswerNumbers,
    book: &[u8],
    kept: Kept<'_>,
    limit: u32,
) -> io::Result<()> {
    let n = admitted(r, book);
    writeln!(out, "{}", Answered(r))?;
    entries(out, kept, n, 0)?;
    other_cells(out, kept, n, limit)
}

// A place of a sheet.
pub fn place<W: Write>(out: &mut W, r: AnswerNumbers) -> io::Result<()> {
    writeln!(out, "place {}", Answered(r))
}
