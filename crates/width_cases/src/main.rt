// The test program of conversions. Each argument names a file with one case: `widen` or `narrow` and the cells of the target, then, on a
// line of its own, the source; an empty source has no line. For each case it writes what the call ends with, the cells that were written,
// and how many cells changed behind them. The target's cells hold 7 before each call, as do those behind it.
#![tactic(auto)]

ghost use Rattle.std.specs.Prelude.{◌≤◌, length};

use constants::{Cell, NARROW_VALUES, NarrowCell};
use outcomes::AnswerNumbers;
use programs::read_book;
use reports::header::Scanner;
use reports::{arguments, report};
use std::io;
use std::io::{Read, Write};

// The most bytes of a case, and the most cells of a source and of a target.
const TEXT: usize = 1024;

const CELLS: usize = 32;

// The numbers that are left, in the first cells of the source. How many they are.
fn numbers(text: &mut Scanner<'_>, source: &mut [Cell; CELLS]) -> usize
    ensures { result ≤ 32 }
{
    for (n, cell) in source.iter_mut().enumerate() {
        if text.rest.is_empty() {
            return n;
        }
        *cell = text.narrow();
    }
    CELLS
}

// The low bits of the source, widened into the first cells of the target.
fn widened<W: Write>(out: &mut W, source: &[Cell], room: usize) -> io::Result<()>
    requires { (length source.now ≤ 32) × (room ≤ 32) }
{
    let mut narrow: [NarrowCell; CELLS] = [0; CELLS];
    for (to, cell) in narrow.iter_mut().zip(source) {
        *to = (cell % NARROW_VALUES) as NarrowCell;
    }
    let mut target: [Cell; CELLS] = [7; CELLS];
    let a = widths::widen(&narrow[..source.len()], &mut target[..room]);
    report::written(out, AnswerNumbers::from(a), &target)
}

// The source, narrowed into the first cells of the target. They are shown from wide cells.
fn narrowed<W: Write>(out: &mut W, source: &[Cell], room: usize) -> io::Result<()>
    requires { room ≤ 32 }
{
    let mut target: [NarrowCell; CELLS] = [7; CELLS];
    let a = widths::narrow(source, &mut target[..room]);
    report::written(out, AnswerNumbers::from(a), &target.map(Cell::from))
}

// A case.
fn case_of<W: Write>(out: &mut W, text: &[u8]) -> io::Result<()> {
    let Some(first) = text.first() else {
        return Ok(());
    };
    let widens = *first == b'w';
    let name = if widens { "widen " } else { "narrow " };
    let mut text = Scanner::new(text.get(name.len()..).unwrap_or(&[]));
    let room = text.length();
    if room > CELLS {
        return Ok(());
    }
    let mut source: [Cell; CELLS] = [0; CELLS];
    let n = numbers(&mut text, &mut source);
    if widens {
        widened(out, &source[..n], room)
    } else {
        narrowed(out, &source[..n], room)
    }
}

// The case in an open file.
fn case_in<R: Read, W: Write>(from: &mut R, out: &mut W) -> io::Result<()> {
    let mut text = [0u8; TEXT];
    let n = read_book(from, &mut text).unwrap_or_else(|cut| cut.bytes);
    case_of(out, &text[..n])
}

fn main(rt: HostRuntime) -> io::Result<()> {
    arguments::each(&rt, |_, mut file| case_in(&mut file, &mut io::writer(&rt)))
}
