// What the programs share: how large a book they take, the stores they lend, how they read a book and write an answer, how they count their
// arguments, and how they tell an error.
#![tactic(auto)]

ghost use Rattle.std.specs.Prelude.{◌≡◌, ◌<◌, ◌≤◌, length, take, IfOk, IsOk, OnOk};
ghost use Rattle.std.specs.Io.KnownBytes.{Appends, Consumes, IsAtEnd, Keeps};
ghost use Rattle.programs.specs.Reads.{bytes_read};

use std::env::FillError;
use std::io::{Cursor, Read, Write};
use std::rt::Env;
use std::{io, str};

// The most bytes and lines of a book, the cells of its term store and of its index, the budget, the limit.
pub const BYTES: usize = 65536;

pub const LINES: usize = 1820;

pub const TERMS: usize = 16384;

pub const INDEX: usize = 16384;

pub const BUDGET: u32 = 100000;

pub const LIMIT: usize = 128;

// Writes the first n bytes of out; nothing where it has fewer. After an error, which is the writer's, some of them may have been written.
pub fn write_first<W: Write>(to: &mut W, out: &[u8], n: usize) -> io::Result<()>
    ensures all { n ≤ length out.now → OnOk result (Appends (W.contents to.old) (W.contents to.new) (take n out.now)) }
    ensures none { length out.now < n → IsOk result × Keeps (W.contents to.old) (W.contents to.new) }
{
    match out.get(..n) {
        Some(first) => to.write_all(first),
        None => Ok(()),
    }
}

// A read failed behind so many bytes, and why.
#[derive(Clone, Copy)]
pub struct Cut {
    pub bytes: usize,
    pub error: io::Error,
}

// Reads until book is full or the input ends. The answer: how many bytes that is.
pub fn read_book<R: Read>(from: &mut R, book: &mut [u8]) -> Result<usize, Cut>
    ensures count { bytes_read result ≤ length book.new }
    ensures bytes { Consumes (R.remaining from.old) (R.remaining from.new) (take (bytes_read result) book.new) }
    ensures end { IfOk result (λ n. n < length book.new → IsAtEnd (R.remaining from.new)) }
{
    let mut n = 0;
    while n < book.len() {
        match from.read(&mut book[n..]) {
            Ok(0) => return Ok(n),
            Ok(more) => n += more,
            Err(error) => return Err(Cut { bytes: n, error }),
        }
    }
    Ok(n)
}

// How many arguments there are, the program's name among them.
pub fn argument_count<E: Env>(rt: &E) -> usize {
    (0..usize::MAX)
        .find(|&i| matches!(rt.arg(i, &mut []), Err(FillError::NotPresent)))
        .unwrap_or(usize::MAX)
}

// Where the system's number of an error begins in its text.
const NUMBER: &str = " (os error ";

// The most bytes of an error's text.
const REASON: usize = 128;

// Writes a line to standard error: what failed, as the caller names it, a colon and the error's text, without the system's number of it.
pub fn fail<E: Eprint>(rt: &E, what: &str, error: io::Error) -> io::Result<()> {
    let mut text = [0u8; REASON];
    let mut to = Cursor::new(&mut text[..]);
    let _ = write!(to, "{error}");
    let n = to.position() as usize;
    let whole = text
        .get(..n)
        .and_then(|t| str::from_utf8(t).ok())
        .unwrap_or("");
    let reason = whole.split_once(NUMBER).map_or(whole, |(reason, _)| reason);
    eprintln!(rt; "{what}: {reason}")
}
