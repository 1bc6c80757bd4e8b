// Printed pages: how many rows a book has, and their bytes. aut68's Pages has the layout, specs/Posts the contracts.
#![tactic(auto)]

ghost use Rattle.std.specs.Prelude.{◌≡◌, ◌*◌, ◌≤◌, ◌<◌, length, position};
ghost use Rattle.aut68.specs.Sizes.{number_columns, page_row};
ghost use Rattle.aut68.specs.Procedure.Run.{over};
ghost use Rattle.aut68.specs.Pages.{text_of, digit, numbered, row_count, text_rows, begins_signed, pages};
ghost use Rattle.page_rows.specs.Posts.{text_byte, TextPut, RowPut};

use constants::{NUMBER_COLUMNS, PAGE_ROW, TEXT_COLUMNS};
use headings::line_end;

// Columns 7 to 72 of a row begin here.
const TEXT_START: usize = NUMBER_COLUMNS + 1;

// Is it printed? Spaces and the end of a line are not.
fn is_text(b: u8) -> bool
    ensures { result ≡ text_byte b }
{
    b != b' ' && b != b'\n'
}

// How many bytes of a line are printed.
fn text_length(line: &[u8]) -> usize
    ensures { (result ≡ length (text_of line.now)) × (result ≤ length line.now) }
{
    let mut n = 0;
    for &b in line {
        if is_text(b) {
            n += 1;
        }
    }
    n
}

// How many rows a line has.
fn rows_of(line: &[u8]) -> usize
    ensures { (result ≡ row_count (text_of line.now)) × (result ≤ length line.now) }
{
    text_length(line).div_ceil(TEXT_COLUMNS)
}

// How many rows a book has.
pub fn count_rows(book: &[u8]) -> usize
    ensures { (page_row * result ≡ length (pages book.now)) × (result ≤ length book.now) }
{
    let mut rows = 0;
    let mut at = 0;
    while at < book.len() {
        let end = line_end(book, at);
        rows += rows_of(&book[at..end]);
        at = end;
    }
    rows
}

// The byte of n in the column of `unit`: a digit, or a blank ahead of the first.
fn digit_of(unit: usize, n: usize) -> u8
    requires { 0 < unit }
    ensures { result ≡ digit unit n }
{
    if n < unit {
        return b' ';
    }
    let d = n / unit % 10;
    b'0' + d as u8
}

// The number in its columns; blanks, if it is 0.
// Kept: 0 for no number, since numbered, which the contracts cite, says it so.
fn put_number(n: usize, part: &mut [u8])
    requires { length part.old ≡ number_columns }
    ensures { part.new ≡ numbered n }
{
    part[0] = digit_of(10000, n);
    part[1] = digit_of(1000, n);
    part[2] = digit_of(100, n);
    part[3] = digit_of(10, n);
    part[4] = digit_of(1, n);
}

// Where the first printed byte of a line is, if it has one.
fn first_text(line: &[u8]) -> Option<usize>
    ensures { result ≡ position text_byte line.now }
{
    line.iter().position(|b| is_text(*b))
}

// The printed bytes of a line, from index `at` on, at the front of the part, until it is full. The answer: where to go on.
fn put_text(line: &[u8], at: usize, part: &mut [u8]) -> usize
    requires { at ≤ length line.now }
    ensures { TextPut line.now at part.old result part.new }
{
    let mut n = 0;
    for i in at..line.len() {
        let b = line[i];
        if is_text(b) {
            if n == part.len() {
                return i;
            }
            part[n] = b;
            n += 1;
        }
    }
    line.len()
}

// A row of a line, whose printed bytes from index `at` on it takes, with this number. The answer: where the next row goes on.
fn put_row(line: &[u8], at: usize, n: usize, part: &mut [u8]) -> usize
    requires { (at ≤ length line.now) × (length part.old ≡ page_row) }
    ensures { RowPut line.now at n result part.new }
{
    let end = TEXT_START + TEXT_COLUMNS;
    put_number(n, &mut part[..NUMBER_COLUMNS]);
    part[NUMBER_COLUMNS..end].fill(b' ');
    part[end] = b'\n';
    put_text(line, at, &mut part[TEXT_START..end])
}

// The rows of a line, with its number on the first, at the front of the page. The answer: how many bytes they have.
fn put_line(line: &[u8], number: usize, page: &mut [u8]) -> usize
    requires { length (text_rows (numbered number) (text_of line.now)) ≤ length page.old }
    ensures { (result ≡ length (text_rows (numbered number) (text_of line.now))) × (page.new ≡ over (text_rows (numbered number) (text_of line.now)) page.old) }
{
    let mut at = first_text(line).unwrap_or(line.len());
    let mut n = number;
    let mut to = 0;
    while at < line.len() {
        let end = to + PAGE_ROW;
        at = put_row(line, at, n, &mut page[to..end]);
        n = 0;
        to = end;
    }
    to
}

// Does the text of a line begin with `+` or `-`, as that of a paragraph line does (begins_signed)?
fn is_signed(line: &[u8]) -> bool
    ensures { result ≡ begins_signed (text_of line.now) }
{
    match first_text(line) {
        Some(i) => line[i] == b'+' || line[i] == b'-',
        None => false,
    }
}

// The pages of a book, at the front of a store that has room for them.
pub fn put_pages(book: &[u8], page: &mut [u8])
    requires { length (pages book.now) ≤ length page.old }
    ensures { page.new ≡ over (pages book.now) page.old }
{
    let mut at = 0;
    let mut n = 1;
    let mut to = 0;
    while at < book.len() {
        let end = line_end(book, at);
        // A paragraph line has no number, and is not counted.
        let mut number = n;
        if is_signed(&book[at..end]) {
            number = 0;
        } else {
            n += 1;
        }
        to += put_line(&book[at..end], number, &mut page[to..]);
        at = end;
    }
}
