// Where the lines of a book end.
ghost use Rattle.headings.specs.Posts.{LineEnd};

// How many bytes are looked at at once.
const STRIDE: usize = 32;

// The end of the line, looked for byte by byte from `at` on.
fn byte_end(book: &[u8], at: usize) -> usize
    ensures { LineEnd book.now at result }
{
    for i in at..book.len() {
        if book[i] == b'\n' {
            return i + 1;
        }
    }
    book.len()
}

// The end of the line that starts at `at`: behind its byte 10, or the book's end. STRIDE bytes at once are passed that do not end it.
pub fn line_end(book: &[u8], at: usize) -> usize
    ensures { LineEnd book.now at result }
{
    let mut i = at;
    while i < book.len() {
        if book.len() - i < STRIDE || book[i..i + STRIDE].contains(&b'\n') {
            return byte_end(book, i);
        }
        i += STRIDE;
    }
    i
}
