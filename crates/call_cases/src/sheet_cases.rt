// A list of pairs of strings compared over a book.
use constants::Cell;
use outcomes::AnswerNumbers;
use pairs::Pair;
use reports::header::{Header, Question, Scanner};
use reports::report;
use reports::stores::{Kept, Stores};
use std::io;
use std::io::Write;

// The most cells that the pairs share, and the most pairs and places.
const CELLS: usize = 32;

const MOST: usize = 8;

// A place of the sheet before the call.
const BLANK: AnswerNumbers = AnswerNumbers {
    code: 7,
    line: 7,
    steps: 7,
    length: 7,
};

// The pair with the next five numbers.
fn pair_of(numbers: &mut Scanner<'_>) -> Pair {
    Pair {
        left: numbers.narrow(),
        left_length: numbers.narrow(),
        right: numbers.narrow(),
        right_length: numbers.narrow(),
        budget: numbers.narrow(),
    }
}

// A case of a list of pairs: the number of the cells that they share, these cells, five numbers for each of eight pairs, the book. The
// question gives the number of the pairs, and the header that of the places. It reports what the call ends with, what became of the stores,
// and all places of the sheet.
pub fn compare<W: Write>(
    out: &mut W,
    h: Header,
    q: Question,
    numbers: Scanner<'_>,
    stores: Stores<'_>,
) -> io::Result<()> {
    let mut numbers = numbers;
    let shared = numbers.length();
    let count = q.room;
    let room = h.last as usize;
    if shared > CELLS || count > MOST || room > MOST {
        return Ok(());
    }
    let mut cells: [Cell; CELLS] = [0; CELLS];
    numbers.fill(&mut cells[..shared]);
    let list = [(); MOST].map(|_| pair_of(&mut numbers));
    let book = numbers.rest;
    let mut sheet = [BLANK; MOST];
    let Stores {
        table,
        terms,
        work,
        index,
    } = stores;
    let a = sheets::compare_sheet(
        book,
        h.budget,
        h.limit,
        table,
        terms,
        work,
        index,
        &cells[..shared],
        &list[..count],
        &mut sheet[..room],
    );
    let kept = Kept {
        table,
        terms,
        work,
        index,
    };
    report::compared(out, AnswerNumbers::from(a), book, kept, h.limit)?;
    for place in sheet {
        report::place(out, place)?;
    }
    Ok(())
}
