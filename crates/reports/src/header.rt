// The header of a case: decimal numbers, each ended by one byte that is no digit. There are seven, and two more, a question, where the
// seventh is ended by a space.

// The numbers of a text, read from its front. last: the byte before those that are left.
#[derive(Clone, Copy)]
pub struct Scanner<'a> {
    pub rest: &'a [u8],
    last: Option<u8>,
}

impl<'a> Scanner<'a> {
    pub fn new(text: &'a [u8]) -> Scanner<'a> {
        Scanner {
            rest: text,
            last: None,
        }
    }

    // The next number: its first ten digits, leading zeros aside; 0 where no text is left.
    pub fn number(&mut self) -> u64 {
        let mut value = 0;
        while let Some((&b, rest)) = self.rest.split_first() {
            self.rest = rest;
            self.last = Some(b);
            if !b.is_ascii_digit() || value > 999_999_999 {
                break;
            }
            value = 10 * value + u64::from(b - b'0');
        }
        value
    }

    // The next number, if it is below 2^32; 2^32 - 1 for a larger one.
    pub fn narrow(&mut self) -> u32 {
        u32::try_from(self.number()).unwrap_or(u32::MAX)
    }

    // The next number as a length.
    pub fn length(&mut self) -> usize {
        self.number() as usize
    }

    // The next numbers, one for each cell.
    pub fn fill(&mut self, cells: &mut [u32]) {
        for cell in cells {
            *cell = self.narrow();
        }
    }

    fn is_behind_space(&self) -> bool {
        self.last == Some(b' ')
    }
}

// budget, limit: of the check. sizes: the cells of the stores. last: the seventh number, which each test program has for itself.
#[derive(Clone, Copy)]
pub struct Header {
    pub budget: u32,
    pub limit: u32,
    pub sizes: Sizes,
    pub last: u32,
    pub question: Option<Question>,
}

#[derive(Clone, Copy)]
pub struct Sizes {
    pub table: usize,
    pub terms: usize,
    pub work: usize,
    pub index: usize,
}

// It is asked what `line` rests on, with `room` cells for the answer.
#[derive(Clone, Copy)]
pub struct Question {
    pub line: u32,
    pub room: usize,
}

impl Header {
    pub fn read(numbers: &mut Scanner<'_>) -> Header {
        Header {
            budget: numbers.narrow(),
            limit: numbers.narrow(),
            sizes: Sizes {
                table: numbers.length(),
                terms: numbers.length(),
                work: numbers.length(),
                index: numbers.length(),
            },
            last: numbers.narrow(),
            question: Question::read(numbers),
        }
    }
}

impl Question {
    fn read(numbers: &mut Scanner<'_>) -> Option<Question> {
        if !numbers.is_behind_space() {
            return None;
        }
        Some(Question {
            line: numbers.narrow(),
            room: numbers.length(),
        })
    }
}
