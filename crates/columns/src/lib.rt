// The rows of a listing: numbers right-justified in columns of six places, the steps in twice as many.
#![tactic(auto)]

use cells::field;
use constants::{CATEGORY_START, CONTEXT_LENGTH, KIND, MIDDLE_START};
use outcomes::Numbers;
use std::fmt;

// The bytes of a row with its end.
pub const ROW: usize = 25;

// The numbers of a row, each laid out as the placeholder of them all says: its options are set once a row.
#[derive(Clone, Copy)]
struct Columns([usize; 4]);

impl fmt::Display for Columns {
    fn fmt<W: fmt::Write>(&self, f: &mut fmt::Formatter<W>) -> fmt::Result {
        for number in &self.0 {
            fmt::Display::fmt(number, f)?;
        }
        Ok(())
    }
}

// The row of a recorded line: line, kind, context length, cells of the middle.
#[derive(Clone, Copy)]
pub struct LineRow {
    line: usize,
    kind: usize,
    context: usize,
    middle: usize,
}

impl LineRow {
    // The row of this line of the table.
    pub fn of(table: &[u32], line: usize) -> LineRow {
        let start = field(table, line, MIDDLE_START);
        let end = field(table, line, CATEGORY_START);
        LineRow {
            line,
            kind: field(table, line, KIND),
            context: field(table, line, CONTEXT_LENGTH),
            middle: end.saturating_sub(start),
        }
    }
}

impl fmt::Display for LineRow {
    fn fmt<W: fmt::Write>(&self, f: &mut fmt::Formatter<W>) -> fmt::Result {
        let numbers = [self.line, self.kind, self.context, self.middle];
        write!(f, "{:>6}", Columns(numbers))
    }
}

// The last row: code, line, steps.
#[derive(Clone, Copy)]
pub struct OutcomeRow(pub Numbers);

impl fmt::Display for OutcomeRow {
    fn fmt<W: fmt::Write>(&self, f: &mut fmt::Formatter<W>) -> fmt::Result {
        let Numbers { code, line, steps } = self.0;
        write!(f, "{code:>6}{line:>6}{steps:>12}")
    }
}
