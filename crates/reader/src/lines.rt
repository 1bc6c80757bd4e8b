// A whole line: form, indicator, identifier, names, sizes, in that order of refusals.
ghost use Rattle.std.specs.Prelude.{◌≡◌, ◌+◌, ◌*◌, ◌≤◌, ◌<◌, length, IfSome};
ghost use Rattle.aut68.specs.Sizes.{line_limit, at_context};
ghost use Rattle.aut68.specs.Lines.{row_cell};
ghost use Rattle.aut68.specs.Paragraphs.{State};
ghost use Rattle.aut68.specs.Procedure.Resolve.{indicator_line};
ghost use Rattle.cells.specs.Layout.{reader_units};
ghost use Rattle.headings.specs.ReadLine.{indicator_in, IndicatorInside};
ghost use Rattle.kinds.specs.Kinds.{KindsTable};
ghost use Rattle.names.specs.Known.{Known};
ghost use Rattle.notes.specs.Note.{StateNoted};
ghost use Rattle.reader.specs.Posts.{place_in, IndicatorFound, LineReadInto, LineReadTo};

use crate::body::{LineKind, body, middle_kind};
use cells::{LINE_UNIT, READER_UNITS, field};
use constants::{CONTEXT_LENGTH, Cell, KIND, LINE_LIMIT, Reason};
use expressions::{title, word};
use headings::heading;
use meanings::{Lookup, note_context};
use paragraphs::{current, find_used, is_taken};
use symbols::UsedName;

// The indicator's line (indicator_line): 0 if empty; None where it is no EB line.
fn indicator_line(
    line: &[u8],
    kinds: &[u8; 256],
    book: &[u8],
    table: &[u32],
    lines: usize,
    w: &[Cell],
    indicator: Option<UsedName>,
) -> Option<usize>
    requires { IndicatorInside line.now indicator }
    ensures small { IfSome result (λ v. v < line_limit) }
    ensures found { (st : State) → KindsTable kinds.now → Known st.earlier book.now table.now lines → StateNoted st book.now table.now lines w.now
        → IndicatorFound lines (place_in result) (indicator_line st (indicator_in line.now indicator) tt) }
{
    let Some(u) = indicator else {
        return Some(0);
    };
    let v = find_used(
        book,
        kinds,
        table,
        lines,
        w,
        title(line, u),
        word(line, u.name),
    )?;
    if v >= LINE_LIMIT {
        return None;
    }
    if field(table, v, KIND) != 0 {
        return None;
    }
    Some(v)
}

// A line that was read. first, len: its identifier in the line. indicator: its indicator's line (0 if empty). context: its context
// length. middle: cells of the middle. size: cells of middle and category. paragraph: the number of its paragraph.
#[derive(Clone, Copy)]
pub struct Line {
    pub first: usize,
    pub len: usize,
    pub indicator: usize,
    pub context: usize,
    pub kind: LineKind,
    pub middle: usize,
    pub size: usize,
    pub paragraph: usize,
}

// The line: form, indicator, identifier, names, sizes, in that order of refusals (read_line). Of the units of w, the last two
// get the cells of middle and category, the one before them the line's context; what is noted of the state lies below.
fn read_into(
    line: &[u8],
    kinds: &[u8; 256],
    book: &[u8],
    table: &[u32],
    lines: usize,
    w: &mut [Cell],
    limit: usize,
) -> Result<Line, Reason>
    requires { length w.old ≡ reader_units * limit }
    ensures { LineReadInto kinds.now line.now book.now table.now lines limit w.old w.new result }
{
    let to = LINE_UNIT * limit;
    let Some(h) = heading(line, kinds) else {
        return Err(Reason::Malformed);
    };
    let found = indicator_line(line, kinds, book, table, lines, w, h.indicator);
    let indicator = found.unwrap_or(0);
    note_context(table, w, indicator);
    let kind = middle_kind(line, kinds, h.at);
    let around = Lookup {
        book,
        kinds,
        table,
        lines,
        indicator,
    };
    let b = body(line, &around, w, h.at, to, kind)?;
    if found.is_none() {
        return Err(Reason::UnknownName);
    }
    if is_taken(book, kinds, table, lines, w, word(line, h.identifier)) {
        return Err(Reason::Duplicate);
    }
    if let Some(reason) = b.fault {
        return Err(reason);
    }
    let middle = b.middle - to;
    let size = b.category - to;
    if middle > limit || size - middle > limit {
        return Err(Reason::TooLarge);
    }
    Ok(Line {
        first: h.identifier.start,
        len: h.identifier.len,
        indicator,
        context: context_length(table, indicator),
        kind,
        middle,
        size,
        paragraph: current(w),
    })
}

// The line, with the cells of middle and category from LINE_UNIT of w on, its context in the unit before, and what is noted of
// the state below. Writes these three units alone; where w does not have them, nothing, and the line is too large.
pub fn read_line(
    line: &[u8],
    kinds: &[u8; 256],
    book: &[u8],
    table: &[u32],
    lines: usize,
    w: &mut [Cell],
    limit: usize,
) -> Result<Line, Reason>
    ensures { LineReadTo kinds.now line.now book.now table.now lines limit w.old w.new result }
{
    if limit > w.len() / READER_UNITS {
        return Err(Reason::TooLarge);
    }
    let n = READER_UNITS * limit;
    read_into(line, kinds, book, table, lines, &mut w[..n], limit)
}

// The length of the context that ends with line v; 0 where v is 0.
fn context_length(table: &[u32], v: usize) -> usize
    ensures { (v ≡ 0 → result ≡ 0) × (1 ≤ v → result ≡ row_cell table.now v at_context + 1) }
{
    if v == 0 {
        return 0;
    }
    field(table, v, CONTEXT_LENGTH) + 1
}
