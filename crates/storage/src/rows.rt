// Rows of the table, and room for them.
ghost use Rattle.std.specs.Prelude.{◌≡◌, ◌&&◌, [], ◌∷◌, suc, ◌+◌, ◌*◌, ◌<◌, leb, ltb, set};
ghost use Rattle.std.proofs.lemmas.List.Edits.{sets};
ghost use Rattle.aut68.specs.Sizes.{line_limit, row_width};
ghost use Rattle.cells.specs.Cells.{Below};
ghost use Rattle.reader.specs.Posts.{number_of};

use constants::{LAST_LINE, ROW_WIDTH};
use copies::whole;
use reader::Line;

// How many cells table, term store and index have; and how many of the last two the lines before have filled.
#[derive(Clone, Copy)]
pub struct Room {
    pub table: usize,
    pub terms: usize,
    pub index: usize,
    pub used: usize,
    pub entries: usize,
}

// Is there room for one line more (room): fewer lines than LINE_LIMIT, its row in the table, its `size` cells in the term store, its
// entry with so many names in the index?
pub fn has_room(r: Room, lines: usize, size: usize, names: usize) -> bool
    ensures { result ≡ (ltb (suc lines) line_limit && leb (row_width * suc lines) r.table && leb (r.used + size) r.terms && leb (r.entries + suc names) r.index) }
{
    lines < LAST_LINE
        && ROW_WIDTH * (lines + 1) <= r.table
        && whole(r.used, size, r.terms)
        && names < r.index
        && whole(r.entries, names + 1, r.index)
}

// a + b, where it is below 2^32; a row has no larger number.
pub fn sum(a: usize, b: usize) -> usize
    ensures { a + b < 4294967296 → result ≡ a + b }
{
    a.saturating_add(b)
}

// Writes x in cell k of the row behind the first `lines` rows.
fn put_field(table: &mut [u32], lines: usize, k: usize, x: usize)
    requires { k < row_width }
    ensures { suc lines < line_limit → x < 4294967296 → table.new ≡ set table.old (row_width * lines + k) x }
{
    if lines >= LAST_LINE || x > u32::MAX as usize {
        return;
    }
    let at = ROW_WIDTH * lines + k;
    if at < table.len() {
        table[at] = x as u32;
    }
}

// Writes the row of a line behind the first `lines` rows (row_of): its identifier's first byte in the book, and the indices
// where its cells start, where those of its category do, and where they end.
pub fn put_row(
    table: &mut [u32],
    lines: usize,
    first: usize,
    l: Line,
    start: usize,
    category: usize,
    end: usize,
)
    ensures { suc lines < line_limit → Below 4294967296 (first ∷ l.len ∷ l.indicator ∷ l.context ∷ number_of l.kind ∷ start ∷ category ∷ end ∷ l.paragraph ∷ []) → table.new ≡ sets table.old (row_width * lines) (first ∷ l.len ∷ l.indicator ∷ l.context ∷ number_of l.kind ∷ start ∷ category ∷ end ∷ l.paragraph ∷ []) }
{
    put_field(table, lines, constants::NAME_START, first);
    put_field(table, lines, constants::NAME_LENGTH, l.len);
    put_field(table, lines, constants::INDICATOR, l.indicator);
    put_field(table, lines, constants::CONTEXT_LENGTH, l.context);
    put_field(table, lines, constants::KIND, l.kind.into());
    put_field(table, lines, constants::MIDDLE_START, start);
    put_field(table, lines, constants::CATEGORY_START, category);
    put_field(table, lines, constants::CATEGORY_END, end);
    put_field(table, lines, constants::PARAGRAPH, l.paragraph);
}
