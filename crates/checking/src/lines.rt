// An ordinary line of a book: read, stored, checked, recorded.
ghost use Rattle.std.specs.Prelude.{◌≡◌, ◌≢◌, [], ◌∷◌, ◌+◌, ◌≤◌, length};
ghost use Rattle.constants.specs.Refusals.{code_in};
ghost use Rattle.reader.specs.Posts.{number_of};
ghost use Rattle.checking.specs.Progress.{StoredPost, NotedLine, LinePost};

use categories::check_cells;
use cells::{READER_UNITS, field, line_at, names_at};
use constants::{Cell, LAST_LINE, PARAGRAPH, Reason};
use copies::exchange;
use entries::{line_names, put_entry};
use names::{hash, identifier, link, put_head};
use reader::{Line, read_line};
use storage::{Room, has_room, put_row, sum};

// Where the check of a book is. at: the next byte. lines, used, entries: the rows, the term cells and the index cells of the lines that
// passed. budget: what is left of it.
#[derive(Clone, Copy, Debug, PartialEq, Eq)]
pub struct Progress {
    pub at: usize,
    pub lines: usize,
    pub used: usize,
    pub entries: usize,
    pub budget: u32,
}

// A line that was read and has room (check_written, check_middle). Its cells are exchanged with the next free term cells; they
// stay there if its categories pass, and its row is written. If not, they are exchanged back.
fn check_stored(
    table: &mut [u32],
    terms: &mut [Cell],
    w: &mut [Cell],
    limit: usize,
    lines: usize,
    used: usize,
    first: usize,
    l: Line,
    budget: &mut u32,
) -> Result<(), Reason>
    requires { used + l.size ≤ length terms.old }
    ensures { StoredPost limit lines used l.middle l.size (first ∷ l.len ∷ l.indicator ∷ l.context ∷ number_of l.kind ∷ used ∷ (used + l.middle) ∷ (used + l.size) ∷ l.paragraph ∷ []) budget.old table.old terms.old w.old table.new terms.new w.new (code_in result) budget.new }
{
    let size = l.size;
    let to = line_at(limit);
    exchange(terms, used, w, to, size);
    let stop = used + size;
    let category = sum(used, l.middle);
    if let Err(reason) = check_cells(table, &terms[..stop], used, category, w, limit, budget) {
        exchange(terms, used, w, to, l.size);
        return Err(reason);
    }
    put_row(table, lines, first, l, used, category, stop);
    Ok(())
}

// Notes the line whose row was written behind the first `lines` rows for name lookup.
fn note_line(book: &[u8], table: &mut [u32], lines: usize, w: &mut [Cell], limit: usize)
    ensures { NotedLine book.now table.old table.new lines limit w.old w.new }
{
    if lines >= LAST_LINE {
        return;
    }
    if limit > w.len() / READER_UNITS {
        return;
    }
    let n = READER_UNITS * limit;
    let v = lines + 1;
    let q = field(table, v, PARAGRAPH);
    let word = identifier(book, table, v as u32);
    let before = put_head(&mut w[..n], hash(word), q, v);
    link(table, lines, before);
}

// The ordinary line from p.at up to `next` (check_line), behind the first p.lines lines. Passed: its row, its cells and its entry are written, and
// every other cell of table, terms and index is as it was. Refused: table, terms and index are as they were, and of p only the budget
// changes. The rows are linked.
pub fn check_line(
    book: &[u8],
    kinds: &[u8; 256],
    table: &mut [u32],
    terms: &mut [Cell],
    index: &mut [u32],
    w: &mut [Cell],
    limit: usize,
    p: &mut Progress,
    next: usize,
) -> Result<(), Reason>
    requires { (p.old.at ≤ next) × (next ≤ length book.now) }
    ensures kept { code_in result ≢ 0 → (p.new.at ≡ p.old.at) × (p.new.lines ≡ p.old.lines) × (p.new.used ≡ p.old.used) × (p.new.entries ≡ p.old.entries) }
    ensures line { LinePost book.now kinds.now limit p.old.at next p.old.lines p.old.used p.old.entries p.old.budget table.old terms.old index.old w.old (code_in result) p.new.at p.new.lines p.new.used p.new.entries p.new.budget table.new terms.new index.new w.new }
{
    let Progress {
        at,
        lines,
        used,
        entries,
        ..
    } = *p;
    let l = read_line(&book[at..next], kinds, book, table, lines, w, limit)?;
    let names = line_names(w, limit, l.size, l.indicator);
    let room = Room {
        table: table.len(),
        terms: terms.len(),
        index: index.len(),
        used,
        entries,
    };
    if !has_room(room, lines, l.size, names) {
        return Err(Reason::OutOfSpace);
    }
    let first = sum(at, l.first);
    check_stored(table, terms, w, limit, lines, used, first, l, &mut p.budget)?;
    put_entry(index, entries, w, names_at(limit), names);
    note_line(book, table, lines, w, limit);
    p.at = next;
    p.lines = lines + 1;
    p.used = used + l.size;
    p.entries = entries + names + 1;
    Ok(())
}
