// The pieces of a book, one after the other: ordinary lines and paragraph lines.
ghost use Rattle.std.specs.Prelude.{◌≡◌, ◌≢◌, List, ℕ, ◌*◌, ◌≤◌, length, take};
ghost use Rattle.aut68.specs.Language.{aut68};
ghost use Rattle.aut68.specs.Sizes.{book_limit};
ghost use Rattle.aut68.specs.Stores.{stores, limits_of};
ghost use Rattle.aut68.specs.Bytes.{lines};
ghost use Rattle.aut68.specs.Procedure.Run.{nothing, check_lines};
ghost use Rattle.cells.specs.Layout.{reader_units};
ghost use Rattle.cells.specs.Links.{unlinked};
ghost use Rattle.constants.specs.Refusals.{code_in};
ghost use Rattle.headings.specs.Signs.{kind_of_sign};
ghost use Rattle.moves.specs.Posts.{MovedPost, open_in};
ghost use Rattle.checking.specs.Progress.{Fitting};
ghost use Rattle.books.specs.Loop.{LinesPost};

use cells::{READER_UNITS, line_at};
use checking::{Progress, check_line};
use constants::{Cell, Reason};
use copies::clear;
use headings::{Sign, line_end, sign_of};
use kinds::kinds_of_bytes;
use moves::{Open, none_open, paragraph_line};
use names::unlink;

// How the lines of a book end: all pass, or the reason why the next piece does not; so many lines passed, and the budget that is left.
#[derive(Clone, Copy, Debug, PartialEq, Eq)]
pub struct Ended {
    pub checked: Result<(), Reason>,
    pub lines: usize,
    pub budget: u32,
}

// The lines of a book end where the check has come to.
fn end_of(p: Progress, checked: Result<(), Reason>) -> Ended
    ensures { (result.checked ≡ checked) × (result.lines ≡ p.lines) × (result.budget ≡ p.budget) }
{
    Ended {
        checked,
        lines: p.lines,
        budget: p.budget,
    }
}

// The paragraph line from `at` up to `next` with this sign, behind the first `lines` lines (paragraph_line, on the units of name
// lookup).
fn check_signed(
    book: &[u8],
    kinds: &[u8; 256],
    table: &[u32],
    lines: usize,
    w: &mut [Cell],
    limit: usize,
    at: usize,
    next: usize,
    sign: Sign,
    o: Open,
) -> Result<Open, Reason>
    requires { (at ≤ next) × (next ≤ length book.now) × (length book.now ≤ book_limit) }
    ensures { reader_units * limit ≤ length w.old → MovedPost kinds.now book.now table.now lines (take (reader_units * limit) w.old) (take (reader_units * limit) w.new) at next (kind_of_sign sign) o (code_in result) (open_in o result) }
{
    if limit > w.len() / READER_UNITS {
        return Err(Reason::OutOfSpace);
    }
    let n = READER_UNITS * limit;
    paragraph_line(
        book,
        kinds,
        table,
        lines,
        &mut w[..n],
        at,
        next,
        sign.into(),
        o,
    )
}

// The end of the book, with so many paragraphs open.
#[tactic(auto, unfolding(aut68::specs::Procedure::Answer::code_of))]
fn at_end(depth: usize) -> Result<(), Reason>
    ensures { (depth ≡ 0 → code_in result ≡ 0) × (depth ≢ 0 → code_in result ≡ 17) }
{
    if depth == 0 {
        Ok(())
    } else {
        Err(Reason::Unbalanced)
    }
}

// The lines of the book, one after the other, up to the first that is refused (check_lines). The rows stay linked.
pub fn check_linked(
    book: &[u8],
    table: &mut [u32],
    terms: &mut [Cell],
    index: &mut [u32],
    w: &mut [Cell],
    limit: usize,
    budget: u32,
) -> Ended
    requires { Fitting book.now limit w.old }
    ensures { (work : List ℕ) → LinesPost (check_lines aut68 (limits_of budget limit (stores table.old terms.old work index.old)) nothing 0 budget (lines book.now)) budget table.old terms.old index.old (code_in result.checked) result.lines result.budget (unlinked result.lines table.new) terms.new index.new }
{
    let kinds = kinds_of_bytes();
    let hints = line_at(limit);
    clear(w, hints);
    let mut p = Progress {
        at: 0,
        lines: 0,
        used: 0,
        entries: 0,
        budget,
    };
    let mut o = none_open();
    while p.at < book.len() {
        let at = p.at;
        let next = line_end(book, at);
        if let Some(sign) = sign_of(&book[at..next], &kinds) {
            match check_signed(book, &kinds, table, p.lines, w, limit, at, next, sign, o) {
                Ok(more) => o = more,
                Err(reason) => return end_of(p, Err(reason)),
            }
            p.at = next;
        } else if let Err(reason) = check_line(
            book, &kinds, table, terms, index, w, limit, &mut p, next,
        ) {
            return end_of(p, Err(reason));
        }
    }
    end_of(p, at_end(o.depth))
}

// The lines of the book, one after the other, up to the first that is refused (check_lines).
pub fn check_lines(
    book: &[u8],
    table: &mut [u32],
    terms: &mut [Cell],
    index: &mut [u32],
    w: &mut [Cell],
    limit: usize,
    budget: u32,
) -> Ended
    requires { Fitting book.now limit w.old }
    ensures { (work : List ℕ) → LinesPost (check_lines aut68 (limits_of budget limit (stores table.old terms.old work index.old)) nothing 0 budget (lines book.now)) budget table.old terms.old index.old (code_in result.checked) result.lines result.budget table.new terms.new index.new }
{
    let e = check_linked(book, table, terms, index, w, limit, budget);
    unlink(table, e.lines);
    e
}
