// The calls for C and Rust: include/aut68.h declares them. Such callers prove nothing, so they require nothing.
#![tactic(auto)]

ghost use Rattle.std.specs.Prelude.{true, false};
ghost use Rattle.aut68.specs.Language.{aut68};
ghost use Rattle.aut68.specs.Stores.{stores};
ghost use Rattle.aut68.specs.Demands.{Checks};
ghost use Rattle.aut68.specs.Resting.{TellsRests};
ghost use Rattle.aut68.specs.Printing.{PrintsPages};
ghost use Rattle.aut68.specs.Desk.{ComparesStrings};
ghost use Rattle.aut68.specs.Sizes.{cell_values, narrow_values};
ghost use Rattle.aut68.specs.Widths.{Converts};
ghost use Rattle.names.specs.Known.{IdentifierPlaced};
ghost use Rattle.pairs.specs.Sheet.{ComparesSheet};

use constants::{Cell, NarrowCell};
use outcomes::{AnswerNumbers, Numbers};
use pairs::Pair;

// The published numbers of an outcome: code, line, steps.
#[repr(C)]
#[derive(Clone, Copy)]
pub struct Aut68Outcome {
    pub code: u32,
    pub line: u32,
    pub steps: u64,
}

// Checks a book under the budget N and the limit L, with the table, the term store, the working store and the index lent.
#[unsafe(no_mangle)]
pub extern "C" fn aut68_check(
    book: &[u8],
    budget: u32,
    limit: u32,
    table: &mut [u32],
    terms: &mut [Cell],
    work: &mut [Cell],
    index: &mut [u32],
) -> Aut68Outcome
    ensures { Checks aut68 book.now budget limit (stores table.old terms.old work.old index.old) result.code result.line result.steps (stores table.new terms.new work.new index.new) }
{
    let o = verifier::check_book(book, budget, limit, table, terms, work, index);
    let n = Numbers::from(o);
    Aut68Outcome {
        code: n.code,
        line: n.line,
        steps: u64::from(n.steps),
    }
}

// Tells what a line rests on: the `PN` lines reached from it, in the first cells of the answer.
#[unsafe(no_mangle)]
pub extern "C" fn aut68_rests_on(
    book: &[u8],
    budget: u32,
    limit: u32,
    table: &mut [u32],
    terms: &mut [Cell],
    work: &mut [Cell],
    index: &mut [u32],
    line: u32,
    answer: &mut [u32],
) -> AnswerNumbers
    ensures { TellsRests aut68 book.now budget limit (stores table.old terms.old work.old index.old) line answer.old result.code result.line result.steps result.length (stores table.new terms.new work.new index.new) answer.new }
{
    let a = verifier::rests_on(book, budget, limit, table, terms, work, index, line, answer);
    AnswerNumbers::from(a)
}

// Prints a book: its pages, in the first bytes of the page store.
#[unsafe(no_mangle)]
pub extern "C" fn aut68_pages(
    book: &[u8],
    budget: u32,
    limit: u32,
    table: &mut [u32],
    terms: &mut [Cell],
    work: &mut [Cell],
    index: &mut [u32],
    page: &mut [u8],
) -> AnswerNumbers
    ensures { PrintsPages aut68 book.now budget limit (stores table.old terms.old work.old index.old) page.old result.code result.line result.steps result.length (stores table.new terms.new work.new index.new) page.new }
{
    let a = verifier::print_pages(book, budget, limit, table, terms, work, index, page);
    AnswerNumbers::from(a)
}

// Compares two strings of cells over a book, with a budget of its own.
#[unsafe(no_mangle)]
pub extern "C" fn aut68_compare(
    book: &[u8],
    budget: u32,
    limit: u32,
    table: &mut [u32],
    terms: &mut [Cell],
    work: &mut [Cell],
    index: &mut [u32],
    left: &[Cell],
    right: &[Cell],
    own: u32,
) -> AnswerNumbers
    ensures { ComparesStrings false book.now budget limit (stores table.old terms.old work.old index.old) left.now right.now own result.code result.line result.steps result.length (stores table.new terms.new work.new index.new) }
{
    let a = verifier::compare_strings(
        book, budget, limit, table, terms, work, index, left, right, own,
    );
    AnswerNumbers::from(a)
}

// The same by the second comparison, parts first.
#[unsafe(no_mangle)]
pub extern "C" fn aut68_compare_parts_first(
    book: &[u8],
    budget: u32,
    limit: u32,
    table: &mut [u32],
    terms: &mut [Cell],
    work: &mut [Cell],
    index: &mut [u32],
    left: &[Cell],
    right: &[Cell],
    own: u32,
) -> AnswerNumbers
    ensures { ComparesStrings true book.now budget limit (stores table.old terms.old work.old index.old) left.now right.now own result.code result.line result.steps result.length (stores table.new terms.new work.new index.new) }
{
    let a = verifier::compare_strings_parts_first(
        book, budget, limit, table, terms, work, index, left, right, own,
    );
    AnswerNumbers::from(a)
}

// Compares a list of pairs of strings over a book, each on its own budget, into the places of the sheet.
#[unsafe(no_mangle)]
pub extern "C" fn aut68_compare_sheet(
    book: &[u8],
    budget: u32,
    limit: u32,
    table: &mut [u32],
    terms: &mut [Cell],
    work: &mut [Cell],
    index: &mut [u32],
    cells: &[Cell],
    pairs: &[Pair],
    sheet: &mut [AnswerNumbers],
) -> AnswerNumbers
    ensures { ComparesSheet book.now budget limit (stores table.old terms.old work.old index.old) cells.now pairs.now sheet.old result.code result.line result.steps result.length (stores table.new terms.new work.new index.new) sheet.new }
{
    let a = verifier::compare_sheet(
        book, budget, limit, table, terms, work, index, cells, pairs, sheet,
    );
    AnswerNumbers::from(a)
}

// Puts the cells of a shelf into cells of 32 bits, the first of the target.
#[unsafe(no_mangle)]
pub extern "C" fn aut68_widen(source: &[NarrowCell], target: &mut [Cell]) -> AnswerNumbers
    ensures { Converts cell_values source.now target.old result.code result.line result.steps result.length target.new }
{
    let a = verifier::widen(source, target);
    AnswerNumbers::from(a)
}

// Puts the cells of a shelf into cells of 16 bits, the first of the target.
#[unsafe(no_mangle)]
pub extern "C" fn aut68_narrow(source: &[Cell], target: &mut [NarrowCell]) -> AnswerNumbers
    ensures { Converts narrow_values source.now target.old result.code result.line result.steps result.length target.new }
{
    let a = verifier::narrow(source, target);
    AnswerNumbers::from(a)
}

// Where an identifier stands in the book: its first byte and its length; length 0 where there is none.
#[repr(C)]
#[derive(Clone, Copy)]
pub struct Aut68Part {
    pub start: u64,
    pub length: u64,
}

// The identifier of a line, as the part of the book that its row in the table points to.
#[unsafe(no_mangle)]
pub extern "C" fn aut68_identifier(book: &[u8], table: &[u32], line: u32) -> Aut68Part
    ensures { IdentifierPlaced book.now table.now line result.start result.length }
{
    let p = verifier::identifier_place(book, table, line);
    Aut68Part {
        start: p.start as u64,
        length: p.len as u64,
    }
}
