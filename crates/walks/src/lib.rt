// Paragraphs found by a walk over a book: the slow way, for those that were not noted. specs/Walk says what a walk finds, specs/Posts
// what the functions leave.
#![tactic(auto)]

ghost use Rattle.std.specs.Prelude.{◌≡◌, ◌+◌, ◌^◌, ◌<◌};
ghost use Rattle.aut68.specs.Bytes.{same_bytes};
ghost use Rattle.kinds.specs.Kinds.{KindsTable};
ghost use Rattle.names.specs.Search.{Gives};
ghost use Rattle.walks.specs.Walk.{title_of};
ghost use Rattle.walks.specs.Posts.{StepPassed, Walked};

use constants::CELL_VALUES;
use headings::{Sign, line_end, sign_line, sign_of};
use symbols::same_bytes;

// Is the word the name of the paragraph that the line opens (title_of)?
fn titled(line: &[u8], kinds: &[u8; 256], word: &[u8]) -> bool
    ensures { KindsTable kinds.now → result ≡ same_bytes word.now (title_of line.now) }
{
    match sign_line(line, kinds, Sign::Opens.into()) {
        Some(name) => same_bytes(word, &line[name.start..name.start + name.len]),
        None => word.is_empty(),
    }
}

// Behind a line: the number of the paragraph sought, if the line opens it; else how many of the paragraphs opened on the way are open,
// and how many the book has.
#[derive(Clone, Copy)]
enum Step {
    Found(usize),
    Further { deep: usize, count: usize },
}

// One line further.
fn pass(line: &[u8], kinds: &[u8; 256], word: &[u8], deep: usize, count: usize) -> Step
    requires { (deep + 1 < 2 ^ 64) × (count + 1 < 2 ^ 64) }
    ensures { StepPassed kinds.now line.now word.now deep count result }
{
    match sign_of(line, kinds) {
        Some(Sign::Opens) => {
            if deep == 0 && titled(line, kinds, word) {
                return Step::Found(count + 1);
            }
            Step::Further {
                deep: deep + 1,
                count: count + 1,
            }
        }
        Some(Sign::Closes) => Step::Further {
            deep: deep.saturating_sub(1),
            count,
        },
        None => Step::Further { deep, count },
    }
}

// The number of the first paragraph with this name that is opened directly between the bytes `from` and `to` (child_from), q paragraphs
// having been opened before them.
pub fn walk(
    book: &[u8],
    kinds: &[u8; 256],
    from: usize,
    to: usize,
    q: usize,
    word: &[u8],
) -> Option<usize>
    ensures { Gives (Walked kinds.now book.now from to q word.now) result }
{
    if q >= CELL_VALUES {
        return None;
    }
    let mut at = from;
    let mut deep = 0;
    let mut count = q;
    while at < to {
        if at >= book.len() {
            return None;
        }
        let end = line_end(book, at);
        match pass(&book[at..end], kinds, word, deep, count) {
            Step::Found(number) => return Some(number),
            Step::Further {
                deep: open,
                count: opened,
            } => {
                deep = open;
                count = opened;
            }
        }
        at = end;
    }
    None
}
