// AUT-68 books: the public library. `check_book` checks a book; aut68's Demands has what it promises (`Checks`), crate `outcomes`
// the code, line and steps of each outcome. `rests_on` (crate `resting`) tells what a line rests on, `print_pages` (crate `printing`)
// prints a book; aut68's Resting and Printing have what they promise (`TellsRests`, `PrintsPages`). `compare_strings` and
// `compare_strings_parts_first` (crate `desk`) compare two strings of cells over a book; aut68's Desk has what they promise
// (`ComparesStrings`). `compare_sheet` (crate `sheets`) compares a list of pairs of strings; specs/Sheet of `pairs` has what it promises
// (`ComparesSheet`). `widen` and `narrow` (crate `widths`) put a shelf into cells of another width; aut68's Widths has what they promise
// (`Converts`). `identifier` fetches a recorded line's identifier as the part of the book.
#![tactic(auto)]

mod book;

pub use book::check_book;
pub use constants::{Cause, Reason, UnknownCode};
pub use desk::{compare_strings, compare_strings_parts_first};
pub use names::{Part, identifier, identifier_place};
pub use outcomes::{Accepted, Answer, AnswerNumbers, Given, Numbers, Outcome, Refused, Unanswered};
pub use pairs::Pair;
pub use printing::print_pages;
pub use resting::rests_on;
pub use sheets::compare_sheet;
pub use widths::{narrow, widen};
