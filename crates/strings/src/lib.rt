// Strings of cells that a caller brings: whole or not. specs/Posts has the contracts.
//
// One pass, with the number of expressions still to come. How many bindings stand around each of them is noted in the working store, the
// next one last, as far as that goes. A string may be of any length: for a bound variable that has no note there, the bindings are found by
// walking back from its cell.
#![tactic(auto)]

ghost use Rattle.std.specs.Prelude.{◌≡◌, ℕ, suc, ◌/◌, ◌≤◌, ◌<◌, ltb, length};
ghost use Rattle.aut68.specs.Sizes.{cell_factor, cell_values};
ghost use Rattle.strings.specs.Notes.{numbers, Noted, NotesParts, Filled};
ghost use Rattle.strings.specs.Posts.{SaysBound, SaysNoted, kind_in, SaysKind, SaysRight, SaysWhole};

use cells::{field, kids};
use constants::{CELL_FACTOR, Cell, KIND};

// The kind of a line whose middle is `EB`.
// Kept: a number, as the row in the table, which C callers read, has it.
const EB: usize = 0;

// Do more than n bindings stand around the cell at index i of s? Walking back, `have` counts the whole expressions between cell j and cell
// i: a cell with more parts than these encloses cell i, in its body if it is an abstraction and they are one.
fn is_bound(table: &[u32], s: &[Cell], i: usize, n: usize) -> bool
    requires { i ≤ length s.now }
    ensures { SaysBound table.now s.now i n result }
{
    let mut have = 0;
    let mut found = 0;
    for j in (0..i).rev() {
        let x = s[j];
        let parts = kids(table, x);
        if parts <= have {
            have = have - parts + 1;
        } else {
            if x % CELL_FACTOR == 5 {
                found += have;
            }
            have = 0;
        }
        if found > n {
            return true;
        }
    }
    false
}

// Do more than n bindings stand around the cell at index i of s, whose note is at index `at` of w, if w goes so far?
fn is_noted(table: &[u32], s: &[Cell], i: usize, n: usize, w: &[Cell], at: usize) -> bool
    requires { i ≤ length s.now }
    ensures { SaysNoted table.now s.now i n w.now at result }
{
    match w.get(at) {
        Some(&note) => n < note as usize,
        None => is_bound(table, s, i, n),
    }
}

// The kind of line v of so many lines, if there is such a line.
fn line_kind(table: &[u32], lines: usize, v: usize) -> Option<usize>
    ensures { SaysKind table.now lines v (kind_in result) }
{
    if v == 0 || v - 1 >= lines {
        return None;
    }
    Some(field(table, v, KIND))
}

// The number in a cell.
fn number_in(x: Cell) -> usize
    ensures { (result ≡ x / cell_factor) × (result < numbers) }
{
    (x / CELL_FACTOR) as usize
}

// Is the cell at index i of s right where it stands? The note of its bindings is at index `at` of w.
fn is_right(table: &[u32], lines: usize, s: &[Cell], i: usize, w: &[Cell], at: usize) -> bool
    requires { i < length s.now }
    ensures { SaysRight table.now lines s.now i w.now at result }
{
    let x = s[i];
    let v = number_in(x);
    match x % CELL_FACTOR {
        1 => line_kind(table, lines, v) == Some(EB),
        2 => is_noted(table, s, i, v, w, at),
        3 => line_kind(table, lines, v).is_some_and(|kind| kind != EB),
        4 | 5 => v == 0,
        _ => false,
    }
}

// x in the cells of w from index `from` on, below `to`.
fn fill(w: &mut [Cell], from: usize, to: usize, x: Cell)
    ensures { Filled w.old from to x w.new }
{
    let end = to.min(w.len());
    if from < end {
        w[from..end].fill(x);
    }
}

// One binding more; as it is where there are more than any bound variable counts.
fn one_more(k: Cell) -> Cell
    ensures { (n : ℕ) → Noted k n → Noted result (suc n) }
{
    k.saturating_add(1)
}

// The notes behind a cell that has so many parts and the last note, at index `at` of w: that of its last part stands there now, and those
// of the parts before it behind.
fn note_parts(w: &mut [Cell], at: usize, parts: usize, binds: bool)
    requires { parts < cell_values }
    ensures { NotesParts w.old at parts binds w.new }
{
    let Some(&k) = w.get(at) else {
        return;
    };
    fill(w, at, at + parts, k);
    if binds {
        w[at] = one_more(k);
    }
}

// Is s one whole expression over these lines, or `type` alone? What w holds afterwards is left to the program.
pub fn is_whole(table: &[u32], lines: usize, s: &[Cell], w: &mut [Cell]) -> bool
    ensures { SaysWhole table.now lines s.now result }
{
    if s.len() == 1 && s[0] == 0 {
        return true;
    }
    fill(w, 0, 1, 0);
    let mut i = 0;
    let mut pending = 1;
    while pending > 0 {
        if pending > s.len() - i {
            return false;
        }
        let at = pending - 1;
        if !is_right(table, lines, s, i, w, at) {
            return false;
        }
        let x = s[i];
        let parts = kids(table, x);
        note_parts(w, at, parts, x % CELL_FACTOR == 5);
        pending = at + parts;
        i += 1;
    }
    s.len() - i == 0
}
