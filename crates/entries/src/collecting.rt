// The lines that a line names, collected. Most names stand in a line more than once: slots, one for each remainder of a line's number,
// keep the last line that was collected there, and what a slot has is not collected again. The slots only save work.
ghost use Rattle.std.specs.Prelude.{◌≢◌, [], ◌∷◌, ◌+◌, ◌≤◌, ◌<◌, length};
ghost use Rattle.std.proofs.Math.Seq.{slice};
ghost use Rattle.aut68.specs.Sizes.{line_limit};
ghost use Rattle.aut68.specs.Index.{mentioned_as_indicator};
ghost use Rattle.cells.specs.Numbers.{numbers_in};
ghost use Rattle.entries.specs.Collected.{slot_count, no_line, Emptied, Adds};

use cells::names_line;
use constants::{CELL_FACTOR, Cell};

// How many slots there are.
const SLOTS: usize = 64;

// No line has this number.
// Kept: the slots are cells of the working store that the caller lends, so no line is a number, too.
const NO_LINE: Cell = Cell::MAX;

// Nothing is in the slots from `slots` on.
pub fn empty(w: &mut [Cell], slots: usize)
    requires { slots + slot_count ≤ length w.old }
    ensures { Emptied w.old w.new slots }
{
    w[slots..slots + SLOTS].fill(NO_LINE);
}

// Puts line v behind the n lines collected from `at` on, unless its slot has it; how many they are then.
fn add(w: &mut [Cell], at: usize, n: usize, v: Cell, slots: usize) -> usize
    requires { (at + n < slots) × (slots + slot_count ≤ length w.old) × (v ≢ no_line) }
    ensures { Adds w.old w.new at n slots (v ∷ []) result }
{
    let slot = slots + v as usize % SLOTS;
    if w[slot] == v {
        return n;
    }
    w[slot] = v;
    w[at + n] = v;
    n + 1
}

// Puts a line's indicator at `at`, unless it is 0; how many lines are collected then.
pub fn add_indicator(w: &mut [Cell], at: usize, indicator: usize, slots: usize) -> usize
    requires { (at < slots) × (slots + slot_count ≤ length w.old) × (indicator < line_limit) }
    ensures { Adds w.old w.new at 0 slots (mentioned_as_indicator indicator) result }
{
    if indicator == 0 {
        return 0;
    }
    add(w, at, 0, indicator as Cell, slots)
}

// Collects the lines that the `size` cells from `from` on name, behind the n from `at` on; how many they are then.
pub fn collect(w: &mut [Cell], from: usize, size: usize, at: usize, n: usize, slots: usize) -> usize
    requires { (at + n + size ≤ from) × (from + size ≤ slots) × (slots + slot_count ≤ length w.old) }
    ensures { Adds w.old w.new at n slots (numbers_in (slice from (from + size) w.old)) result }
{
    let mut count = n;
    for i in 0..size {
        let x = w[from + i];
        if names_line(x) {
            count = add(w, at, count, x / CELL_FACTOR, slots);
        }
    }
    count
}
