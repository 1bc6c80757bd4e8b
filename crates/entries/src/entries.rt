// An entry of the index.
ghost use Rattle.entries.specs.Posts.{NamesPost, EntryPost};

use crate::collecting::{add_indicator, collect, empty};
use cells::{level_at, line_at, names_at};
use constants::{Cell, LARGEST_LIMIT, LINE_LIMIT, SMALLEST_LIMIT, WORK_UNITS};
use sorting::sort;

// The lines that a line names (names_of), from its indicator and the `size` cells in its units of w, ascending, each once, ahead of these
// units; how many they are. Where w does not have the units, or a number is too large for them, nothing is written.
// Kept: 0 for no units, since the caller has seen to them, and takes the number with no test.
pub fn line_names(w: &mut [Cell], limit: usize, size: usize, indicator: usize) -> usize
    ensures { NamesPost limit size indicator w.old w.new result }
{
    if limit < SMALLEST_LIMIT || limit > LARGEST_LIMIT {
        return 0;
    }
    if w.len() < WORK_UNITS * limit || size > 2 * limit || indicator >= LINE_LIMIT {
        return 0;
    }
    let at = names_at(limit);
    let from = line_at(limit);
    let spare = level_at(limit, 0);
    empty(w, spare);
    let n = add_indicator(w, at, indicator, spare);
    let count = collect(w, from, size, at, n, spare);
    sort(w, at, count, spare)
}

// Writes an entry behind the first `used` cells of the index (entry_of): n, and the n cells of w from `at` on.
pub fn put_entry(index: &mut [u32], used: usize, w: &[Cell], at: usize, n: usize)
    ensures { EntryPost index.old used w.now at n index.new }
{
    if used >= index.len() || n >= index.len() - used || at > w.len() || n > w.len() - at {
        return;
    }
    let Ok(count) = u32::try_from(n) else {
        return;
    };
    index[used] = count;
    let first = used + 1;
    index[first..first + n].copy_from_slice(&w[at..at + n]);
}
