// Arguments left out: the variables of a context, found along the chain of indicators.
ghost use Rattle.std.specs.Prelude.{◌+◌, ◌≤◌, length};
ghost use Rattle.completion.specs.Posts.{LineUp, LastLeftOut, VariableCell, VariablesPut, PutIn};

use cells::field;
use constants::{CELL_FACTOR, CONTEXT_LENGTH, Cell, INDICATOR, LINE_LIMIT};
use meanings::in_context;

// The line n indicators up from line c.
fn line_up(table: &[u32], c: usize, n: usize) -> usize
    ensures { LineUp table.now c n result }
{
    let mut up = c;
    for _i in 0..n {
        up = field(table, up, INDICATOR);
    }
    up
}

// The last variable that is left out where the constant of line v is written with `count` arguments, fewer than it takes (left_out);
// None: it is not in the context that ends with line `indicator`, which is noted in w, so they cannot be put in.
pub fn last_left_out(
    table: &[u32],
    w: &[Cell],
    indicator: usize,
    v: usize,
    count: usize,
) -> Option<usize>
    ensures { LastLeftOut table.now w.now indicator v count result }
{
    let own = field(table, v, INDICATOR);
    let last = line_up(table, own, count);
    if in_context(table, w, indicator, last) {
        Some(last)
    } else {
        None
    }
}

// The cell of the variable of line c.
fn variable_cell(c: usize) -> Cell
    ensures { VariableCell c result }
{
    if c >= LINE_LIMIT {
        return 0;
    }
    CELL_FACTOR * (c as Cell) + 1
}

// The n variables of the context that ends with line `last`, as cells from `from` on, the last first.
fn put_variables(table: &[u32], w: &mut [Cell], from: usize, n: usize, last: usize)
    requires { from + n ≤ length w.old }
    ensures { VariablesPut table.now w.old w.new from n last }
{
    let mut c = last;
    for i in (0..n).rev() {
        w[from + i] = variable_cell(c);
        c = field(table, c, INDICATOR);
    }
}

// Puts the variables of the context that ends with line `last` in front of the cells from `from` up to `end`, and gives the cell
// behind them; one past the store's end where it has no room for them.
// Kept: the walk over a line goes on with the cell that it is given, so an Option would be taken apart at each cell that it writes.
pub fn put_in(table: &[u32], w: &mut [Cell], from: usize, end: usize, last: usize) -> usize
    ensures { PutIn table.now w.old w.new from end last result }
{
    let n = field(table, last, CONTEXT_LENGTH) + 1;
    let len = w.len();
    if end > len || from > end {
        return len + 1;
    }
    if n > len - end {
        return len + 1;
    }
    w.copy_within(from..end, from + n);
    put_variables(table, w, from, n, last);
    end + n
}
