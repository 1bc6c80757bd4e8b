// Cells compared with an expression whose arguments are put in as it is read.
ghost use Rattle.terms.specs.Made.{InstancePost};
ghost use Rattle.matching.specs.Runs.{RunPost};

use cells::field;
use constants::{CELL_FACTOR, CONTEXT_LENGTH, Cell};
use copies::same_run;

// What stands for a cell of the expression.
#[derive(Clone, Copy)]
enum Run {
    Itself,

    // A run of the arguments' cells.
    Argument { start: usize, len: usize },

    // An argument of which it is not known how many cells it has.
    Unknown,
}

// What stands for the cell x, which is no abstraction's: for a context variable that has an argument, that one.
fn run_for(table: &[u32], x: Cell, count: usize, starts: &[Cell; 64]) -> Run
    ensures { RunPost table.now x count starts.now result }
{
    if x % CELL_FACTOR != 1 {
        return Run::Itself;
    }
    let i = field(table, (x / CELL_FACTOR) as usize, CONTEXT_LENGTH);
    if i >= count {
        return Run::Itself;
    }
    if i >= 63 {
        return Run::Unknown;
    }
    let start = starts[i] as usize;
    let next = starts[i + 1] as usize;
    if next <= start {
        return Run::Unknown;
    }
    let len = next - start;
    Run::Argument { start, len }
}

// Are the n cells of f from `at` on the expression in the cells from..stop of s, with the arguments put in? Yes only if they are;
// it is not looked at under bindings.
pub fn is_instance(
    table: &[u32],
    s: &[Cell],
    from: usize,
    stop: usize,
    w: &[Cell],
    base: usize,
    count: usize,
    starts: &[Cell; 64],
    f: &[Cell],
    at: usize,
    n: usize,
) -> bool
    ensures { InstancePost table.now s.now from stop w.now base count starts.now
        f.now at n result }
{
    if base > w.len() || at > f.len() || stop > s.len() {
        return false;
    }
    let mut j = at;
    for i in from..stop {
        let x = s[i];
        if x % CELL_FACTOR == 5 {
            return false;
        }
        match run_for(table, x, count, starts) {
            Run::Itself => {
                if j >= f.len() || f[j] != x {
                    return false;
                }
                j += 1;
            }
            Run::Argument { start, len } => {
                if !same_run(w, base + start, f, j, len) {
                    return false;
                }
                j += len;
            }
            Run::Unknown => return false,
        }
    }
    j - at == n
}
