// The variables of a line's context.
ghost use Rattle.std.specs.Prelude.{◌≡◌, ◌<◌, ◌^◌, length};
ghost use Rattle.levels.specs.ContextPosts.{ContextOf, ContextVariable};

use cells::field;
use constants::{CELL_VALUES, CONTEXT_LENGTH, Cell, INDICATOR};

// The context of line v, of `count` variables: the lines of its first 64 variables, the outermost first.
pub fn context_of(table: &[u32], v: usize, count: usize, lines: &mut [Cell; 64])
    requires { length lines.old ≡ 64 }
    ensures { ContextOf table.now v count lines.new }
{
    let mut c = field(table, v, INDICATOR);
    for i in (0..count).rev() {
        let line = c;
        c = field(table, line, INDICATOR);
        if i < 64 && line < CELL_VALUES {
            lines[i] = line as Cell;
        }
    }
}

// The line of variable i of the context of line v, the outermost being 0.
pub fn context_variable(table: &[u32], v: usize, lines: &[Cell; 64], i: usize) -> usize
    requires { i < 2 ^ 32 }
    ensures { ContextVariable table.now v lines.now i result }
{
    if i < 64 {
        return lines[i] as usize;
    }
    let mut c = field(table, v, INDICATOR);
    let count = field(table, v, CONTEXT_LENGTH);
    for _ in i + 1..count {
        c = field(table, c, INDICATOR);
    }
    c
}
