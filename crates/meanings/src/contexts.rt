// Contexts: which earlier lines are variables of the line that is read. specs/NotedContext says what is noted of them.
ghost use Rattle.meanings.specs.Posts.{OnChain, InContext, VariablePut, ContextPost};

use cells::{CONTEXT_UNIT, READER_UNITS, field};
use constants::{CELL_VALUES, CONTEXT_LENGTH, Cell, INDICATOR};

// How many variables are noted.
const NOTED_VARIABLES: usize = 64;

// Notes line c as variable i of the context, if there is a cell for it.
fn put_variable(w: &mut [Cell], i: usize, c: usize)
    ensures { VariablePut w.old w.new i c }
{
    let unit = w.len() / READER_UNITS;
    if c < CELL_VALUES && i < unit {
        w[CONTEXT_UNIT * unit + i] = c as Cell;
    }
}

// Notes the context that ends with line `last`, its last variables: so a line costs no more in a long context. Each variable's
// number is the length of its own line's context.
pub fn note_context(table: &[u32], w: &mut [Cell], last: usize)
    ensures { ContextPost table.now w.old w.new last }
{
    let end = field(table, last, CONTEXT_LENGTH);
    let mut c = last;
    while c > 0 {
        let next = field(table, c, INDICATOR);
        if next >= c {
            return;
        }
        let i = field(table, c, CONTEXT_LENGTH);
        if i + NOTED_VARIABLES <= end {
            return;
        }
        put_variable(w, i, c);
        c = next;
    }
}

// Is line v in the context that ends with line `last` (member, context_at)? An indicator stands before its line, so the
// chain falls.
fn on_chain(table: &[u32], last: usize, v: usize) -> bool
    ensures { OnChain table.now last v result }
{
    let mut c = last;
    while c > v {
        let next = field(table, c, INDICATOR);
        if next >= c {
            return false;
        }
        c = next;
    }
    c == v
}

// The same by what is noted of that context in w; along the chain for a variable that is not noted.
pub fn in_context(table: &[u32], w: &[Cell], last: usize, v: usize) -> bool
    ensures { InContext table.now w.now last v result }
{
    if last == 0 {
        return false;
    }
    let i = field(table, v, CONTEXT_LENGTH);
    let most = field(table, last, CONTEXT_LENGTH);
    if i > most {
        return false;
    }
    let unit = w.len() / READER_UNITS;
    if i + NOTED_VARIABLES <= most || i >= unit {
        return on_chain(table, last, v);
    }
    w[CONTEXT_UNIT * unit + i] as usize == v
}
