// Runs of cells, copied, exchanged, compared. Each function looks at its runs itself: where one is not whole in its store,
// nothing is written.
ghost use Rattle.std.specs.Prelude.{◌≡◌, ◌+◌, leb};
ghost use Rattle.cells.specs.Cells.{copy_cells, move_cells, same_run, same_cells};
ghost use Rattle.cells.specs.Posts.{cleared};

use constants::Cell;

// Does a store of `len` cells have n cells from index `from` on?
pub fn whole(from: usize, n: usize, len: usize) -> bool
    ensures { result ≡ leb (from + n) len }
{
    from <= len && n <= len - from
}

// Copies n cells of s from index `from` on to index `to` of w.
pub fn load(s: &[Cell], from: usize, n: usize, w: &mut [Cell], to: usize)
    ensures { w.new ≡ copy_cells s.now from n w.old to }
{
    if whole(from, n, s.len()) && whole(to, n, w.len()) {
        w[to..to + n].copy_from_slice(&s[from..from + n]);
    }
}

// Copies n cells of w from index `from` on to index `to`; nothing where `to` lies inside them.
pub fn move_cells(w: &mut [Cell], from: usize, to: usize, n: usize)
    ensures { w.new ≡ move_cells w.old from n to }
{
    if from < to && to - from < n {
        return;
    }
    if whole(from, n, w.len()) && whole(to, n, w.len()) {
        w.copy_within(from..from + n, to);
    }
}

// Are the n cells of s from `from` on the n cells of f from `at` on?
pub fn same_run(s: &[Cell], from: usize, f: &[Cell], at: usize, n: usize) -> bool
    ensures { result ≡ same_run s.now from f.now at n }
{
    whole(from, n, s.len()) && whole(at, n, f.len()) && s[from..from + n] == f[at..at + n]
}

// Are the n cells from a on the n cells from b on?
pub fn same_cells(w: &[Cell], a: usize, b: usize, n: usize) -> bool
    ensures { result ≡ same_cells w.now a b n }
{
    same_run(w, a, w, b, n)
}

// Exchanges the n term cells from `from` on with the n working cells from `to` on.
pub fn exchange(terms: &mut [Cell], from: usize, w: &mut [Cell], to: usize, n: usize)
    ensures { (terms.new ≡ copy_cells w.old to n terms.old from)
        × (w.new ≡ copy_cells terms.old from n w.old to) }
{
    if whole(from, n, terms.len()) && whole(to, n, w.len()) {
        terms[from..from + n].swap_with_slice(&mut w[to..to + n]);
    }
}

// Zeros in the first n cells of w.
pub fn clear(w: &mut [Cell], n: usize)
    ensures { w.new ≡ cleared n w.old }
{
    if n <= w.len() {
        w[..n].fill(0);
    }
}
