// The bindings around an expression, by value: where each starts and how long it is; and how deep the expression is nested.
ghost use Rattle.std.specs.Prelude.{◌≡◌, replicate};
ghost use Rattle.aut68.specs.Sizes.{nesting};
ghost use Rattle.cells.specs.Posts.{Bound, Nested};

use constants::NESTING;

// `bound` bindings, the outermost first, at nesting depth `depth`. The reader has where a bound name is in the line, the
// categories where its domain is in the term store.
#[derive(Clone, Copy)]
pub struct Scope {
    pub starts: [u32; NESTING],
    pub lens: [u32; NESTING],
    pub bound: usize,
    pub depth: usize,
}

// The scope outside every binding.
pub fn no_bindings() -> Scope
    ensures { (result.bound ≡ 0) × (result.depth ≡ 0) × (result.starts ≡ replicate nesting 0) × (result.lens ≡ replicate nesting 0) }
{
    Scope {
        starts: [0; NESTING],
        lens: [0; NESTING],
        bound: 0,
        depth: 0,
    }
}

// The scope one nesting level deeper; as it is at depth NESTING.
pub fn nest(scope: Scope) -> Scope
    ensures { Nested scope result }
{
    if scope.depth >= NESTING {
        return scope;
    }
    Scope {
        depth: scope.depth + 1,
        ..scope
    }
}

// The scope one nesting level deeper, with one binding more, the innermost; as it is at depth NESTING. Without the binding where
// there are NESTING, or the numbers are too large for it.
pub fn bind(scope: Scope, start: usize, len: usize) -> Scope
    ensures { Bound scope start len result }
{
    if scope.depth >= NESTING {
        return scope;
    }
    let mut inner = Scope {
        depth: scope.depth + 1,
        ..scope
    };
    let bound = scope.bound;
    if bound >= NESTING || start > u32::MAX as usize || len > u32::MAX as usize {
        return inner;
    }
    inner.starts[bound] = start as u32;
    inner.lens[bound] = len as u32;
    inner.bound = bound + 1;
    inner
}
