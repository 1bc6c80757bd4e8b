// Down a chain of numbered items, each linked to an earlier one; 0 ends it. specs/Chains says what a chain comes to.
ghost use Rattle.std.specs.Prelude.{ℕ, ◌≤◌};
ghost use Rattle.names.specs.Chains.{WentDown};

// The first item, from item `first` down, that passes; none where the chain ends, leaves the first `items` items or goes up.
pub fn search<P: Fn(usize) -> bool, L: Fn(usize) -> usize>(
    first: usize,
    items: usize,
    passes: P,
    link: L,
) -> Option<usize>
    requires tested { (v : ℕ) → 1 ≤ v → v ≤ items → P.pre passes v }
    requires linked { (v : ℕ) → 1 ≤ v → v ≤ items → L.pre link v }
    ensures { WentDown (P.post passes) (L.post link) items first result }
{
    let mut v = first;
    while v != 0 {
        if v > items {
            return None;
        }
        if passes(v) {
            return Some(v);
        }
        let next = link(v);
        if next >= v {
            return None;
        }
        v = next;
    }
    None
}
