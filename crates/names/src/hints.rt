// Hints: the chains of lines in which a word is looked for. specs/Hints says what they promise.
ghost use Rattle.std.specs.Prelude.{◌≡◌, ◌*◌, ◌≤◌, ◌<◌, length, get_or};
ghost use Rattle.aut68.specs.Sizes.{row_width};
ghost use Rattle.cells.specs.Links.{unlinked};
ghost use Rattle.names.specs.Hints.{most_slots, hash_of, key_at, slots, slot_at};
ghost use Rattle.names.specs.Posts.{HeadPost, LinkPost};

use constants::{CELL_VALUES, Cell, LAST_LINE, NAME_LENGTH, ROW_WIDTH};
use symbols::{four, four_at};

// A line's number stands so far above the length of an identifier.
pub const LINK_FACTOR: usize = 65536;

// How many slots there are at most, so that a product with a hash has room; no limit comes near.
const MOST_SLOTS: usize = 131072;

// The bytes of the word, mixed four at once; the last four may overlap those before.
#[tactic(auto, using(crate::proofs::HashLaws::hashes))]
pub fn hash(word: &[u8]) -> usize
    ensures { result ≡ hash_of word.now }
{
    if word.is_empty() {
        return 0;
    }
    if word.len() < 4 {
        return four_at(word, 0) * 2146121005 % 4294967296;
    }
    let mut h = 0;
    for i in 0..(word.len() - 1) / 4 {
        h = (h + four(word, 4 * i)) * 2146121005 % 4294967296;
    }
    (h + four(word, word.len() - 4)) * 2146121005 % 4294967296
}

// How many slots a store of n cells has.
#[tactic(auto, using(crate::proofs::HashLaws::slots_is))]
fn slots(n: usize) -> usize
    ensures { result ≡ slots n }
{
    (n / 2).min(MOST_SLOTS)
}

// The key of the hash h in the paragraph q.
#[tactic(auto, using(crate::proofs::HashLaws::key_is))]
pub fn key(h: usize, q: usize) -> usize
    ensures { (result ≡ key_at h q) × (result < 4294967296) }
{
    (h % 4294967296 + 2654435761 * (q % 4294967296)) % 4294967296
}

// The slot of the hash h in the paragraph q, in a store of n cells.
#[tactic(auto, using(crate::proofs::HashLaws::slotted))]
fn slot_at(n: usize, h: usize, q: usize) -> usize
    ensures { (result ≡ slot_at n h q) × (result ≤ most_slots) }
{
    key(h, q) * slots(n) / 4294967296
}

// The line at the head of the chain of the hash h in the paragraph q; 0: none.
// Kept: 0 for none, as the cells of the working store, which the caller lends, and the rows' links have it.
#[tactic(auto, using(crate::proofs::LinkLaws::head_is_lem, crate::proofs::LinkLaws::head_past))]
pub fn head(w: &[Cell], h: usize, q: usize) -> usize
    ensures { result ≡ get_or w.now (slot_at (length w.now) h q) 0 }
{
    match w.get(slot_at(w.len(), h, q)) {
        Some(&line) => line as usize,
        None => 0,
    }
}

// Puts line v at the head of that chain; the line that was there.
#[tactic(auto, using(crate::proofs::LinkLaws::no_head, crate::proofs::LinkLaws::head_put))]
pub fn put_head(w: &mut [Cell], h: usize, q: usize, v: usize) -> usize
    ensures { HeadPost w.old w.new h q v result }
{
    let at = slot_at(w.len(), h, q);
    if at >= w.len() || v >= CELL_VALUES {
        return 0;
    }
    let was = w[at] as usize;
    w[at] = v as Cell;
    was
}

// Links the row behind the first `lines` rows to line h.
#[tactic(auto, using(crate::proofs::LinkLaws::not_linked))]
pub fn link(table: &mut [u32], lines: usize, h: usize)
    ensures { LinkPost table.old table.new lines h }
{
    if lines >= LAST_LINE || h > LAST_LINE {
        return;
    }
    let at = ROW_WIDTH * lines + NAME_LENGTH;
    if at >= table.len() {
        return;
    }
    let size = table[at] as usize;
    if size >= LINK_FACTOR {
        return;
    }
    let linked = size + LINK_FACTOR * h;
    table[at] = linked as u32;
}

// Takes the links out of the first `lines` rows.
#[tactic(auto, using(crate::proofs::LinkLaws::unlinked_none, crate::proofs::LinkLaws::unlinked_at))]
pub fn unlink(table: &mut [u32], lines: usize)
    ensures { row_width * lines ≤ length table.old → table.new ≡ unlinked lines table.old }
{
    for v in 0..lines.min(table.len() / ROW_WIDTH) {
        table[ROW_WIDTH * v + NAME_LENGTH] %= LINK_FACTOR as u32;
    }
}
