// Symbols and words: what stands at a place of a line. specs/Symbols has the contracts.
#![tactic(auto)]

ghost use Rattle.std.specs.Prelude.{◌≡◌, ◌+◌, ◌≤◌, ◌<◌, eqb, length, get_or, not, position, IfSome};
ghost use Rattle.aut68.specs.Language.{aut68};
ghost use Rattle.aut68.specs.Bytes.{same_bytes, reserved};
ghost use Rattle.kinds.specs.Numbers.{number};
ghost use Rattle.symbols.specs.Symbols.{PastSpaces, KindAt, PastSymbol, past_in, WordEnd, four_at, NameFound, UsedFound};

use kinds::Kind;

// The first of these bytes that is no space.
#[inline(always)]
fn first_other(part: &[u8]) -> Option<usize>
    ensures { result ≡ position (λ b. not (eqb b 32)) part.now }
{
    part.iter().position(|&b| b != b' ')
}

// The first byte from `at` on that is no space; the line's length where there is none (spaces).
#[inline(always)]
pub fn spaces(line: &[u8], at: usize) -> usize
    ensures { PastSpaces line.now at result }
{
    if at >= line.len() {
        return at;
    }
    let rest = &line[at..];
    at + first_other(rest).unwrap_or(rest.len())
}

// The kind of the byte at `at`; Other behind the line's end.
#[inline(always)]
pub fn kind_at(line: &[u8], kinds: &[u8; 256], at: usize) -> Kind
    ensures { KindAt kinds.now line.now at (number result) }
{
    match line.get(at) {
        Some(&b) => kinds::kind_of(kinds, b),
        None => Kind::Other,
    }
}

// Past the symbol of one byte of kind k that stands next, after spaces (symbol); None where another stands.
#[inline(always)]
pub fn symbol(line: &[u8], kinds: &[u8; 256], at: usize, k: Kind) -> Option<usize>
    ensures past { PastSymbol kinds.now line.now at (number k) (past_in line.now result) }
    ensures inside { IfSome result (λ r. r ≤ length line.now) }
{
    let i = spaces(line, at);
    let Some(&b) = line.get(i) else {
        return None;
    };
    if kinds::kind_of(kinds, b) == k {
        Some(i + 1)
    } else {
        None
    }
}

// The end of the longest run of name bytes from `at` on (word_of, after_word).
#[inline(always)]
pub fn word_end(line: &[u8], kinds: &[u8; 256], at: usize) -> usize
    ensures { WordEnd kinds.now line.now at result }
{
    for i in at..line.len() {
        if kinds::kind_of(kinds, line[i]) != Kind::Name {
            return i;
        }
    }
    at.max(line.len())
}

// The four bytes of s from i on, as a number (four_at).
#[tactic(auto, unfolding(crate::specs::Symbols::four_at))]
pub fn four(s: &[u8], i: usize) -> usize
    requires { i + 4 ≤ length s.now }
    ensures { (result ≡ four_at s.now i) × (result < 4294967296) }
{
    u32::from_le_bytes([s[i], s[i + 1], s[i + 2], s[i + 3]]) as usize
}

// The byte of s at i; 0 behind its end.
fn byte_at(s: &[u8], i: usize) -> usize
    ensures { (result ≡ get_or s.now i 0) × (result < 256) }
{
    if i < s.len() { s[i] as usize } else { 0 }
}

// The same where fewer than four may be left: 0 for those behind the end.
pub fn four_at(s: &[u8], i: usize) -> usize
    requires { i < length s.now }
    ensures { (result ≡ four_at s.now i) × (result < 4294967296) }
{
    if s.len() - i >= 4 {
        return four(s, i);
    }
    byte_at(s, i) + 256 * byte_at(s, i + 1) + 65536 * byte_at(s, i + 2)
}

// Are the bytes of a and b the same (same_bytes)? Four at once; the last four may overlap those before.
// Kept: `a == b` takes up to half as long again on words of fewer than 16 bytes, which most names are.
pub fn same_bytes(a: &[u8], b: &[u8]) -> bool
    ensures { result ≡ same_bytes a.now b.now }
{
    if a.len() != b.len() {
        return false;
    }
    if a.is_empty() {
        return true;
    }
    if a.len() < 4 {
        return four_at(a, 0) == four_at(b, 0);
    }
    let last = a.len() - 4;
    let mut i = 0;
    while i < last {
        if four(a, i) != four(b, i) {
            return false;
        }
        i += 4;
    }
    four(a, last) == four(b, last)
}

// The same byte by byte, for a word beside one of the three fixed words.
#[inline(always)]
pub fn same_word(word: &[u8], fixed: &[u8]) -> bool
    ensures { result ≡ same_bytes word.now fixed.now }
{
    if word.len() != fixed.len() {
        return false;
    }
    for i in 0..word.len() {
        if word[i] != fixed[i] {
            return false;
        }
    }
    true
}

// Is the word one of type, PN and EB (reserved)?
#[inline(always)]
pub fn is_reserved(word: &[u8]) -> bool
    ensures { result ≡ reserved aut68 word.now }
{
    same_word(word, b"type") || same_word(word, b"PN") || same_word(word, b"EB")
}

// A name in the line.
#[derive(Clone, Copy)]
pub struct Name {
    pub start: usize,
    pub len: usize,
}

// The name that stands next, after spaces (a_name): 1 to 32 name bytes and none of the three words; else the place where none does.
#[inline(always)]
pub fn name_at(line: &[u8], kinds: &[u8; 256], at: usize) -> Result<Name, usize>
    ensures { NameFound kinds.now line.now at result }
{
    if at > line.len() {
        return Err(at);
    }
    let start = spaces(line, at);
    let end = word_end(line, kinds, start);
    let len = end - start;
    if len == 0 || len > constants::NAME_LIMIT || is_reserved(&line[start..end]) {
        return Err(start);
    }
    Ok(Name { start, len })
}

// A name where it is used, and the paragraph's name before the point; None: there is no point.
#[derive(Clone, Copy)]
pub struct UsedName {
    pub paragraph: Option<Name>,
    pub name: Name,
}

// The name that stands next, with the paragraph's name and the point before it, if any (a_used).
#[inline(always)]
pub fn used_at(line: &[u8], kinds: &[u8; 256], at: usize) -> Option<UsedName>
    ensures { UsedFound kinds.now line.now at result }
{
    let Ok(first) = name_at(line, kinds, at) else {
        return None;
    };
    let Some(point) = symbol(line, kinds, first.start + first.len, Kind::Point) else {
        return Some(UsedName {
            paragraph: None,
            name: first,
        });
    };
    let Ok(name) = name_at(line, kinds, point) else {
        return None;
    };
    Some(UsedName {
        paragraph: Some(first),
        name,
    })
}
