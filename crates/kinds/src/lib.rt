// The kind of each of the 256 byte values.
#![tactic(auto)]

mod ranges;

ghost use Rattle.std.specs.Prelude.{◌≡◌, ◌≤◌, ◌<◌};
ghost use Rattle.kinds.specs.Kinds.{KindsTable, kind_of};
ghost use Rattle.kinds.specs.Numbers.{number};

pub use ranges::kinds_of_bytes;

// A byte that no line has is Other. Every symbol of one byte has a kind of its own; the bytes of names share Name.
#[derive(Clone, Copy, Debug, PartialEq, Eq)]
pub enum Kind {
    Other,
    Name,
    Less,
    Bracket,
    Star,
    Colon,
    Equals,
    Comma,
    Open,
    Close,
    Greater,
    Unbracket,
    Space,
    Newline,
    Point,
    Plus,
    Minus,
}

// Its number, which a table of kinds has at each byte.
impl From<Kind> for u8 {
    ghost from_gives = { λ kind n. n ≡ number kind };

    #[inline(always)]
    fn from(kind: Kind) -> u8 {
        kind as u8
    }
}

// The kind of that number; Other where it is no kind's.
impl From<u8> for Kind {
    ghost from_gives = { λ n kind. (n ≤ 16 → number kind ≡ n) × (16 < n → number kind ≡ 0) };

    #[inline(always)]
    fn from(n: u8) -> Kind {
        match n {
            1 => Kind::Name,
            2 => Kind::Less,
            3 => Kind::Bracket,
            4 => Kind::Star,
            5 => Kind::Colon,
            6 => Kind::Equals,
            7 => Kind::Comma,
            8 => Kind::Open,
            9 => Kind::Close,
            10 => Kind::Greater,
            11 => Kind::Unbracket,
            12 => Kind::Space,
            13 => Kind::Newline,
            14 => Kind::Point,
            15 => Kind::Plus,
            16 => Kind::Minus,
            _ => Kind::Other,
        }
    }
}

// The kind of the byte b, by the table that is handed down.
#[inline(always)]
pub fn kind_of(kinds: &[u8; 256], b: u8) -> Kind
    ensures { KindsTable kinds.now → number result ≡ kind_of b }
{
    Kind::from(kinds[b as usize])
}
