// Paragraph lines: `+p` and `-p`.
ghost use Rattle.std.specs.Prelude.{◌≡◌};
ghost use Rattle.kinds.specs.Numbers.{number};
ghost use Rattle.headings.specs.Signs.{kind_of_sign, kind_in};
ghost use Rattle.headings.specs.Posts.{SignOf, SignNamed};

use kinds::Kind;
use symbols::{Name, kind_at, name_at, spaces, symbol};

// The sign of a paragraph line.
#[derive(Clone, Copy, Debug, PartialEq, Eq)]
pub enum Sign {
    Opens,
    Closes,
}

impl From<Sign> for Kind {
    ghost from_gives = { λ sign kind. number kind ≡ kind_of_sign sign };

    fn from(sign: Sign) -> Kind {
        match sign {
            Sign::Opens => Kind::Plus,
            Sign::Closes => Kind::Minus,
        }
    }
}

// The number of that kind.
impl From<Sign> for u8 {
    ghost from_gives = { λ sign n. n ≡ kind_of_sign sign };

    fn from(sign: Sign) -> u8 {
        Kind::from(sign).into()
    }
}

// The sign of the line, by its first byte behind spaces (signed); None: it is no paragraph line.
pub fn sign_of(line: &[u8], kinds: &[u8; 256]) -> Option<Sign>
    ensures { SignOf kinds.now line.now (kind_in result) }
{
    let start = spaces(line, 0);
    match kind_at(line, kinds, start) {
        Kind::Plus => Some(Sign::Opens),
        Kind::Minus => Some(Sign::Closes),
        _ => None,
    }
}

// The name of the paragraph line with the sign of kind k (a_sign_line); None where it is malformed.
pub fn sign_line(line: &[u8], kinds: &[u8; 256], k: u8) -> Option<Name>
    ensures { SignNamed kinds.now line.now k result }
{
    let at = symbol(line, kinds, 0, Kind::from(k))?;
    let Ok(name) = name_at(line, kinds, at) else {
        return None;
    };
    let end = symbol(line, kinds, name.start + name.len, Kind::Newline)?;
    if end == line.len() { Some(name) } else { None }
}
