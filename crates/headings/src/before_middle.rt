// `indicator*identifier:=`.
ghost use Rattle.headings.specs.Posts.{PrefixFound, HeadFound};

use kinds::Kind;
use symbols::{Name, UsedName, kind_at, name_at, spaces, symbol, used_at};

// The indicator (None: it is empty), and the byte behind it.
#[derive(Clone, Copy)]
pub struct Prefix {
    pub at: usize,
    pub indicator: Option<UsedName>,
}

// The indicator, if a name stands at the line's start (an_indicator); None where it is malformed.
fn prefix_of(line: &[u8], kinds: &[u8; 256]) -> Option<Prefix>
    ensures { PrefixFound kinds.now line.now result }
{
    let start = spaces(line, 0);
    if kind_at(line, kinds, start) != Kind::Name {
        return Some(Prefix {
            at: 0,
            indicator: None,
        });
    }
    let used = used_at(line, kinds, 0)?;
    Some(Prefix {
        at: used.name.start + used.name.len,
        indicator: Some(used),
    })
}

// The words before the middle: the indicator, as in Prefix, the identifier, and the byte behind `:=`.
#[derive(Clone, Copy)]
pub struct Head {
    pub at: usize,
    pub indicator: Option<UsedName>,
    pub identifier: Name,
}

// `indicator*identifier:=`, up to the byte behind it; None where it is malformed.
pub fn heading(line: &[u8], kinds: &[u8; 256]) -> Option<Head>
    ensures { HeadFound kinds.now line.now result }
{
    let prefix = prefix_of(line, kinds)?;
    let star = symbol(line, kinds, prefix.at, Kind::Star)?;
    let Ok(identifier) = name_at(line, kinds, star) else {
        return None;
    };
    let colon = symbol(line, kinds, identifier.start + identifier.len, Kind::Colon)?;
    if kind_at(line, kinds, colon) != Kind::Equals {
        return None;
    }
    Some(Head {
        at: colon + 1,
        indicator: prefix.indicator,
        identifier,
    })
}
