// The table of kinds, filled from ranges of bytes. It is built on the stack once a book, so read-only memory holds none.
ghost use Rattle.std.specs.Prelude.{◌≡◌, ◌≤◌, length};
ghost use Rattle.kinds.specs.Kinds.{KindsTable};
ghost use Rattle.kinds.specs.Numbers.{number};
ghost use Rattle.kinds.specs.Ranges.{filled};

use crate::Kind;

// The bytes from `first` to `last`, both among them, are of this kind.
fn fill(kinds: &mut [u8; 256], first: u8, last: u8, kind: Kind)
    requires { (length kinds.old ≡ 256) × (first ≤ last) }
    ensures { kinds.new ≡ filled first last (number kind) kinds.old }
{
    kinds[first as usize..=last as usize].fill(kind.into());
}

// The kind of each byte. A caller takes the table once and hands it down.
pub fn kinds_of_bytes() -> [u8; 256]
    ensures { KindsTable result }
{
    let mut kinds = [Kind::Other.into(); 256];
    kinds[b'<' as usize] = Kind::Less.into();
    kinds[b'[' as usize] = Kind::Bracket.into();
    kinds[b'*' as usize] = Kind::Star.into();
    kinds[b':' as usize] = Kind::Colon.into();
    kinds[b'=' as usize] = Kind::Equals.into();
    kinds[b',' as usize] = Kind::Comma.into();
    kinds[b'(' as usize] = Kind::Open.into();
    kinds[b')' as usize] = Kind::Close.into();
    kinds[b'>' as usize] = Kind::Greater.into();
    kinds[b']' as usize] = Kind::Unbracket.into();
    kinds[b' ' as usize] = Kind::Space.into();
    kinds[b'\n' as usize] = Kind::Newline.into();
    kinds[b'.' as usize] = Kind::Point.into();
    kinds[b'+' as usize] = Kind::Plus.into();
    kinds[b'-' as usize] = Kind::Minus.into();
    kinds[b'_' as usize] = Kind::Name.into();
    fill(&mut kinds, b'0', b'9', Kind::Name);
    fill(&mut kinds, b'A', b'Z', Kind::Name);
    fill(&mut kinds, b'a', b'z', Kind::Name);
    kinds
}
