// The explainer's cursor (document 02, Request 08): it holds the manifest's bytes, as they were lent, and its place, the number of bytes left there. The functions over it are thin: each
// takes it apart and calls one that takes a slice and a number.
#![tactic(auto)]

ghost use Rattle.std.specs.Prelude.{◌≡◌};
ghost use Rattle.cursor.specs.Item as is;

use fields::place_of;

// The levels that a manifest has: whatever is read where fewer are left is read alike where these are.
const LEVELS: u64 = 32;

#[derive(Clone, Copy)]
pub struct Cursor<'a> {
    pub bytes: &'a [u8],
    pub left: usize,
}

// How many bytes the item takes where `left` bytes of s are left.
fn passed(s: &[u8], left: usize) -> usize
    ensures { result ≡ is.passed s.now left }
{
    let at = place_of(s.len(), left);
    cbor::skip(&s[at..], LEVELS)
}

pub fn new<'a>(bytes: &'a [u8], left: usize) -> Cursor<'a>
    ensures { (result.bytes ≡ bytes.entry) × (result.left ≡ left) }
{
    Cursor { bytes, left }
}

// How many bytes the item at the cursor takes.
pub fn item<'a>(c: Cursor<'a>) -> usize
    ensures { result ≡ is.passed c.entry.bytes.now c.entry.left }
{
    passed(c.bytes, c.left)
}

// The same for bytes and a place.
pub fn size(bytes: &[u8], left: usize) -> usize
    ensures { result ≡ is.passed bytes.now left }
{
    item(new(bytes, left))
}
